//! A point at which a question's term stands for something, with values for some of its bits.
ghost use Rattle.std.specs.Prelude.{◌≡◌, ◌<◌, ◌≤◌, ◌^◌, true, false, None, Some, IfOk, OnOk, length, slice_get, slice_set};
ghost use Rattle.std.specs.List.{All, AllPairs, Contains};
ghost use Rattle.bits_core.specs.BitList.{bits_of as bit_list};
ghost use Rattle.bits_core.specs.declared.number.TheConstants.{MAX_WIDTH};
ghost use Rattle.term_dag.specs.Mention.{HasMentioned};
ghost use Rattle.bit_blaster.specs.Vars.{AreVarsOf, AsksOneWidth, HasBit, HasBits, IsBefore};
ghost use Rattle.query_engine.specs.About.{AreBitsOf};
ghost use Rattle.query_engine.specs.Blank.{Adds, AreZeros, IsBlank, IsPlace, KeepsBits, Pads, Sets, Widens};
ghost use Rattle.query_engine.specs.Question.{FixesInputs, IsAt};

use crate::question::Question;
use bits_core::{Bits, BitsList, Point};
use cnf_core::Var;
use proof_stream::Truths;
use sqlite_items::Items;
use std::alloc::{AllocError, Global};
use term_dag::Dag;

/// A point that the question asks about, with these values for some of the term's bits. The others are 0. It has all that the
/// term mentions, but where this asks for a read in two widths.
pub(crate) fn point_with(
    alloc: Global,
    dag: &Dag,
    question: &Question,
    all: &[Var],
    vars: &[Var],
    values: &[bool],
) -> Result<Point, AllocError>
    requires within { question.now.term.number < length dag.now }
    requires inputs { FixesInputs dag.now question.now.term question.now.at }
    requires all { AreVarsOf dag.now question.now.term all.now }
    requires vars { AreBitsOf dag.now question.now vars.now }
    requires long { length values.now ≡ length vars.now }
    ensures at { IfOk result (IsAt question.now.at) }
    ensures has { IfOk result (λ p. AsksOneWidth dag.now question.now.term
        → HasMentioned dag.now question.now.term p) }
    ensures bits { IfOk result (λ p. HasBits p vars.now values.now) }
{
    let _ = dag.len();
    let mut point = blank(alloc, all)?;
    set_bits(&mut point, vars, values);
    fixed_at(alloc, point, &question.at)
}

/// The point with the fixed input bits in place of its own.
fn fixed_at(alloc: Global, point: Point, at: &Option<Truths>) -> Result<Point, AllocError>
    ensures at { IfOk result (IsAt at.now) }
    ensures reads { IfOk result (λ p. p.reads ≡ point.reads) }
    ensures free { at.now ≡ None → IfOk result (λ p. p.inputs ≡ point.inputs) }
{
    match at {
        Some(bits) => {
            let Point { inputs: _, reads } = point;
            Ok(Point {
                inputs: Items::from_slice(alloc, bits.as_slice())?,
                reads,
            })
        }
        None => Ok(point),
    }
}

/// A point with these bits, all 0, and no wider reads than they need.
fn blank(alloc: Global, vars: &[Var]) -> Result<Point, AllocError>
    requires { All IsPlace vars.now }
    ensures { IfOk result (IsBlank (Contains vars.now)) }
{
    let mut point = Point {
        inputs: Items::new(alloc),
        reads: Items::new(alloc),
    };
    for var in vars {
        add_bit(&mut point, *var)?;
    }
    Ok(point)
}

/// Makes room for the bit.
fn add_bit(point: &mut Point, var: Var) -> Result<(), AllocError>
    requires place { IsPlace var }
    requires zeros { AreZeros point.old }
    ensures { OnOk result (Adds var point.old point.new) }
{
    match var {
        Var::Input(bit) => add_input(&mut point.inputs, bit as usize),
        Var::Read(read, bit) => {
            add_read(&mut point.reads, read as usize)?;
            widen(&mut point.reads, read as usize, bit as u8);
            Ok(())
        }
    }
}

/// Adds input bits up to this one.
fn add_input(inputs: &mut Items<bool>, bit: usize) -> Result<(), AllocError>
    requires { bit < 2 ^ 32 }
    ensures there { OnOk result (bit < length inputs.new) }
    ensures pads { OnOk result (Pads (λ bit. bit ≡ false) inputs.old inputs.new) }
{
    for _place in inputs.len()..bit + 1 {
        inputs.push(false)?;
    }
    Ok(())
}

/// A read of one bit.
const ZERO: Bits = Bits { width: 1, value: 0 };

/// Adds reads up to this one.
fn add_read(reads: &mut BitsList, read: usize) -> Result<(), AllocError>
    requires { read < 2 ^ 32 }
    ensures there { OnOk result (read < length reads.new) }
    ensures pads { OnOk result (Pads (λ x. x.width ≡ 1) reads.old reads.new) }
{
    for _place in reads.len()..read + 1 {
        reads.push(ZERO)?;
    }
    Ok(())
}

/// Makes the read 0, and as wide as the bit needs.
fn widen(reads: &mut BitsList, read: usize, bit: u8)
    requires within { read < length reads.old }
    requires place { bit < MAX_WIDTH }
    ensures { Widens read bit reads.old reads.new }
{
    let width = reads.as_slice()[read].width.max(bit + 1);
    let bits = zeros(width);
    reads.set(read, bits);
}

fn zeros(width: u8) -> Bits
    requires some_bit { 1 ≤ width }
    requires at_most_widest { width ≤ MAX_WIDTH }
    ensures width { result.width ≡ width }
    ensures zero { result.value ≡ 0 }
{
    Bits { width, value: 0 }
}

/// Gives these bits, which are 0, their values.
fn set_bits(point: &mut Point, vars: &[Var], values: &[bool])
    requires rising { AllPairs IsBefore vars.now }
    requires zeros { All (λ v. HasBit point.old v false) vars.now }
    requires long { length values.now ≡ length vars.now }
    ensures bits { HasBits point.new vars.now values.now }
    ensures keeps { KeepsBits point.old point.new }
{
    for place in 0..vars.len() {
        give_bit(point, vars[place], values[place]);
    }
}

/// Gives the bit its value.
fn give_bit(point: &mut Point, var: Var, truth: bool)
    requires { HasBit point.old var false }
    ensures { Sets var truth point.old point.new }
{
    if truth {
        set_bit(point, var);
    }
}

/// Sets the bit.
fn set_bit(point: &mut Point, var: Var)
    requires { HasBit point.old var false }
    ensures { Sets var true point.old point.new }
{
    match var {
        Var::Input(bit) => point.inputs.set(bit as usize, true),
        Var::Read(read, bit) => {
            let read = read as usize;
            let bits = with_bit(point.reads.as_slice()[read], bit);
            point.reads.set(read, bits);
        }
    }
}

/// The number with the bit set, which was 0.
fn with_bit(bits: Bits, place: u32) -> Bits
    requires { slice_get (bit_list bits.width bits.value) place ≡ Some false }
    ensures width { result.width ≡ bits.width }
    ensures bits { bit_list result.width result.value
        ≡ slice_set (bit_list bits.width bits.value) place true }
{
    Bits {
        width: bits.width,
        value: bits.value + (1 << place),
    }
}
