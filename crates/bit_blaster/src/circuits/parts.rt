//! Joins, slices and extensions, which only move wires, and choices.
ghost use Rattle.std.specs.Prelude.{◌≡◌, ◌+◌, ◌-◌, ◌<◌, ◌≤◌, if◌then◌else◌, false, IfOk, length, slice_index_or};
ghost use Rattle.bits_core.specs.Number.{extend_value, slice_value};
ghost use Rattle.bits_core.specs.declared.operator.Op.TheVariants.{Cat};
ghost use Rattle.bit_blaster.specs.Netlist.{Extends, HasWord};
ghost use Rattle.bit_blaster.specs.TermWord.{ComputesChoice, ComputesOne};
ghost use Rattle.bit_blaster.specs.Word.{Computes};
ghost use Rattle.bit_blaster.specs.declared.wire.Wire.TheVariants.{Known};

use crate::circuit::Circuit;
use crate::shifter::sign_of;
use crate::wire::Wire;
use std::alloc::AllocError;

/// The second word under the first.
#[tactic(auto, using(crate::proofs::NetlistLemmas::extends_itself))]
pub(crate) fn concatenate(
    circuit: &mut Circuit,
    a: &[Wire],
    b: &[Wire],
) -> Result<Vec<Wire>, AllocError>
    requires first { HasWord circuit.old a.now }
    requires second { HasWord circuit.old b.now }
    ensures extends { Extends circuit.old circuit.new }
    ensures computes { IfOk result (λ r. Computes Cat circuit.old circuit.new a.now b.now r.items) }
{
    let mut word = Vec::new(circuit.alloc());
    word.extend_from_slice(b)?;
    word.extend_from_slice(a)?;
    Ok(word)
}

/// The bits from place `low` up to place `high`.
pub(crate) fn slice(
    circuit: &Circuit,
    a: &[Wire],
    high: u8,
    low: u8,
) -> Result<Vec<Wire>, AllocError>
    requires word { HasWord circuit.now a.now }
    requires order { low ≤ high }
    requires within { high < length a.now }
    ensures { IfOk result (λ r. ComputesOne (high - low + 1) (λ n. slice_value n high low)
        circuit.now circuit.now a.now r.items) }
{
    let mut word = Vec::new(circuit.alloc());
    word.extend_from_slice(&a[low as usize..high as usize + 1])?;
    Ok(word)
}

/// The word cut to a width, or widened to it by zeros or copies of its sign bit.
pub(crate) fn extend(
    circuit: &Circuit,
    a: &[Wire],
    width: u8,
    signed: bool,
) -> Result<Vec<Wire>, AllocError>
    requires word { HasWord circuit.now a.now }
    requires some_bit { 1 ≤ length a.now }
    ensures { IfOk result (λ r. ComputesOne width (λ n. extend_value signed (length a.now) n width)
        circuit.now circuit.now a.now r.items) }
{
    let fill = fill_of(a, signed);
    let width = width as usize;
    let mut word = Vec::new(circuit.alloc());
    word.extend_from_slice(&a[..width.min(a.len())])?;
    word.resize(width, fill)?;
    Ok(word)
}

/// What stands above a word that is widened.
fn fill_of(word: &[Wire], signed: bool) -> Wire
    ensures { result ≡ (if signed then slice_index_or word.now (length word.now - 1) (Known false)
        else Known false) }
{
    if signed {
        sign_of(word)
    } else {
        Wire::Known(false)
    }
}

/// The first word where the condition, of one bit, is 1, and else the second.
#[tactic(auto, using(crate::proofs::WordLemmas::has_at))]
pub(crate) fn choose(
    circuit: &mut Circuit,
    condition: &[Wire],
    a: &[Wire],
    b: &[Wire],
) -> Result<Vec<Wire>, AllocError>
    requires condition { HasWord circuit.old condition.now }
    requires first { HasWord circuit.old a.now }
    requires second { HasWord circuit.old b.now }
    requires one_bit { length condition.now ≡ 1 }
    requires same { length a.now ≡ length b.now }
    ensures extends { Extends circuit.old circuit.new }
    ensures computes { IfOk result (λ r. ComputesChoice circuit.old circuit.new condition.now
        a.now b.now r.items) }
{
    circuit.choose_word(condition[0], a, b)
}
