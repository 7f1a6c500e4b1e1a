//! Sums and differences that stop at the ends of their type: a choice between the adder's word and the end.
ghost use Rattle.std.specs.Prelude.{◌≡◌, min, IfOk, length, replicate};
ghost use Rattle.bits_core.specs.declared.operator.Op.TheVariants.{AddSatU, SubSatU, AddSatS, SubSatS};
ghost use Rattle.bit_blaster.specs.declared.shifter.Direction.TheVariants.{Right};
ghost use Rattle.bit_blaster.specs.Netlist.{Extends, HasWire, HasWord};
ghost use Rattle.bit_blaster.specs.Saturation.{GivesOrEnd};
ghost use Rattle.bit_blaster.specs.Shifter.{shifted};
ghost use Rattle.bit_blaster.specs.Wire.{opposite};
ghost use Rattle.bit_blaster.specs.Word.{Computes};

use crate::circuit::Circuit;
use crate::circuits::add_subtract::{sum, total_of};
use crate::shifter::{Direction, moved, sign_of};
use crate::wire::Wire;
use crate::words::{all_known, turned};
use std::alloc::{AllocError, Global};

/// The greatest number where the sum carries out.
#[tactic(auto, using(crate::proofs::SaturationLemmas::has_known))]
pub(crate) fn add_saturating_unsigned(
    circuit: &mut Circuit,
    a: &[Wire],
    b: &[Wire],
) -> Result<Vec<Wire>, AllocError>
    requires first { HasWord circuit.old a.now }
    requires second { HasWord circuit.old b.now }
    requires long { length a.now ≡ length b.now }
    ensures extends { Extends circuit.old circuit.new }
    ensures computes { IfOk result (λ r. Computes AddSatU circuit.old circuit.new
        a.now b.now r.items) }
{
    let end = all_known(circuit.alloc(), true, a.len())?;
    let sum = total_of(circuit, a, b, Wire::Known(false))?;
    circuit.choose_word(sum.carry, &end, &sum.word)
}

/// 0 where the difference borrows, which no carry out tells.
#[tactic(auto, using(crate::proofs::SaturationLemmas::has_known, crate::proofs::OperatorLemmas::has_turned))]
pub(crate) fn subtract_saturating_unsigned(
    circuit: &mut Circuit,
    a: &[Wire],
    b: &[Wire],
) -> Result<Vec<Wire>, AllocError>
    requires first { HasWord circuit.old a.now }
    requires second { HasWord circuit.old b.now }
    requires long { length a.now ≡ length b.now }
    ensures extends { Extends circuit.old circuit.new }
    ensures computes { IfOk result (λ r. Computes SubSatU circuit.old circuit.new
        a.now b.now r.items) }
{
    let end = all_known(circuit.alloc(), false, a.len())?;
    let other = turned(circuit.alloc(), b)?;
    let difference = total_of(circuit, a, &other, Wire::Known(true))?;
    circuit.choose_word(difference.carry, &difference.word, &end)
}

/// Operands of one sign do not give the other sign.
#[tactic(auto, using(crate::proofs::ShifterLemmas::has_sign, crate::proofs::GateLemmas::has_opposite, crate::proofs::NetlistLemmas::has_word_along, crate::proofs::NetlistLemmas::extends_along))]
pub(crate) fn add_saturating_signed(
    circuit: &mut Circuit,
    a: &[Wire],
    b: &[Wire],
) -> Result<Vec<Wire>, AllocError>
    requires first { HasWord circuit.old a.now }
    requires second { HasWord circuit.old b.now }
    requires long { length a.now ≡ length b.now }
    ensures extends { Extends circuit.old circuit.new }
    ensures computes { IfOk result (λ r. Computes AddSatS circuit.old circuit.new
        a.now b.now r.items) }
{
    let differ = circuit.xor(sign_of(a), sign_of(b))?;
    let word = sum(circuit, a, b, Wire::Known(false))?;
    word_or_end(circuit, a, &word, !differ)
}

/// What is less an operand of the other sign keeps its own.
#[tactic(auto, using(crate::proofs::ShifterLemmas::has_sign, crate::proofs::NetlistLemmas::has_word_along, crate::proofs::NetlistLemmas::extends_along))]
pub(crate) fn subtract_saturating_signed(
    circuit: &mut Circuit,
    a: &[Wire],
    b: &[Wire],
) -> Result<Vec<Wire>, AllocError>
    requires first { HasWord circuit.old a.now }
    requires second { HasWord circuit.old b.now }
    requires long { length a.now ≡ length b.now }
    ensures extends { Extends circuit.old circuit.new }
    ensures computes { IfOk result (λ r. Computes SubSatS circuit.old circuit.new
        a.now b.now r.items) }
{
    let differ = circuit.xor(sign_of(a), sign_of(b))?;
    let other = turned(circuit.alloc(), b)?;
    let word = sum(circuit, a, &other, Wire::Known(true))?;
    word_or_end(circuit, a, &word, differ)
}

/// The type's end on the first word's side where the other has another sign and may not have it, and else the other word.
#[tactic(auto, using(crate::proofs::ShifterLemmas::has_sign, crate::proofs::SaturationLemmas::has_end, crate::proofs::SaturationLemmas::length_end, crate::proofs::NetlistLemmas::has_word_along, crate::proofs::NetlistLemmas::extends_along))]
fn word_or_end(
    circuit: &mut Circuit,
    a: &[Wire],
    word: &[Wire],
    bound: Wire,
) -> Result<Vec<Wire>, AllocError>
    requires first { HasWord circuit.old a.now }
    requires second { HasWord circuit.old word.now }
    requires bound { HasWire circuit.old bound }
    requires long { length word.now ≡ length a.now }
    ensures extends { Extends circuit.old circuit.new }
    ensures gives { IfOk result (λ r. GivesOrEnd circuit.old circuit.new
        a.now word.now bound r.items) }
{
    let sign = sign_of(a);
    let changed = circuit.xor(sign, sign_of(word))?;
    let past = circuit.and(bound, changed)?;
    let end = end_on(circuit.alloc(), sign, a.len())?;
    circuit.choose_word(past, &end, word)
}

/// The end of the signed type of this width on the side of a sign: the sign above copies of its opposite.
fn end_on(alloc: Global, sign: Wire, width: usize) -> Result<Vec<Wire>, AllocError>
    ensures { IfOk result (λ r. r.items ≡ shifted Right sign (min 1 width)
        (replicate width (opposite sign))) }
{
    let mut below = Vec::new(alloc);
    below.resize(width, !sign)?;
    moved(alloc, Direction::Right, sign, &below, width.min(1))
}
