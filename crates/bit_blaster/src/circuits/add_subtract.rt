//! Sums, differences and negations by a ripple-carry adder: full adders of two exclusive disjunctions and a majority each.
ghost use Rattle.std.specs.Prelude.{◌≡◌, IfOk, length};
ghost use Rattle.bits_core.specs.declared.operator.Op.TheVariants.{Add, Sub, Neg};
ghost use Rattle.bit_blaster.specs.Netlist.{Extends, HasWire, HasWord};
ghost use Rattle.bit_blaster.specs.Word.{Computes, GivesCarryOut, GivesSum};

use crate::circuit::Circuit;
use crate::wire::Wire;
use crate::words::{BitGate, all_known, turned};
use std::alloc::AllocError;

/// A sum, and the carry out of its last place.
#[derive(Debug, Drop)]
pub(crate) struct Total {
    pub(crate) word: Vec<Wire>,
    pub(crate) carry: Wire,
}

pub(crate) fn add(circuit: &mut Circuit, a: &[Wire], b: &[Wire]) -> Result<Vec<Wire>, AllocError>
    requires first { HasWord circuit.old a.now }
    requires second { HasWord circuit.old b.now }
    requires long { length a.now ≡ length b.now }
    ensures extends { Extends circuit.old circuit.new }
    ensures computes { IfOk result (λ r. Computes Add circuit.old circuit.new a.now b.now r.items) }
{
    sum(circuit, a, b, Wire::Known(false))
}

/// The sum with the second word turned round, and 1.
pub(crate) fn subtract(
    circuit: &mut Circuit,
    a: &[Wire],
    b: &[Wire],
) -> Result<Vec<Wire>, AllocError>
    requires first { HasWord circuit.old a.now }
    requires second { HasWord circuit.old b.now }
    requires long { length a.now ≡ length b.now }
    ensures extends { Extends circuit.old circuit.new }
    ensures computes { IfOk result (λ r. Computes Sub circuit.old circuit.new a.now b.now r.items) }
{
    let other = turned(circuit.alloc(), b)?;
    sum(circuit, a, &other, Wire::Known(true))
}

/// 0 less the first word. The second is not looked at.
#[tactic(auto, using(crate::proofs::SaturationLemmas::has_known, crate::proofs::OperatorLemmas::has_turned))]
pub(crate) fn negate(circuit: &mut Circuit, a: &[Wire], b: &[Wire]) -> Result<Vec<Wire>, AllocError>
    requires first { HasWord circuit.old a.now }
    requires second { HasWord circuit.old b.now }
    ensures extends { Extends circuit.old circuit.new }
    ensures computes { IfOk result (λ r. Computes Neg circuit.old circuit.new a.now b.now r.items) }
{
    let _ = b;
    let zeros = all_known(circuit.alloc(), false, a.len())?;
    let other = turned(circuit.alloc(), a)?;
    sum(circuit, &zeros, &other, Wire::Known(true))
}

/// The sum of two words and a carry, without the carry out.
pub(crate) fn sum(
    circuit: &mut Circuit,
    a: &[Wire],
    b: &[Wire],
    carry: Wire,
) -> Result<Vec<Wire>, AllocError>
    requires first { HasWord circuit.old a.now }
    requires second { HasWord circuit.old b.now }
    requires carry { HasWire circuit.old carry }
    requires long { length a.now ≡ length b.now }
    ensures extends { Extends circuit.old circuit.new }
    ensures gives { IfOk result (λ r. GivesSum (length a.now) circuit.old circuit.new
        a.now b.now carry r.items) }
{
    let row = total_of(circuit, a, b, carry)?;
    Ok(row.word)
}

/// The sum of two words and a carry, with the carry out.
pub(crate) fn total_of(
    circuit: &mut Circuit,
    a: &[Wire],
    b: &[Wire],
    carry: Wire,
) -> Result<Total, AllocError>
    requires first { HasWord circuit.old a.now }
    requires second { HasWord circuit.old b.now }
    requires carry { HasWire circuit.old carry }
    requires long { length a.now ≡ length b.now }
    ensures extends { Extends circuit.old circuit.new }
    ensures gives { IfOk result (λ r. GivesSum (length a.now) circuit.old circuit.new
        a.now b.now carry r.word.items) }
    ensures carry { IfOk result (λ r. GivesCarryOut circuit.old circuit.new
        a.now b.now carry r.carry) }
{
    let carries = circuit.carries(a, b, carry)?;
    let halves = circuit.bit_by_bit(BitGate::Xor, b, &carries.all)?;
    let word = circuit.bit_by_bit(BitGate::Xor, a, &halves)?;
    Ok(Total {
        word,
        carry: carries.last,
    })
}
