//! Comparisons: the order by the last carry of a difference, of signed numbers with their sign bits turned round.
ghost use Rattle.std.specs.Prelude.{◌≡◌, IfOk, length};
ghost use Rattle.bits_core.specs.declared.operator.Op.TheVariants.{Eq, LeS, LeU, LtS, LtU};
ghost use Rattle.bit_blaster.specs.Netlist.{Extends, HasWord};
ghost use Rattle.bit_blaster.specs.Word.{Computes, GivesTest, no_borrow, top_turned};

use crate::circuit::Circuit;
use crate::shifter::sign_of;
use crate::wire::Wire;
use crate::words::{BitGate, one_bit, turned};
use std::alloc::{AllocError, Global};

pub(crate) fn less_equal_unsigned(
    circuit: &mut Circuit,
    a: &[Wire],
    b: &[Wire],
) -> Result<Vec<Wire>, AllocError>
    requires first { HasWord circuit.old a.now }
    requires second { HasWord circuit.old b.now }
    requires long { length a.now ≡ length b.now }
    ensures extends { Extends circuit.old circuit.new }
    ensures computes { IfOk result (λ r. Computes LeU circuit.old circuit.new a.now b.now r.items) }
{
    let wire = not_below(circuit, b, a)?;
    one_bit(circuit.alloc(), wire)
}

pub(crate) fn less_unsigned(
    circuit: &mut Circuit,
    a: &[Wire],
    b: &[Wire],
) -> Result<Vec<Wire>, AllocError>
    requires first { HasWord circuit.old a.now }
    requires second { HasWord circuit.old b.now }
    requires long { length a.now ≡ length b.now }
    ensures extends { Extends circuit.old circuit.new }
    ensures computes { IfOk result (λ r. Computes LtU circuit.old circuit.new a.now b.now r.items) }
{
    let wire = not_below(circuit, a, b)?;
    one_bit(circuit.alloc(), !wire)
}

/// By the exclusive disjunction at each place, none of which may be true.
pub(crate) fn equal(circuit: &mut Circuit, a: &[Wire], b: &[Wire]) -> Result<Vec<Wire>, AllocError>
    requires first { HasWord circuit.old a.now }
    requires second { HasWord circuit.old b.now }
    requires long { length a.now ≡ length b.now }
    ensures extends { Extends circuit.old circuit.new }
    ensures computes { IfOk result (λ r. Computes Eq circuit.old circuit.new a.now b.now r.items) }
{
    let differences = circuit.bit_by_bit(BitGate::Xor, a, b)?;
    let differs = circuit.any(&differences)?;
    one_bit(circuit.alloc(), !differs)
}

#[tactic(auto, using(crate::proofs::CompareLemmas::has_top_turned))]
pub(crate) fn less_signed(
    circuit: &mut Circuit,
    a: &[Wire],
    b: &[Wire],
) -> Result<Vec<Wire>, AllocError>
    requires first { HasWord circuit.old a.now }
    requires second { HasWord circuit.old b.now }
    requires long { length a.now ≡ length b.now }
    ensures extends { Extends circuit.old circuit.new }
    ensures computes { IfOk result (λ r. Computes LtS circuit.old circuit.new a.now b.now r.items) }
{
    let first = with_sign_turned(circuit.alloc(), a)?;
    let second = with_sign_turned(circuit.alloc(), b)?;
    less_unsigned(circuit, &first, &second)
}

#[tactic(auto, using(crate::proofs::CompareLemmas::has_top_turned))]
pub(crate) fn less_equal_signed(
    circuit: &mut Circuit,
    a: &[Wire],
    b: &[Wire],
) -> Result<Vec<Wire>, AllocError>
    requires first { HasWord circuit.old a.now }
    requires second { HasWord circuit.old b.now }
    requires long { length a.now ≡ length b.now }
    ensures extends { Extends circuit.old circuit.new }
    ensures computes { IfOk result (λ r. Computes LeS circuit.old circuit.new a.now b.now r.items) }
{
    let first = with_sign_turned(circuit.alloc(), a)?;
    let second = with_sign_turned(circuit.alloc(), b)?;
    less_equal_unsigned(circuit, &first, &second)
}

/// The word with its sign bit turned round, so that the order of the numbers is that of the signed values.
fn with_sign_turned(alloc: Global, word: &[Wire]) -> Result<Vec<Wire>, AllocError>
    ensures { IfOk result (λ r. r.items ≡ top_turned word.now) }
{
    let mut turned = Vec::new(alloc);
    turned.extend_from_slice(&word[..word.len().saturating_sub(1)])?;
    turned.push(!sign_of(word))?;
    Ok(turned)
}

/// Whether the first word's number is not below the second's: the last carry of their difference, where there is no borrow.
fn not_below(circuit: &mut Circuit, a: &[Wire], b: &[Wire]) -> Result<Wire, AllocError>
    requires first { HasWord circuit.old a.now }
    requires second { HasWord circuit.old b.now }
    requires long { length a.now ≡ length b.now }
    ensures extends { Extends circuit.old circuit.new }
    ensures gives { IfOk result (GivesTest no_borrow circuit.old circuit.new a.now b.now) }
{
    let other = turned(circuit.alloc(), b)?;
    let row = circuit.carries(a, &other, Wire::Known(true))?;
    Ok(row.last)
}
