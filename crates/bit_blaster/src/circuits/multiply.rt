//! Products by shift and add: for each bit of the second word the first, at that bit's place, is added where the bit is set.
ghost use Rattle.std.specs.Prelude.{◌≡◌, min, false, IfOk, length};
ghost use Rattle.bits_core.specs.declared.operator.Op.TheVariants.{Mul};
ghost use Rattle.bit_blaster.specs.Multiplier.{GivesGated};
ghost use Rattle.bit_blaster.specs.Netlist.{Extends, HasWire, HasWord};
ghost use Rattle.bit_blaster.specs.Shifter.{shifted};
ghost use Rattle.bit_blaster.specs.Word.{Computes};
ghost use Rattle.bit_blaster.specs.declared.shifter.Direction.TheVariants.{Left};
ghost use Rattle.bit_blaster.specs.declared.wire.Wire.TheVariants.{Known};

use crate::circuit::Circuit;
use crate::circuits::add_subtract::sum;
use crate::shifter::{Direction, moved};
use crate::wire::Wire;
use crate::words::{BitGate, all_known};
use std::alloc::AllocError;

/// A place that is known to be 0 costs nothing, so a row stops at the width, and a 0 of the second word has none.
#[tactic(auto, using(crate::proofs::MultiplierLemmas::rows_none, crate::proofs::MultiplierLemmas::rows_have, crate::proofs::WordLemmas::has_at, crate::proofs::NetlistLemmas::extends_itself, crate::proofs::NetlistLemmas::has_word_along, crate::proofs::NetlistLemmas::extends_along))]
pub(crate) fn multiply(
    circuit: &mut Circuit,
    a: &[Wire],
    b: &[Wire],
) -> Result<Vec<Wire>, AllocError>
    requires first { HasWord circuit.old a.now }
    requires second { HasWord circuit.old b.now }
    requires long { length a.now ≡ length b.now }
    ensures extends { Extends circuit.old circuit.new }
    ensures computes { IfOk result (λ r. Computes Mul circuit.old circuit.new a.now b.now r.items) }
{
    let mut total = all_known(circuit.alloc(), false, a.len())?;
    let mut place = Vec::new(circuit.alloc());
    place.extend_from_slice(a)?;
    for (i, bit) in b.iter().enumerate() {
        let row = gated(circuit, *bit, &place)?;
        total = sum(circuit, &total, &row, Wire::Known(false))?;
        place = doubled(circuit, &place)?;
    }
    Ok(total)
}

/// The word one place up, without its top bit.
fn doubled(circuit: &Circuit, word: &[Wire]) -> Result<Vec<Wire>, AllocError>
    ensures { IfOk result (λ r. r.items
        ≡ shifted Left (Known false) (min 1 (length word.now)) word.now) }
{
    moved(
        circuit.alloc(),
        Direction::Left,
        Wire::Known(false),
        word,
        word.len().min(1),
    )
}

/// The word where the bit is set, and else 0.
#[tactic(auto, using(crate::proofs::MultiplierLemmas::has_copies))]
fn gated(circuit: &mut Circuit, bit: Wire, word: &[Wire]) -> Result<Vec<Wire>, AllocError>
    requires bit { HasWire circuit.old bit }
    requires word { HasWord circuit.old word.now }
    ensures extends { Extends circuit.old circuit.new }
    ensures gives { IfOk result (λ r. GivesGated circuit.old circuit.new bit word.now r.items) }
{
    let mut bits = Vec::new(circuit.alloc());
    bits.resize(word.len(), bit)?;
    circuit.bit_by_bit(BitGate::And, &bits, word)
}
