//! Shifts by a barrel shifter: a row of choices for each bit of the amount that can leave something, and one for all above.
ghost use Rattle.std.specs.Prelude.{◌≡◌, IfOk};
ghost use Rattle.bits_core.specs.declared.operator.Op.TheVariants.{Shl, ShrU, ShrS};
ghost use Rattle.bit_blaster.specs.Netlist.{Extends, HasWire, HasWord};
ghost use Rattle.bit_blaster.specs.Shifter.{GivesShifted};
ghost use Rattle.bit_blaster.specs.Word.{Computes};

use crate::circuit::Circuit;
use crate::shifter::{Direction, sign_of, stages_of};
use crate::wire::Wire;
use std::alloc::AllocError;

pub(crate) fn shift_left(
    circuit: &mut Circuit,
    a: &[Wire],
    b: &[Wire],
) -> Result<Vec<Wire>, AllocError>
    requires first { HasWord circuit.old a.now }
    requires second { HasWord circuit.old b.now }
    ensures extends { Extends circuit.old circuit.new }
    ensures computes { IfOk result (λ r. Computes Shl circuit.old circuit.new a.now b.now r.items) }
{
    shift(circuit, Direction::Left, Wire::Known(false), a, b)
}

pub(crate) fn shift_right_unsigned(
    circuit: &mut Circuit,
    a: &[Wire],
    b: &[Wire],
) -> Result<Vec<Wire>, AllocError>
    requires first { HasWord circuit.old a.now }
    requires second { HasWord circuit.old b.now }
    ensures extends { Extends circuit.old circuit.new }
    ensures computes { IfOk result (λ r. Computes ShrU circuit.old circuit.new
        a.now b.now r.items) }
{
    shift(circuit, Direction::Right, Wire::Known(false), a, b)
}

#[tactic(auto, using(crate::proofs::ShifterLemmas::has_sign))]
pub(crate) fn shift_right_signed(
    circuit: &mut Circuit,
    a: &[Wire],
    b: &[Wire],
) -> Result<Vec<Wire>, AllocError>
    requires first { HasWord circuit.old a.now }
    requires second { HasWord circuit.old b.now }
    ensures extends { Extends circuit.old circuit.new }
    ensures computes { IfOk result (λ r. Computes ShrS circuit.old circuit.new
        a.now b.now r.items) }
{
    shift(circuit, Direction::Right, sign_of(a), a, b)
}

/// The first word shifted by what the second carries, with copies of `fill` where nothing comes from.
fn shift(
    circuit: &mut Circuit,
    direction: Direction,
    fill: Wire,
    a: &[Wire],
    b: &[Wire],
) -> Result<Vec<Wire>, AllocError>
    requires fill { HasWire circuit.old fill }
    requires first { HasWord circuit.old a.now }
    requires second { HasWord circuit.old b.now }
    ensures extends { Extends circuit.old circuit.new }
    ensures gives { IfOk result (λ r. GivesShifted direction (λ bits. bits) circuit.old circuit.new
        fill a.now b.now r.items) }
{
    let amount = circuit.reduced(b, stages_of(a.len()))?;
    circuit.staged(direction, fill, a, &amount)
}
