//! The operators that work bit by bit.
ghost use Rattle.std.specs.Prelude.{◌≡◌, IfOk, length};
ghost use Rattle.bits_core.specs.declared.operator.Op.TheVariants.{And, Or, Xor, Not};
ghost use Rattle.bit_blaster.specs.Netlist.{Extends, HasWord};
ghost use Rattle.bit_blaster.specs.Word.{Computes};

use crate::circuit::Circuit;
use crate::wire::Wire;
use crate::words::{BitGate, turned};
use std::alloc::AllocError;

pub(crate) fn and(circuit: &mut Circuit, a: &[Wire], b: &[Wire]) -> Result<Vec<Wire>, AllocError>
    requires first { HasWord circuit.old a.now }
    requires second { HasWord circuit.old b.now }
    requires long { length a.now ≡ length b.now }
    ensures extends { Extends circuit.old circuit.new }
    ensures computes { IfOk result (λ r. Computes And circuit.old circuit.new a.now b.now r.items) }
{
    circuit.bit_by_bit(BitGate::And, a, b)
}

pub(crate) fn or(circuit: &mut Circuit, a: &[Wire], b: &[Wire]) -> Result<Vec<Wire>, AllocError>
    requires first { HasWord circuit.old a.now }
    requires second { HasWord circuit.old b.now }
    requires long { length a.now ≡ length b.now }
    ensures extends { Extends circuit.old circuit.new }
    ensures computes { IfOk result (λ r. Computes Or circuit.old circuit.new a.now b.now r.items) }
{
    circuit.bit_by_bit(BitGate::Or, a, b)
}

pub(crate) fn xor(circuit: &mut Circuit, a: &[Wire], b: &[Wire]) -> Result<Vec<Wire>, AllocError>
    requires first { HasWord circuit.old a.now }
    requires second { HasWord circuit.old b.now }
    requires long { length a.now ≡ length b.now }
    ensures extends { Extends circuit.old circuit.new }
    ensures computes { IfOk result (λ r. Computes Xor circuit.old circuit.new a.now b.now r.items) }
{
    circuit.bit_by_bit(BitGate::Xor, a, b)
}

/// The second word is not looked at.
pub(crate) fn not(circuit: &mut Circuit, a: &[Wire], b: &[Wire]) -> Result<Vec<Wire>, AllocError>
    requires first { HasWord circuit.old a.now }
    requires second { HasWord circuit.old b.now }
    ensures extends { Extends circuit.old circuit.new }
    ensures computes { IfOk result (λ r. Computes Not circuit.old circuit.new a.now b.now r.items) }
{
    let _ = b;
    turned(circuit.alloc(), a)
}
