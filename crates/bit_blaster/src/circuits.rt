//! A circuit for each operator, named as in the operator table. Each takes two words, also where the operator has one operand,
//! and gives a word that carries the operator's result.
ghost use Rattle.std.specs.Prelude.{◌≡◌, IfOk, length};
ghost use Rattle.bits_core.specs.Operator.{WidthsFit, shape_of};
ghost use Rattle.bit_blaster.specs.Netlist.{Extends, HasWord};
ghost use Rattle.bit_blaster.specs.Word.{Computes};

pub(crate) mod add_subtract;
pub(crate) mod bitwise;
pub(crate) mod compare;
pub(crate) mod multiply;
pub(crate) mod parts;
pub(crate) mod saturating;
pub(crate) mod shifts;

use crate::circuit::Circuit;
use crate::circuits::add_subtract::{add, negate, subtract};
use crate::circuits::bitwise::{and, not, or, xor};
use crate::circuits::compare::{
    equal, less_equal_signed, less_equal_unsigned, less_signed, less_unsigned,
};
use crate::circuits::multiply::multiply;
use crate::circuits::parts::concatenate;
use crate::circuits::saturating::{
    add_saturating_signed, add_saturating_unsigned, subtract_saturating_signed,
    subtract_saturating_unsigned,
};
use crate::circuits::shifts::{shift_left, shift_right_signed, shift_right_unsigned};
use crate::wire::Wire;
use bits_core::{Op, operator_rows};
use std::alloc::AllocError;

macro_rules! circuit_rows {
    (($of:ident $circuit:ident $a:ident $b:ident) $($op:ident $shape:ident $function:ident,)*) => {
        match $of { $(Op::$op => $function($circuit, $a, $b)),* }
    };
}

/// The operator's circuit. An operator of one operand does not look at `b`.
pub(crate) fn operate(
    circuit: &mut Circuit,
    op: Op,
    a: &[Wire],
    b: &[Wire],
) -> Result<Vec<Wire>, AllocError>
    requires first { HasWord circuit.old a.now }
    requires second { HasWord circuit.old b.now }
    requires widths { WidthsFit (shape_of op) (length a.now) (length b.now) }
    ensures extends { Extends circuit.old circuit.new }
    ensures computes { IfOk result (λ r. Computes op circuit.old circuit.new a.now b.now r.items) }
{
    operator_rows!(circuit_rows(op circuit a b))
}
