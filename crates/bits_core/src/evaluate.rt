//! The one call for all operators: each row of the table goes to the function that it names.
ghost use Rattle.std.specs.Prelude.{◌≡◌};
ghost use Rattle.bits_core.specs.Operator.{WidthsFit, shape_of, result_width, operator_value};

use crate::arithmetic::{add, multiply, negate, subtract};
use crate::bitwise::{and, not, or, xor};
use crate::comparison::{
    equal, less_equal_signed, less_equal_unsigned, less_signed, less_unsigned,
};
use crate::number::Bits;
use crate::operator::Op;
use crate::operator_rows;
use crate::parts::concatenate;
use crate::saturation::{
    add_saturating_signed, add_saturating_unsigned, subtract_saturating_signed,
    subtract_saturating_unsigned,
};
use crate::shifts::{shift_left, shift_right_signed, shift_right_unsigned};

macro_rules! call_row {
    (One $function:ident $a:ident $b:ident) => {
        $function($a)
    };
    ($shape:ident $function:ident $a:ident $b:ident) => {
        $function($a, $b)
    };
}

macro_rules! apply_rows {
    (($of:ident $a:ident $b:ident) $($op:ident $shape:ident $function:ident,)*) => {
        match $of { $(Op::$op => call_row!($shape $function $a $b)),* }
    };
}

/// The operator's result. An operator of one operand ignores `b`.
pub fn apply(op: Op, a: Bits, b: Bits) -> Bits
    requires { WidthsFit (shape_of op) a.width b.width }
    ensures width { result.width ≡ result_width (shape_of op) a.width b.width }
    ensures value { result.value ≡ operator_value op a.width a.value b.width b.value }
{
    operator_rows!(apply_rows(op a b))
}
