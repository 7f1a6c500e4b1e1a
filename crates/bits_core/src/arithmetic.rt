//! The rows that wrap: sum, difference, product and negation modulo 2^width.
ghost use Rattle.std.specs.Prelude.{◌≡◌};
ghost use Rattle.bits_core.specs.declared.operator.Op.TheVariants.{Add, Sub, Mul, Neg};
ghost use Rattle.bits_core.specs.Operator.{operator_value};

use crate::number::{Bits, cut};

pub(crate) fn add(a: Bits, b: Bits) -> Bits
    requires { a.width ≡ b.width }
    ensures width { result.width ≡ a.width }
    ensures value { result.value ≡ operator_value Add a.width a.value b.width b.value }
{
    Bits {
        width: a.width,
        value: cut(a.value.wrapping_add(b.value), a.width),
    }
}

pub(crate) fn subtract(a: Bits, b: Bits) -> Bits
    requires { a.width ≡ b.width }
    ensures width { result.width ≡ a.width }
    ensures value { result.value ≡ operator_value Sub a.width a.value b.width b.value }
{
    Bits {
        width: a.width,
        value: cut(a.value.wrapping_sub(b.value), a.width),
    }
}

pub(crate) fn multiply(a: Bits, b: Bits) -> Bits
    requires { a.width ≡ b.width }
    ensures width { result.width ≡ a.width }
    ensures value { result.value ≡ operator_value Mul a.width a.value b.width b.value }
{
    Bits {
        width: a.width,
        value: cut(a.value.wrapping_mul(b.value), a.width),
    }
}

pub(crate) fn negate(a: Bits) -> Bits
    ensures width { result.width ≡ a.width }
    ensures value { result.value ≡ operator_value Neg a.width a.value 0 0 }
{
    Bits {
        width: a.width,
        value: cut(0u128.wrapping_sub(a.value), a.width),
    }
}
