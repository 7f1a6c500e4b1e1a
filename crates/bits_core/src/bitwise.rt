//! The rows that work bit by bit.
ghost use Rattle.std.specs.Prelude.{◌≡◌};
ghost use Rattle.bits_core.specs.declared.operator.Op.TheVariants.{And, Or, Xor, Not};
ghost use Rattle.bits_core.specs.Operator.{operator_value};

use crate::number::{Bits, greatest};

pub(crate) fn and(a: Bits, b: Bits) -> Bits
    requires { a.width ≡ b.width }
    ensures width { result.width ≡ a.width }
    ensures value { result.value ≡ operator_value And a.width a.value b.width b.value }
{
    Bits {
        width: a.width,
        value: a.value & b.value,
    }
}

pub(crate) fn or(a: Bits, b: Bits) -> Bits
    requires { a.width ≡ b.width }
    ensures width { result.width ≡ a.width }
    ensures value { result.value ≡ operator_value Or a.width a.value b.width b.value }
{
    Bits {
        width: a.width,
        value: a.value | b.value,
    }
}

pub(crate) fn xor(a: Bits, b: Bits) -> Bits
    requires { a.width ≡ b.width }
    ensures width { result.width ≡ a.width }
    ensures value { result.value ≡ operator_value Xor a.width a.value b.width b.value }
{
    Bits {
        width: a.width,
        value: a.value ^ b.value,
    }
}

pub(crate) fn not(a: Bits) -> Bits
    ensures width { result.width ≡ a.width }
    ensures value { result.value ≡ operator_value Not a.width a.value 0 0 }
{
    Bits {
        width: a.width,
        value: greatest(a.width) - a.value,
    }
}
