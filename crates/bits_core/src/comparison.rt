//! The rows that compare.
ghost use Rattle.std.specs.Prelude.{◌≡◌, if◌then◌else◌};
ghost use Rattle.bits_core.specs.declared.operator.Op.TheVariants.{Eq, LtU, LeU, LtS, LeS};
ghost use Rattle.bits_core.specs.Operator.{operator_value};

use crate::number::Bits;
use crate::sign::biased;

pub(crate) fn equal(a: Bits, b: Bits) -> Bits
    requires { a.width ≡ b.width }
    ensures width { result.width ≡ 1 }
    ensures value { result.value ≡ operator_value Eq a.width a.value b.width b.value }
{
    truth(a.value == b.value)
}

pub(crate) fn less_unsigned(a: Bits, b: Bits) -> Bits
    requires { a.width ≡ b.width }
    ensures width { result.width ≡ 1 }
    ensures value { result.value ≡ operator_value LtU a.width a.value b.width b.value }
{
    truth(a.value < b.value)
}

pub(crate) fn less_equal_unsigned(a: Bits, b: Bits) -> Bits
    requires { a.width ≡ b.width }
    ensures width { result.width ≡ 1 }
    ensures value { result.value ≡ operator_value LeU a.width a.value b.width b.value }
{
    truth(a.value <= b.value)
}

pub(crate) fn less_signed(a: Bits, b: Bits) -> Bits
    requires { a.width ≡ b.width }
    ensures width { result.width ≡ 1 }
    ensures value { result.value ≡ operator_value LtS a.width a.value b.width b.value }
{
    truth(biased(a) < biased(b))
}

pub(crate) fn less_equal_signed(a: Bits, b: Bits) -> Bits
    requires { a.width ≡ b.width }
    ensures width { result.width ≡ 1 }
    ensures value { result.value ≡ operator_value LeS a.width a.value b.width b.value }
{
    truth(biased(a) <= biased(b))
}

/// 1 or 0, at width 1.
fn truth(holds: bool) -> Bits
    ensures width { result.width ≡ 1 }
    ensures value { result.value ≡ (if holds then 1 else 0) }
{
    Bits {
        width: 1,
        value: holds as u128,
    }
}
