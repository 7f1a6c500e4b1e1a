//! The rows that stop at the ends of the type.
ghost use Rattle.std.specs.Prelude.{◌≡◌, ◌+◌, ◌≤◌, min};
ghost use Rattle.bits_core.specs.declared.operator.Op.TheVariants.{AddSatU, SubSatU, AddSatS, SubSatS};
ghost use Rattle.bits_core.specs.Operator.{operator_value};

use crate::number::{Bits, greatest};
use crate::sign::{biased, from_biased, half};

pub(crate) fn add_saturating_unsigned(a: Bits, b: Bits) -> Bits
    requires { a.width ≡ b.width }
    ensures width { result.width ≡ a.width }
    ensures value { result.value ≡ operator_value AddSatU a.width a.value b.width b.value }
{
    Bits {
        width: a.width,
        value: sum_up_to(greatest(a.width), a.value, b.value),
    }
}

pub(crate) fn subtract_saturating_unsigned(a: Bits, b: Bits) -> Bits
    requires { a.width ≡ b.width }
    ensures width { result.width ≡ a.width }
    ensures value { result.value ≡ operator_value SubSatU a.width a.value b.width b.value }
{
    Bits {
        width: a.width,
        value: a.value.saturating_sub(b.value),
    }
}

pub(crate) fn add_saturating_signed(a: Bits, b: Bits) -> Bits
    requires { a.width ≡ b.width }
    ensures width { result.width ≡ a.width }
    ensures value { result.value ≡ operator_value AddSatS a.width a.value b.width b.value }
{
    let half = half(a.width);
    let left = biased(a);
    let right = biased(b);
    let sum = if right < half {
        left.saturating_sub(half - right)
    } else {
        sum_up_to(greatest(a.width), left, right - half)
    };
    from_biased(sum, a.width)
}

pub(crate) fn subtract_saturating_signed(a: Bits, b: Bits) -> Bits
    requires { a.width ≡ b.width }
    ensures width { result.width ≡ a.width }
    ensures value { result.value ≡ operator_value SubSatS a.width a.value b.width b.value }
{
    let half = half(a.width);
    let left = biased(a);
    let right = biased(b);
    let difference = if right < half {
        sum_up_to(greatest(a.width), left, half - right)
    } else {
        left.saturating_sub(right - half)
    };
    from_biased(difference, a.width)
}

/// The sum, or `end` where it is greater: of `y` is taken what there is room for, since the sum may be past 2^128.
fn sum_up_to(end: u128, x: u128, y: u128) -> u128
    requires { x ≤ end }
    ensures { result ≡ min (x + y) end }
{
    x + y.min(end - x)
}
