//! The rows that shift. The amount may be any number up to 2^128 - 1, the type's own shifts want one below 128.
ghost use Rattle.std.specs.Prelude.{◌≡◌, ◌/◌, ◌^◌, ◌<◌, ◌≤◌, min};
ghost use Rattle.bits_core.specs.declared.number.TheConstants.{MAX_WIDTH};
ghost use Rattle.bits_core.specs.declared.operator.Op.TheVariants.{Shl, ShrU, ShrS};
ghost use Rattle.bits_core.specs.Operator.{operator_value};

use crate::number::{Bits, cut, greatest};
use crate::sign::is_negative;

pub(crate) fn shift_left(a: Bits, b: Bits) -> Bits
    ensures width { result.width ≡ a.width }
    ensures value { result.value ≡ operator_value Shl a.width a.value b.width b.value }
{
    let value = if b.value < a.width as u128 {
        cut(a.value << b.value as u32, a.width)
    } else {
        0
    };
    Bits {
        width: a.width,
        value,
    }
}

pub(crate) fn shift_right_unsigned(a: Bits, b: Bits) -> Bits
    ensures width { result.width ≡ a.width }
    ensures value { result.value ≡ operator_value ShrU a.width a.value b.width b.value }
{
    Bits {
        width: a.width,
        value: quotient(a.value, a.width, b.value),
    }
}

/// A negative value is -(m + 1) for the number m of its bits turned round, and so is its quotient for the quotient of m.
pub(crate) fn shift_right_signed(a: Bits, b: Bits) -> Bits
    ensures width { result.width ≡ a.width }
    ensures value { result.value ≡ operator_value ShrS a.width a.value b.width b.value }
{
    let value = if is_negative(a) {
        let ones = greatest(a.width);
        ones - quotient(ones - a.value, a.width, b.value)
    } else {
        quotient(a.value, a.width, b.value)
    };
    Bits {
        width: a.width,
        value,
    }
}

/// `value`, a number of `width` bits, over a power of two.
fn quotient(value: u128, width: u8, amount: u128) -> u128
    requires at_most_widest { width ≤ MAX_WIDTH }
    requires fits { value < 2 ^ width }
    ensures { result ≡ value / 2 ^ min amount width }
{
    if amount < width as u128 {
        value >> amount as u32
    } else {
        0
    }
}
