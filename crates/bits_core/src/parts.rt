//! Slices, changes of width, and joins.
ghost use Rattle.std.specs.Prelude.{◌≡◌, ◌+◌, ◌-◌, ◌<◌, ◌≤◌};
ghost use Rattle.bits_core.specs.declared.number.TheConstants.{MAX_WIDTH};
ghost use Rattle.bits_core.specs.declared.operator.Op.TheVariants.{Cat};
ghost use Rattle.bits_core.specs.Number.{slice_value, extend_value};
ghost use Rattle.bits_core.specs.Operator.{operator_value};

use crate::number::{Bits, cut, greatest};
use crate::sign::is_negative;

/// The bits of `a` from place `high` down to place `low`, both among them: `a[high:low]`.
pub fn slice(a: Bits, high: u8, low: u8) -> Bits
    requires ordered { low ≤ high }
    requires within { high < a.width }
    ensures width { result.width ≡ high - low + 1 }
    ensures value { result.value ≡ slice_value a.value high low }
{
    let width = high - low + 1;
    Bits {
        width,
        value: cut(a.value >> low, width),
    }
}

/// `a` cut to its lowest `width` bits, or widened: by zeros, or where `signed` by copies of its sign bit.
pub fn extend(a: Bits, width: u8, signed: bool) -> Bits
    requires some_bit { 1 ≤ width }
    requires at_most_widest { width ≤ MAX_WIDTH }
    ensures width { result.width ≡ width }
    ensures value { result.value ≡ extend_value signed a.width a.value width }
{
    let value = if signed && is_negative(a) {
        greatest(width) - cut(greatest(a.width) - a.value, width)
    } else {
        cut(a.value, width)
    };
    Bits { width, value }
}

pub(crate) fn concatenate(a: Bits, b: Bits) -> Bits
    requires { a.width + b.width ≤ MAX_WIDTH }
    ensures width { result.width ≡ a.width + b.width }
    ensures value { result.value ≡ operator_value Cat a.width a.value b.width b.value }
{
    Bits {
        width: a.width + b.width,
        value: (a.value << b.width) | b.value,
    }
}
