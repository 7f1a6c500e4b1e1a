//! Two's complement by way of a bias: `biased` adds half the range to the signed value, so that signed values have the
//! order and the clamps of plain numbers, at 128 bits too.
ghost use Rattle.std.specs.Prelude.{◌≡◌, ◌-◌, ◌^◌, ◌<◌, ◌≤◌, pos, ◌+ℤ◌, ◌-ℤ◌, IsTrue, ◌↔◌};
ghost use Rattle.bits_core.specs.declared.number.TheConstants.{MAX_WIDTH};
ghost use Rattle.bits_core.specs.Number.{signed_value, wrapped};

use crate::number::Bits;

/// The weight of the sign bit, which is half of the range.
pub(crate) fn half(width: u8) -> u128
    requires some_bit { 1 ≤ width }
    requires at_most_widest { width ≤ MAX_WIDTH }
    ensures { result ≡ 2 ^ (width - 1) }
{
    1 << (width - 1)
}

pub(crate) fn is_negative(a: Bits) -> bool
    ensures { IsTrue result ↔ (2 ^ (a.width - 1) ≤ a.value) }
{
    a.value >= half(a.width)
}

/// The signed value plus half of the range.
pub(crate) fn biased(a: Bits) -> u128
    ensures value { pos result ≡ signed_value a.width a.value +ℤ pos (2 ^ (a.width - 1)) }
    ensures fits { result < 2 ^ a.width }
{
    let half = half(a.width);
    if a.value < half {
        a.value + half
    } else {
        a.value - half
    }
}

/// The bits of the signed value that `biased` stands for.
pub(crate) fn from_biased(biased: u128, width: u8) -> Bits
    requires some_bit { 1 ≤ width }
    requires at_most_widest { width ≤ MAX_WIDTH }
    requires fits { biased < 2 ^ width }
    ensures width { result.width ≡ width }
    ensures value { result.value ≡ wrapped width (pos biased -ℤ pos (2 ^ (width - 1))) }
{
    let half = half(width);
    let value = if biased < half {
        biased + half
    } else {
        biased - half
    };
    Bits { width, value }
}
