//! A number of a fixed width, how one is made, and the cut that every row ends with.
ghost use Rattle.std.specs.Prelude.{◌≡◌, ◌-◌, ◌%◌, ◌^◌, ◌<◌, ◌≤◌, ◌↔◌, IsSome, IfSome};
ghost use Rattle.bits_core.specs.declared.number.TheConstants.{MAX_WIDTH};

/// The width of the widest number, in bits.
pub const MAX_WIDTH: u8 = 128;

/// A number of 1 to 128 bits, `bit<width>` or `int<width>` of P4-16: which of the two is for the operator to say. For a
/// signed number `value` has its two's complement.
#[derive(Clone, Copy, Debug, PartialEq, Eq, PartialOrd, Ord, Hash)]
pub struct Bits {
    pub width: u8,
    pub value: u128,
    pub ghost some_bit: { 1 ≤ width },
    pub ghost at_most_widest: { width ≤ MAX_WIDTH },
    pub ghost fits: { value < 2 ^ width },
}

impl Bits {
    /// The number with this width and value, where there is one: for what comes from outside.
    pub fn new(width: u8, value: u128) -> Option<Bits>
        ensures some { IsSome result ↔ ((1 ≤ width) × (width ≤ MAX_WIDTH) × (value < 2 ^ width)) }
        ensures width { IfSome result (λ b. b.width ≡ width) }
        ensures value { IfSome result (λ b. b.value ≡ value) }
    {
        if 1 <= width && width <= MAX_WIDTH && value <= greatest(width) {
            Some(Bits { width, value })
        } else {
            None
        }
    }

    /// The number of the lowest `width` bits of `value`, which is `value` itself where that fits.
    pub fn wrapping(width: u8, value: u128) -> Bits
        requires some_bit { 1 ≤ width }
        requires at_most_widest { width ≤ MAX_WIDTH }
        ensures width { result.width ≡ width }
        ensures value { result.value ≡ value % 2 ^ width }
        ensures same { value < 2 ^ width → result.value ≡ value }
    {
        Bits {
            width,
            value: cut(value, width),
        }
    }
}

/// The greatest number of `width` bits. The shift stays below 128, where `1 << 128` would not.
pub(crate) fn greatest(width: u8) -> u128
    requires some_bit { 1 ≤ width }
    requires at_most_widest { width ≤ MAX_WIDTH }
    ensures { result ≡ 2 ^ width - 1 }
{
    u128::MAX >> (128 - width)
}

/// The lowest `width` bits of `value`.
pub(crate) fn cut(value: u128, width: u8) -> u128
    requires some_bit { 1 ≤ width }
    requires at_most_widest { width ≤ MAX_WIDTH }
    ensures { result ≡ value % 2 ^ width }
{
    value & greatest(width)
}
