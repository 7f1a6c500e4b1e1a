//! A number with the count of hexadecimal digits that it is written with.
ghost use Rattle.std.specs.Prelude.{◌≡◌, ◌^◌, ◌<◌, ◌≤◌, ◌↔◌, IsTrue, IsSome, IfSome};
ghost use Rattle.proof_stream.specs.declared.hex_value.TheConstants.{MAX_DIGITS};

use sqlite_items::Items;

/// The most hexadecimal digits of a value.
pub const MAX_DIGITS: u8 = 32;

/// A value of 1 to 32 hexadecimal digits. That of a read of W bits has W / 4 digits, rounded up.
#[derive(Clone, Copy, Debug, PartialEq, Eq)]
pub struct HexValue {
    pub digits: u8,
    pub value: u128,
    pub ghost some_digit: { 1 ≤ digits },
    pub ghost at_most: { digits ≤ MAX_DIGITS },
    pub ghost fits: { value < 16 ^ digits },
}

/// The values of numbered reads, in order.
pub type Values = Items<HexValue>;

impl HexValue {
    /// The value with this many digits, where there is one.
    pub fn new(digits: u8, value: u128) -> Option<HexValue>
        ensures some { IsSome result
            ↔ ((1 ≤ digits) × (digits ≤ MAX_DIGITS) × (value < 16 ^ digits)) }
        ensures digits { IfSome result (λ h. h.digits ≡ digits) }
        ensures value { IfSome result (λ h. h.value ≡ value) }
    {
        if 1 <= digits && digits <= MAX_DIGITS && is_below(value, digits) {
            Some(HexValue { digits, value })
        } else {
            None
        }
    }
}

/// Whether the value has no more than so many digits.
fn is_below(value: u128, digits: u8) -> bool
    requires { digits ≤ MAX_DIGITS }
    ensures { IsTrue result ↔ (value < 16 ^ digits) }
{
    digits == MAX_DIGITS || value < 16u128.pow(digits as u32)
}
