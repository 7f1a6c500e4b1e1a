//! Compile-time integers (P4-16, "Infinite-precision integers"), which this profile ends at 128 bits and a sign.
ghost use Rattle.std.specs.Prelude.{◌≡◌, ◌-◌, ◌≤◌, ◌^◌, pos, true};
ghost use Rattle.bits_core.specs.Number.{wrapped as wrapped_bits, signed_value};
ghost use Rattle.p4_rules.specs.Integers.{is_negative as is_below_zero, is_width as is_width_by_rules, fits_bit as fits_bit_by_rules, fits_int as fits_int_by_rules};
ghost use Rattle.p4_consts.specs.Fits.{bits_fit};
ghost use Rattle.p4_consts.specs.Integers.{integer_of};

use crate::constants::is_width;
use bits_core::Bits;

/// An integer from -(2^128 - 1) to 2^128 - 1. Both forms of 0 are the same integer.
#[derive(Clone, Copy, Debug)]
pub struct Integer {
    pub negative: bool,
    pub magnitude: u128,
}

impl Integer {
    /// A natural number.
    pub fn from_u128(magnitude: u128) -> Self
        ensures { integer_of result ≡ pos magnitude }
    {
        Integer {
            negative: false,
            magnitude,
        }
    }

    /// What `width` bits are in two's complement.
    pub fn from_signed(width: u8, value: u128) -> Self
        requires { bits_fit width value ≡ true }
        ensures { integer_of result ≡ signed_value width value }
    {
        let half = half(width);
        if value < half {
            return Integer::from_u128(value);
        }
        Integer {
            negative: true,
            magnitude: half - (value - half),
        }
    }

    /// Whether it is below 0.
    pub fn is_negative(self) -> bool
        ensures { result ≡ is_below_zero (integer_of self) }
    {
        self.negative && self.magnitude != 0
    }

    /// Whether `bit<width>` has it.
    pub fn fits_bit(self, width: u8) -> bool
        ensures { result ≡ fits_bit_by_rules width (integer_of self) }
    {
        !self.is_negative() && Bits::new(width, self.magnitude).is_some()
    }

    /// Whether `int<width>` has it.
    pub fn fits_int(self, width: u8) -> bool
        ensures { result ≡ fits_int_by_rules width (integer_of self) }
    {
        if !is_width(width) {
            return false;
        }
        if self.negative {
            self.magnitude <= half(width)
        } else {
            self.magnitude < half(width)
        }
    }

    /// Its lowest bits, in two's complement.
    pub fn wrapped(self, width: u8) -> u128
        requires some_bit { 1 ≤ width }
        requires at_most_widest { width ≤ 128 }
        ensures { result ≡ wrapped_bits width (integer_of self) }
    {
        if self.negative {
            Bits::wrapping(width, 0u128.wrapping_sub(self.magnitude)).value
        } else {
            Bits::wrapping(width, self.magnitude).value
        }
    }
}

/// The weight of the sign bit, which is half of the range.
fn half(width: u8) -> u128
    requires { is_width_by_rules width ≡ true }
    ensures { result ≡ 2 ^ (width - 1) }
{
    1 << (width - 1)
}
