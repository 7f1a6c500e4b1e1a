//! Constants of other types than `int`.
ghost use Rattle.std.specs.Prelude.{◌≡◌, true, is_some, IfSome};
ghost use Rattle.p4_rules.specs.Integers.{is_width as is_width_by_rules};
ghost use Rattle.p4_consts.specs.Fits.{value_fits, bits_fit as bits_fit_by_rules};

use bits_core::{Bits, MAX_WIDTH};
use p4_rules::SourceType;

/// The bits of a constant, in two's complement where its type is signed, or the number of a member.
#[derive(Clone, Copy, Debug, PartialEq, Eq)]
pub struct Constant {
    pub type_of: SourceType,
    pub value: u128,
    pub ghost fits: { value_fits type_of value ≡ true },
}

impl Constant {
    /// The constant of this type and value, where the type has the value.
    pub fn new(type_of: SourceType, value: u128) -> Option<Constant>
        ensures some { is_some result ≡ value_fits type_of value }
        ensures type_of { IfSome result (λ c. c.type_of ≡ type_of) }
        ensures value { IfSome result (λ c. c.value ≡ value) }
    {
        if fits(type_of, value) {
            Some(Constant { type_of, value })
        } else {
            None
        }
    }
}

/// Whether a type has a value.
fn fits(t: SourceType, value: u128) -> bool
    ensures { result ≡ value_fits t value }
{
    match t {
        SourceType::Bit(width) => bits_fit(width, value),
        SourceType::Signed(width) => bits_fit(width, value),
        SourceType::BitEnumeration(_, width) => bits_fit(width, value),
        SourceType::Boolean => value < 2,
        _ => true,
    }
}

/// Whether so many bits have a value.
fn bits_fit(width: u8, value: u128) -> bool
    ensures { result ≡ bits_fit_by_rules width value }
{
    Bits::new(width, value).is_some()
}

/// Whether a type of bits may have so many.
pub fn is_width(width: u8) -> bool
    ensures { result ≡ is_width_by_rules width }
{
    1 <= width && width <= MAX_WIDTH
}
