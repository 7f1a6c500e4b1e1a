//! What the domain's values are, and the ends of what they may be.
ghost use Rattle.std.specs.Prelude.{◌≡◌, ◌-◌, ◌^◌, ◌≤◌, IsTrue, ◌↔◌, bit_and, bit_or, bit_xor};
ghost use Rattle.bits_core.specs.declared.number.TheConstants.{MAX_WIDTH};

use bits_core::{Bits, Op, apply};

/// A number, and the mask of its bits that a run may change. The number is what the value is in the run whose unspecified
/// reads all give 0. In each run it has the number's bits outside the mask.
#[derive(Clone, Copy, Debug, PartialEq, Eq)]
pub struct Tainted {
    pub number: Bits,
    pub mask: Bits,
    pub ghost one_width: { mask.width ≡ number.width },
}

impl Tainted {
    ghost use Rattle.taint_domain.specs.Tainted.{IsClear};

    /// Whether each run has this number.
    pub fn is_clear(&self) -> bool
        ensures { IsTrue result ↔ IsClear self.now }
    {
        self.mask.value == 0
    }

    /// The number that is the same in each run.
    pub(crate) fn clear(number: Bits) -> Tainted
        ensures number { result.number ≡ number }
        ensures clear { IsClear result }
    {
        Tainted {
            number,
            mask: no_bit(number.width),
        }
    }

    /// The least of what it may be: no bit of the mask is set.
    pub(crate) fn least(&self) -> Bits
        ensures width { result.width ≡ self.now.number.width }
        ensures value { result.value
            ≡ bit_and self.now.number.value (2 ^ self.now.number.width - 1 - self.now.mask.value) }
    {
        apply(Op::And, self.number, complement(self.mask))
    }

    /// The greatest of what it may be: each bit of the mask is set.
    pub(crate) fn greatest(&self) -> Bits
        ensures width { result.width ≡ self.now.number.width }
        ensures value { result.value ≡ bit_or self.now.number.value self.now.mask.value }
    {
        apply(Op::Or, self.number, self.mask)
    }

    /// Each bit turned round.
    pub(crate) fn complement(&self) -> Tainted
        ensures width { result.number.width ≡ self.now.number.width }
        ensures value { result.number.value
            ≡ 2 ^ self.now.number.width - 1 - self.now.number.value }
        ensures mask { result.mask ≡ self.now.mask }
    {
        Tainted {
            number: complement(self.number),
            mask: self.mask,
        }
    }

    /// The sign bit turned round, so that the signed values have the order of the unsigned ones.
    pub(crate) fn sign_turned(&self) -> Tainted
        ensures width { result.number.width ≡ self.now.number.width }
        ensures value { result.number.value
            ≡ bit_xor self.now.number.value (2 ^ (self.now.number.width - 1)) }
        ensures mask { result.mask ≡ self.now.mask }
    {
        let width = self.number.width;
        let sign = Bits {
            width,
            value: 1 << (width - 1),
        };
        Tainted {
            number: apply(Op::Xor, self.number, sign),
            mask: self.mask,
        }
    }
}

fn complement(bits: Bits) -> Bits
    ensures width { result.width ≡ bits.width }
    ensures value { result.value ≡ 2 ^ bits.width - 1 - bits.value }
{
    apply(Op::Not, bits, bits)
}

pub(crate) fn no_bit(width: u8) -> Bits
    requires some_bit { 1 ≤ width }
    requires at_most_widest { width ≤ MAX_WIDTH }
    ensures width { result.width ≡ width }
    ensures value { result.value ≡ 0 }
{
    Bits { width, value: 0 }
}

pub(crate) fn every_bit(width: u8) -> Bits
    requires some_bit { 1 ≤ width }
    requires at_most_widest { width ≤ MAX_WIDTH }
    ensures width { result.width ≡ width }
    ensures value { result.value ≡ 2 ^ width - 1 }
{
    complement(no_bit(width))
}
