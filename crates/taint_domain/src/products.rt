//! Which bits of products may differ, so far as zeros at the end tell. Where the lowest masked place of one operand is i, and
//! each run has j zeros at the end of the other, no run changes the product below place i + j by the first operand.
ghost use Rattle.std.specs.Prelude.{◌≡◌, ◌≢◌, ℕ, ◌+◌, ◌<◌, ◌≤◌};
ghost use Rattle.bits_core.specs.declared.number.TheConstants.{MAX_WIDTH};
ghost use Rattle.std.specs.Int.{bit_at};
ghost use Rattle.bits_core.specs.Operator.{operator_value};
ghost use Rattle.bits_core.specs.declared.operator.Op.TheVariants.{Mul};
ghost use Rattle.taint_domain.specs.Results.{ResultOf, MasksAll};
ghost use Rattle.taint_domain.specs.Tainted.{IsSettledBelow, IsZeroBelow};

use crate::tainted::{Tainted, every_bit};
use bits_core::{Bits, Op, apply};

/// No number has a bit from this place on.
const PLACES: u32 = 128;

/// Enough bits for a sum of two places.
const PLACE_WIDTH: u8 = 16;

pub(crate) fn of_multiply(a: &Tainted, b: &Tainted) -> Bits
    requires { a.now.number.width ≡ b.now.number.width }
    ensures width { result.width ≡ a.now.number.width }
    ensures all { MasksAll (ResultOf Mul a.now b.now) (operator_value Mul
        a.now.number.width a.now.number.value b.now.number.width b.now.number.value) result.value }
    ensures settled { (i j k l place : ℕ) → IsSettledBelow a.now i → IsZeroBelow b.now j
        → IsSettledBelow b.now k → IsZeroBelow a.now l → place < i + j → place < k + l
        → bit_at result.value place ≡ 0 }
{
    let by_first = lowest_place(a.mask) + lowest_place(b.greatest());
    let by_second = lowest_place(b.mask) + lowest_place(a.greatest());
    let width = a.number.width;
    from_place(width, by_first.min(by_second))
}

/// The place of the lowest bit, or that past all.
fn lowest_place(bits: Bits) -> u32
    ensures below { (place : ℕ) → place < result → bit_at bits.value place ≡ 0 }
    ensures lowest { bits.value ≢ 0 → bit_at bits.value result ≡ 1 }
    ensures none { bits.value ≡ 0 → result ≡ 128 }
    ensures at_most { result ≤ MAX_WIDTH }
{
    if bits.value == 0 {
        PLACES
    } else {
        bits.value.trailing_zeros()
    }
}

/// Each bit from the place on.
fn from_place(width: u8, place: u32) -> Bits
    requires some_bit { 1 ≤ width }
    requires at_most_widest { width ≤ MAX_WIDTH }
    requires place { place ≤ 256 }
    ensures width { result.width ≡ width }
    ensures below { (i : ℕ) → i < place → bit_at result.value i ≡ 0 }
    ensures above { (i : ℕ) → i < width → place ≤ i → bit_at result.value i ≡ 1 }
{
    let amount = Bits {
        width: PLACE_WIDTH,
        value: place as u128,
    };
    apply(Op::Shl, every_bit(width), amount)
}
