//! Which bits of an operator's result may differ, row by row of the table.
ghost use Rattle.std.specs.Prelude.{◌≡◌, ◌-◌, ◌^◌};
ghost use Rattle.bits_core.specs.Operator.{WidthsFit, shape_of, result_width};
ghost use Rattle.bits_core.specs.declared.operator.OpShape.TheVariants.{Shift, Test};
ghost use Rattle.taint_domain.specs.Masks.{IsMaskOf};
ghost use Rattle.taint_domain.specs.Tainted.{IsClear};

use crate::comparisons::test_may_differ;
use crate::places::{either, of_and, of_or};
use crate::products::of_multiply;
use crate::sums::{of_add, of_subtract};
use crate::tainted::{Tainted, every_bit, no_bit};
use bits_core::{Bits, Op, apply};

/// The bits of the operator's result that may differ. An operator of one operand ignores `b`.
pub(crate) fn of_operator(op: Op, a: &Tainted, b: &Tainted) -> Bits
    requires { WidthsFit (shape_of op) a.now.number.width b.now.number.width }
    ensures width { result.width
        ≡ result_width (shape_of op) a.now.number.width b.now.number.width }
    ensures mask { IsMaskOf op a.now b.now result.value }
{
    match op {
        Op::Add => of_add(a, b),
        Op::Sub => of_subtract(a, b),
        Op::Mul => of_multiply(a, b),
        Op::AddSatU | Op::SubSatU | Op::AddSatS | Op::SubSatS => of_saturating(a, b),
        Op::And => of_and(a, b),
        Op::Or => of_or(a, b),
        Op::Xor => either(a.mask, b.mask),
        Op::Not => a.mask,
        Op::Neg => of_subtract(&Tainted::clear(no_bit(a.number.width)), a),
        Op::Shl | Op::ShrU | Op::ShrS => of_shift(op, a, b),
        Op::Cat => apply(Op::Cat, a.mask, b.mask),
        Op::Eq | Op::LtU | Op::LeU | Op::LtS | Op::LeS => of_test(op, a, b),
    }
}

/// Saturation is known where both operands are.
fn of_saturating(a: &Tainted, b: &Tainted) -> Bits
    requires { a.now.number.width ≡ b.now.number.width }
    ensures width { result.width ≡ a.now.number.width }
    ensures clear { IsClear a.now → IsClear b.now → result.value ≡ 0 }
    ensures every { ¬ (IsClear a.now × IsClear b.now) → result.value ≡ 2 ^ a.now.number.width - 1 }
{
    if a.is_clear() && b.is_clear() {
        no_bit(a.number.width)
    } else {
        every_bit(a.number.width)
    }
}

/// A shift by a known amount moves the mask as it moves the bits.
fn of_shift(op: Op, a: &Tainted, b: &Tainted) -> Bits
    requires { shape_of op ≡ Shift }
    ensures width { result.width ≡ a.now.number.width }
    ensures mask { IsMaskOf op a.now b.now result.value }
{
    if b.is_clear() {
        apply(op, a.mask, b.number)
    } else {
        every_bit(a.number.width)
    }
}

fn of_test(op: Op, a: &Tainted, b: &Tainted) -> Bits
    requires shape { shape_of op ≡ Test }
    requires fits { a.now.number.width ≡ b.now.number.width }
    ensures width { result.width ≡ 1 }
    ensures mask { IsMaskOf op a.now b.now result.value }
{
    Bits {
        width: 1,
        value: test_may_differ(op, a, b) as u128,
    }
}
