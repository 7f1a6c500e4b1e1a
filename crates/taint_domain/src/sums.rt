//! Which bits of sums and differences may differ: those of the operands, and those into which a carry may differ. A carry is
//! least for the operands that make the result least, and greatest for those that make it greatest.
ghost use Rattle.std.specs.Prelude.{◌≡◌, bit_or, bit_xor};
ghost use Rattle.bits_core.specs.Operator.{operator_value};
ghost use Rattle.bits_core.specs.declared.operator.Op.TheVariants.{Add, Sub};
ghost use Rattle.taint_domain.specs.Results.{ResultOf, MasksAll, MasksOnly};

use crate::places::either;
use crate::tainted::Tainted;
use bits_core::{Bits, Op, apply};

pub(crate) fn of_add(a: &Tainted, b: &Tainted) -> Bits
    requires { a.now.number.width ≡ b.now.number.width }
    ensures width { result.width ≡ a.now.number.width }
    ensures all { MasksAll (ResultOf Add a.now b.now) (operator_value Add
        a.now.number.width a.now.number.value b.now.number.width b.now.number.value) result.value }
    ensures only { MasksOnly (ResultOf Add a.now b.now) (operator_value Add
        a.now.number.width a.now.number.value b.now.number.width b.now.number.value) result.value }
{
    let low = apply(Op::Add, a.least(), b.least());
    let high = apply(Op::Add, a.greatest(), b.greatest());
    changed(low, high, a, b)
}

pub(crate) fn of_subtract(a: &Tainted, b: &Tainted) -> Bits
    requires { a.now.number.width ≡ b.now.number.width }
    ensures width { result.width ≡ a.now.number.width }
    ensures all { MasksAll (ResultOf Sub a.now b.now) (operator_value Sub
        a.now.number.width a.now.number.value b.now.number.width b.now.number.value) result.value }
    ensures only { MasksOnly (ResultOf Sub a.now b.now) (operator_value Sub
        a.now.number.width a.now.number.value b.now.number.width b.now.number.value) result.value }
{
    let low = apply(Op::Sub, a.least(), b.greatest());
    let high = apply(Op::Sub, a.greatest(), b.least());
    changed(low, high, a, b)
}

fn changed(low: Bits, high: Bits, a: &Tainted, b: &Tainted) -> Bits
    requires operands { a.now.number.width ≡ b.now.number.width }
    requires low { low.width ≡ a.now.number.width }
    requires high { high.width ≡ a.now.number.width }
    ensures width { result.width ≡ a.now.number.width }
    ensures value { result.value
        ≡ bit_or (bit_xor low.value high.value) (bit_or a.now.mask.value b.now.mask.value) }
{
    either(apply(Op::Xor, low, high), either(a.mask, b.mask))
}
