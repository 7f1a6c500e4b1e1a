//! Which comparisons may come out otherwise in some run.
ghost use Rattle.std.specs.Prelude.{◌≡◌, IsTrue, ◌↔◌, not};
ghost use Rattle.bits_core.specs.Operator.{shape_of, test_value};
ghost use Rattle.bits_core.specs.declared.operator.Op.TheVariants.{Eq, LtU};
ghost use Rattle.bits_core.specs.declared.operator.OpShape.TheVariants.{Test};
ghost use Rattle.taint_domain.specs.Results.{TestOf};

use crate::places::either;
use crate::tainted::Tainted;
use bits_core::{Op, apply};

/// Whether the test is not the same in each run. A number is at most another where the other is not less.
pub(crate) fn test_may_differ(op: Op, a: &Tainted, b: &Tainted) -> bool
    requires shape { shape_of op ≡ Test }
    requires fits { a.now.number.width ≡ b.now.number.width }
    ensures { IsTrue result ↔ TestOf op a.now b.now
        (not (test_value op a.now.number.width a.now.number.value b.now.number.value)) }
{
    match op {
        Op::Eq => equality_may_differ(a, b),
        Op::LtU => less_may_differ(a, b),
        Op::LeU => less_may_differ(b, a),
        Op::LtS => less_may_differ(&a.sign_turned(), &b.sign_turned()),
        _ => less_may_differ(&b.sign_turned(), &a.sign_turned()),
    }
}

/// Two values may be equal where each bit in which the numbers differ is masked, and may be two where any is.
fn equality_may_differ(a: &Tainted, b: &Tainted) -> bool
    requires { a.now.number.width ≡ b.now.number.width }
    ensures { IsTrue result ↔ TestOf Eq a.now b.now
        (not (test_value Eq a.now.number.width a.now.number.value b.now.number.value)) }
{
    let open = either(a.mask, b.mask);
    let apart = apply(Op::Xor, a.number, b.number);
    either(apart, open).value == open.value && open.value != 0
}

/// The first may be less at its least beside the other's greatest, and no less at its greatest beside the other's least.
fn less_may_differ(a: &Tainted, b: &Tainted) -> bool
    requires { a.now.number.width ≡ b.now.number.width }
    ensures { IsTrue result ↔ TestOf LtU a.now b.now
        (not (test_value LtU a.now.number.width a.now.number.value b.now.number.value)) }
{
    a.least().value < b.greatest().value && b.least().value <= a.greatest().value
}
