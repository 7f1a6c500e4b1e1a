//! Which bits may differ of what works bit by bit, moves bits, or chooses.
ghost use Rattle.std.specs.Prelude.{◌≡◌, bit_and, bit_or, bit_xor, if◌then◌else◌};
ghost use Rattle.bits_core.specs.declared.operator.Op.TheVariants.{And, Or, Xor};
ghost use Rattle.taint_domain.specs.Results.{ResultOf, ChoiceOf, MasksAll, MasksOnly};

use crate::flag::TaintFlag;
use crate::tainted::Tainted;
use bits_core::{Bits, Op, apply};

/// A bit that an operand's 0 settles does not differ.
pub(crate) fn of_and(a: &Tainted, b: &Tainted) -> Bits
    requires { a.now.number.width ≡ b.now.number.width }
    ensures width { result.width ≡ a.now.number.width }
    ensures all { MasksAll (ResultOf And a.now b.now)
        (bit_and a.now.number.value b.now.number.value) result.value }
    ensures only { MasksOnly (ResultOf And a.now b.now)
        (bit_and a.now.number.value b.now.number.value) result.value }
{
    let open = apply(Op::And, a.greatest(), b.greatest());
    apply(Op::And, either(a.mask, b.mask), open)
}

/// The complement of a disjunction is the conjunction of the complements.
pub(crate) fn of_or(a: &Tainted, b: &Tainted) -> Bits
    requires { a.now.number.width ≡ b.now.number.width }
    ensures width { result.width ≡ a.now.number.width }
    ensures all { MasksAll (ResultOf Or a.now b.now)
        (bit_or a.now.number.value b.now.number.value) result.value }
    ensures only { MasksOnly (ResultOf Or a.now b.now)
        (bit_or a.now.number.value b.now.number.value) result.value }
{
    of_and(&a.complement(), &b.complement())
}

/// The bits that are in one of the masks.
pub(crate) fn either(a: Bits, b: Bits) -> Bits
    requires { a.width ≡ b.width }
    ensures width { result.width ≡ a.width }
    ensures value { result.value ≡ bit_or a.value b.value }
{
    apply(Op::Or, a, b)
}

/// Where either side may be chosen, the bits in which they differ, too.
pub(crate) fn of_choice(f: &TaintFlag, a: &Tainted, b: &Tainted) -> Bits
    requires { a.now.number.width ≡ b.now.number.width }
    ensures width { result.width ≡ a.now.number.width }
    ensures all { MasksAll (ChoiceOf f.now a.now b.now)
        (if f.now.truth then a.now.number.value else b.now.number.value) result.value }
    ensures only { MasksOnly (ChoiceOf f.now a.now b.now)
        (if f.now.truth then a.now.number.value else b.now.number.value) result.value }
{
    if f.may_differ {
        let apart = apply(Op::Xor, a.number, b.number);
        either(either(a.mask, b.mask), apart)
    } else if f.truth {
        a.mask
    } else {
        b.mask
    }
}
