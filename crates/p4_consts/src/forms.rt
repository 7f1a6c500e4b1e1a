//! What the parts of a type's form make: widths, sizes of stacks and arguments. A part that is faulty
//! is none, and its faults have been noted.
ghost use Rattle.std.specs.Prelude.{◌≡◌, ℕ, Option, option_map};
ghost use Rattle.p4_rules.specs.declared.faults.Fault.{Fault as AFault};
ghost use Rattle.p4_rules.specs.declared.faults.Pass.TheVariants.{Folding};
ghost use Rattle.p4_rules.specs.declared.types.SourceType.{SourceType as AType};
ghost use Rattle.p4_rules.specs.declared.types.SourceType.TheVariants.{Bit, Signed};
ghost use Rattle.p4_rules.specs.Casts.{typing_fault};
ghost use Rattle.p4_rules.specs.Faults.{Checked, and_then, made_of, with_both};
ghost use Rattle.p4_rules.specs.Things.{Judged as RulesJudged};
ghost use Rattle.p4_rules.specs.Expressions.{sized_number as sized_by_rules, stack_of as stack_by_rules};
ghost use Rattle.p4_consts.specs.Noted.{noted, right_of};
ghost use Rattle.p4_consts.specs.Scopes.{scope_in};
ghost use Rattle.p4_consts.specs.Things.{judged_of};

use crate::faults::Faults;
use crate::scopes::Scope;
use crate::sizes::{sized_number, stack_of};
use crate::things::Judged;
use p4_rules::{Pass, SourceType};
use tg_base::{Code, Span};

/// The number of a width or of a size, which is folded.
#[tactic(auto, using(crate::proofs::NotedLaws::and_then_right, crate::proofs::NotedLaws::and_then_noted, crate::proofs::NotedLaws::and_then_wrong))]
pub(crate) fn sized(
    scope: &Scope,
    faults: &mut Faults,
    most: u8,
    number: Option<Judged>,
) -> Option<u8>
    ensures value { (part : Checked RulesJudged) → option_map judged_of number ≡ right_of part →
        result ≡ right_of (and_then part (sized_by_rules (scope_in Folding scope.now) most)) }
    ensures faults { (start : Option AFault) (part : Checked RulesJudged) →
        option_map judged_of number ≡ right_of part → faults.old.first ≡ noted start part →
        faults.new.first
        ≡ noted start (and_then part (sized_by_rules (scope_in Folding scope.now) most)) }
{
    sized_number(scope, Pass::Folding, faults, most, number?)
}

/// `bit<width>`.
#[tactic(auto, using(crate::proofs::NotedLaws::made_of_right, crate::proofs::NotedLaws::made_of_wrong))]
pub(crate) fn bits_of_width(width: Option<u8>) -> Option<SourceType>
    ensures { (part : Checked ℕ) → width ≡ right_of part →
        result ≡ right_of (made_of (λ n. Bit n) part) }
{
    Some(SourceType::Bit(width?))
}

/// `int<width>`.
#[tactic(auto, using(crate::proofs::NotedLaws::made_of_right, crate::proofs::NotedLaws::made_of_wrong))]
pub(crate) fn int_of_width(width: Option<u8>) -> Option<SourceType>
    ensures { (part : Checked ℕ) → width ≡ right_of part →
        result ≡ right_of (made_of (λ n. Signed n) part) }
{
    Some(SourceType::Signed(width?))
}

/// A stack of so many headers.
#[tactic(auto, using(crate::proofs::NotedLaws::with_both_right, crate::proofs::NotedLaws::with_both_first, crate::proofs::NotedLaws::with_both_second, crate::proofs::NotedLaws::with_both_noted))]
pub(crate) fn stack_at(
    faults: &mut Faults,
    within: Span,
    t: Option<SourceType>,
    size: Option<u8>,
) -> Option<SourceType>
    ensures value { (p : Checked AType) (q : Checked ℕ) → t ≡ right_of p → size ≡ right_of q →
        result ≡ right_of (with_both (stack_by_rules within) p q) }
    ensures faults { (start : Option AFault) (p : Checked AType) (q : Checked ℕ) →
        t ≡ right_of p → size ≡ right_of q → faults.old.first ≡ noted (noted start p) q →
        faults.new.first ≡ noted start (with_both (stack_by_rules within) p q) }
{
    match (t, size) {
        (Some(of), Some(count)) => stack_of(faults, within, of, count),
        _ => None,
    }
}

/// A type with an argument is `register` alone, which is left out.
#[tactic(auto, using(crate::proofs::NotedLaws::with_both_right, crate::proofs::NotedLaws::with_both_first, crate::proofs::NotedLaws::with_both_second, crate::proofs::NotedLaws::with_both_noted))]
pub(crate) fn argument_refused(
    faults: &mut Faults,
    place: Span,
    t: Option<SourceType>,
    argument: Option<SourceType>,
) -> Option<SourceType>
    ensures value { (p q : Checked AType) → t ≡ right_of p → argument ≡ right_of q →
        result ≡ right_of (with_both {C = AType} (λ u v. typing_fault place) p q) }
    ensures faults { (start : Option AFault) (p q : Checked AType) →
        t ≡ right_of p → argument ≡ right_of q → faults.old.first ≡ noted (noted start p) q →
        faults.new.first ≡ noted start (with_both {C = AType} (λ u v. typing_fault place) p q) }
{
    match (t, argument) {
        (Some(_), Some(_)) => {
            faults.note(Pass::Checking, Code::Typing, place);
            None
        }
        _ => None,
    }
}
