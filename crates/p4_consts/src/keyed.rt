//! What the parts of a key make. A part that is faulty is none, and its faults have been noted.
ghost use Rattle.std.specs.Prelude.{◌≡◌, Option, List, [], ◌∷◌, map, option_map, IfOk};
ghost use Rattle.p4_rules.specs.declared.faults.Fault.{Fault as AFault};
ghost use Rattle.p4_rules.specs.declared.faults.Pass.TheVariants.{Checking};
ghost use Rattle.tg_base.specs.declared.place.Code.TheVariants.{Unsupported};
ghost use Rattle.p4_rules.specs.Faults.{Checked, fault_at, and_then, made_of, both, with_both};
ghost use Rattle.p4_rules.specs.Casts.{typing_fault};
ghost use Rattle.p4_rules.specs.Things.{Judged as RulesJudged};
ghost use Rattle.p4_consts.specs.Noted.{noted, right_of};
ghost use Rattle.p4_consts.specs.Things.{judged_of};

use crate::faults::Faults;
use crate::things::Judged;
use p4_rules::Pass;
use sqlite_items::Items;
use std::alloc::{AllocError, Global};
use tg_base::{Code, Span};

/// One part, where it is right.
#[tactic(auto, using(crate::proofs::NotedLaws::made_of_right, crate::proofs::NotedLaws::made_of_wrong))]
pub(crate) fn one_part(
    alloc: Global,
    one: Option<Judged>,
) -> Result<Option<Items<Judged>>, AllocError>
    ensures { (part : Checked RulesJudged) → option_map judged_of one ≡ right_of part →
        IfOk result (λ v. option_map (map judged_of) v ≡ right_of (made_of (λ j. j ∷ []) part)) }
{
    let Some(judged) = one else {
        return Ok(None);
    };
    let mut parts = Items::new(alloc);
    parts.push(judged)?;
    Ok(Some(parts))
}

/// Two parts, where both are right.
#[tactic(auto, using(crate::proofs::NotedLaws::both_right, crate::proofs::NotedLaws::both_first, crate::proofs::NotedLaws::both_second))]
pub(crate) fn two_parts(
    alloc: Global,
    one: Option<Judged>,
    other: Option<Judged>,
) -> Result<Option<Items<Judged>>, AllocError>
    ensures { (p q : Checked RulesJudged) →
        option_map judged_of one ≡ right_of p → option_map judged_of other ≡ right_of q →
        IfOk result (λ v. option_map (map judged_of) v
        ≡ right_of (both (λ j i. j ∷ i ∷ []) p q)) }
{
    let Some(first) = one else {
        drop(other);
        return Ok(None);
    };
    let Some(second) = other else {
        drop(first);
        return Ok(None);
    };
    let mut parts = Items::new(alloc);
    parts.push(first)?;
    parts.push(second)?;
    Ok(Some(parts))
}

/// A range is left out, where its bounds are right.
#[tactic(auto, using(crate::proofs::NotedLaws::with_both_right, crate::proofs::NotedLaws::with_both_first, crate::proofs::NotedLaws::with_both_second, crate::proofs::NotedLaws::with_both_noted))]
pub(crate) fn no_range(
    faults: &mut Faults,
    one: Option<Judged>,
    other: Option<Judged>,
) -> Option<Items<Judged>>
    ensures value { (p q : Checked RulesJudged) →
        option_map judged_of one ≡ right_of p → option_map judged_of other ≡ right_of q →
        option_map (map judged_of) result ≡ right_of
        (with_both {C = List RulesJudged} (λ j i. fault_at Checking Unsupported j.place) p q) }
    ensures faults { (start : Option AFault) (p q : Checked RulesJudged) →
        option_map judged_of one ≡ right_of p → option_map judged_of other ≡ right_of q →
        faults.old.first ≡ noted (noted start p) q →
        faults.new.first ≡ noted start
        (with_both {C = List RulesJudged} (λ j i. fault_at Checking Unsupported j.place) p q) }
{
    let Some(low) = one else {
        drop(other);
        return None;
    };
    let Some(high) = other else {
        drop(low);
        return None;
    };
    let place = low.place;
    drop(low);
    drop(high);
    faults.note(Pass::Checking, Code::Unsupported, place);
    None
}

/// A key that stands where a value does has none.
#[tactic(auto, using(crate::proofs::NotedLaws::and_then_right, crate::proofs::NotedLaws::and_then_noted, crate::proofs::NotedLaws::and_then_wrong))]
pub(crate) fn no_value(
    faults: &mut Faults,
    place: Span,
    parts: Option<Items<Judged>>,
) -> Option<Judged>
    ensures value { (p : Checked (List RulesJudged)) → option_map (map judged_of) parts ≡ right_of p →
        option_map judged_of result
        ≡ right_of (and_then {B = RulesJudged} p (λ js. typing_fault place)) }
    ensures faults { (start : Option AFault) (p : Checked (List RulesJudged)) →
        option_map (map judged_of) parts ≡ right_of p → faults.old.first ≡ noted start p →
        faults.new.first ≡ noted start (and_then {B = RulesJudged} p (λ js. typing_fault place)) }
{
    let right = parts?;
    drop(right);
    faults.note(Pass::Checking, Code::Typing, place);
    None
}
