//! Rows of what is judged, one after the other.
ghost use Rattle.std.specs.Prelude.{◌≡◌, List, [], ◌∷◌, ◌++◌, map, option_map, IfOk};
ghost use Rattle.p4_rules.specs.Faults.{Checked, all_of, made_of};
ghost use Rattle.p4_rules.specs.Things.{Judged as RulesJudged, Braced};
ghost use Rattle.p4_rules.specs.Expressions.{judged_at};
ghost use Rattle.p4_consts.specs.Noted.{right_of};
ghost use Rattle.p4_consts.specs.Rows.{told_by_rules};
ghost use Rattle.p4_consts.specs.Things.{judged_of, told_value};

use crate::operands::Placed;
use crate::things::{Judged, Thing};
use crate::values::told_of;
use p4_rules::Fault;
use sqlite_items::Items;
use std::alloc::{AllocError, Global};
use tg_base::Span;

/// One more behind those of a row, where all have been right.
#[tactic(auto, using(crate::proofs::NotedLaws::all_of_pushed_right, crate::proofs::NotedLaws::all_of_pushed_last, crate::proofs::NotedLaws::all_of_pushed_first))]
pub(crate) fn with_one_more(
    all: Option<Items<Judged>>,
    one: Option<Judged>,
) -> Result<Option<Items<Judged>>, AllocError>
    ensures { (parts : List (Checked RulesJudged)) (part : Checked RulesJudged) →
        option_map (map judged_of) all ≡ right_of (all_of parts) →
        option_map judged_of one ≡ right_of part →
        IfOk result (λ v. option_map (map judged_of) v ≡ right_of (all_of (parts ++ part ∷ []))) }
{
    match (all, one) {
        (Some(mut judged), Some(last)) => {
            judged.push(last)?;
            Ok(Some(judged))
        }
        _ => Ok(None),
    }
}

/// A list in braces of these parts, where all are right.
#[tactic(auto, using(crate::proofs::NotedLaws::made_of_right, crate::proofs::NotedLaws::made_of_wrong))]
pub(crate) fn braced(
    alloc: Global,
    place: Span,
    all: Option<Items<Judged>>,
) -> Result<Option<Judged>, AllocError>
    ensures { (part : Checked (List RulesJudged)) →
        option_map (map judged_of) all ≡ right_of part →
        IfOk result (λ v. option_map judged_of v
        ≡ right_of (made_of (λ js. judged_at place (Braced (map told_by_rules js))) part)) }
{
    let Some(parts) = all else {
        return Ok(None);
    };
    let thing = Thing::Braced(told_each(alloc, parts)?);
    Ok(Some(Judged { thing, place }))
}

/// The value of each part, or why it has none.
fn told_each(alloc: Global, all: Items<Judged>) -> Result<Items<Result<Placed, Fault>>, AllocError>
    ensures { IfOk result (λ values. map told_value values
        ≡ map told_by_rules (map judged_of all)) }
{
    let mut rest = all;
    let mut values = Vec::new(alloc);
    while let Some(last) = rest.pop() {
        values.push(told_of(last))?;
    }
    values.reverse();
    Ok(Items::from_vec(values))
}
