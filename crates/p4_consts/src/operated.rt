//! What operators of one operand and casts make of operands that are judged. An operand that is faulty
//! is none, and its faults have been noted.
ghost use Rattle.std.specs.Prelude.{◌≡◌, Option, option_map, IfOk, OnOk};
ghost use Rattle.p4_rules.specs.declared.faults.Fault.{Fault as AFault};
ghost use Rattle.p4_rules.specs.declared.faults.Pass.{Pass as APass};
ghost use Rattle.p4_rules.specs.declared.types.SourceType.{SourceType as AType};
ghost use Rattle.p4_rules.specs.Faults.{Checked, and_then, made_of, with_both};
ghost use Rattle.p4_rules.specs.Operands.{Operand as RulesOperand, Placed as RulesPlaced};
ghost use Rattle.p4_rules.specs.Things.{Judged as RulesJudged, value_at as value_at_by_rules, value_of as value_by_rules};
ghost use Rattle.p4_rules.specs.Casts.{cast as cast_by_rules};
ghost use Rattle.p4_rules.specs.Operators.{unary_of as unary_by_rules};
ghost use Rattle.p4_consts.specs.Noted.{noted, right_of};
ghost use Rattle.p4_consts.specs.Operands.{operand_of, placed_of};
ghost use Rattle.p4_consts.specs.Scopes.{scope_in};
ghost use Rattle.p4_consts.specs.Things.{judged_of};

use crate::casts::cast;
use crate::faults::Faults;
use crate::operands::{Operand, Placed};
use crate::scopes::Scope;
use crate::things::{Judged, Thing};
use crate::unary::unary_of;
use crate::values::value_of;
use p4_rules::{Pass, SourceType};
use p4_tree::UnaryOperator;
use std::alloc::{AllocError, Global};
use tg_base::Span;

/// The value of what is judged, where it is right and has one.
#[tactic(auto, using(crate::proofs::NotedLaws::and_then_right, crate::proofs::NotedLaws::and_then_noted, crate::proofs::NotedLaws::and_then_wrong))]
pub(crate) fn value_in(faults: &mut Faults, judged: Option<Judged>) -> Option<Placed>
    ensures value { (part : Checked RulesJudged) → option_map judged_of judged ≡ right_of part →
        option_map placed_of result ≡ right_of (and_then part value_by_rules) }
    ensures faults { (start : Option AFault) (part : Checked RulesJudged) →
        option_map judged_of judged ≡ right_of part → faults.old.first ≡ noted start part →
        faults.new.first ≡ noted start (and_then part value_by_rules) }
{
    value_of(faults, judged?)
}

/// A value at the place of its expression.
#[tactic(auto, using(crate::proofs::NotedLaws::made_of_right, crate::proofs::NotedLaws::made_of_wrong))]
pub(crate) fn value_at(place: Span, value: Option<Operand>) -> Option<Judged>
    ensures { (part : Checked RulesOperand) → option_map operand_of value ≡ right_of part →
        option_map judged_of result ≡ right_of (made_of (value_at_by_rules place) part) }
{
    let operand = value?;
    let thing = Thing::Value(operand);
    Some(Judged { thing, place })
}

/// An operator of one operand.
#[tactic(auto, using(crate::proofs::NotedLaws::and_then_right, crate::proofs::NotedLaws::and_then_noted, crate::proofs::NotedLaws::and_then_wrong, crate::proofs::NotedLaws::made_of_right, crate::proofs::NotedLaws::made_of_wrong, crate::proofs::NotedLaws::made_of_noted))]
pub(crate) fn unary_at(
    alloc: Global,
    scope: &Scope,
    faults: &mut Faults,
    place: Span,
    sign: UnaryOperator,
    operand: Option<Placed>,
) -> Result<Option<Judged>, AllocError>
    ensures value { (pass : APass) (part : Checked RulesPlaced) →
        option_map placed_of operand ≡ right_of part →
        IfOk result (λ v. option_map judged_of v ≡ right_of (made_of (value_at_by_rules place)
        (and_then part (unary_by_rules (scope_in pass scope.now) sign)))) }
    ensures faults { (pass : APass) (start : Option AFault) (part : Checked RulesPlaced) →
        option_map placed_of operand ≡ right_of part → faults.old.first ≡ noted start part →
        OnOk result (faults.new.first ≡ noted start (made_of (value_at_by_rules place)
        (and_then part (unary_by_rules (scope_in pass scope.now) sign)))) }
{
    let Some(one) = operand else {
        return Ok(None);
    };
    let value = unary_of(alloc, scope, faults, sign, one)?;
    Ok(value_at(place, value))
}

/// A written cast.
#[tactic(auto, using(crate::proofs::NotedLaws::with_both_right, crate::proofs::NotedLaws::with_both_first, crate::proofs::NotedLaws::with_both_second, crate::proofs::NotedLaws::with_both_noted, crate::proofs::NotedLaws::made_of_right, crate::proofs::NotedLaws::made_of_wrong, crate::proofs::NotedLaws::made_of_noted))]
pub(crate) fn cast_at(
    alloc: Global,
    scope: &Scope,
    pass: Pass,
    faults: &mut Faults,
    place: Span,
    t: Option<SourceType>,
    operand: Option<Placed>,
) -> Result<Option<Judged>, AllocError>
    ensures value { (form : Checked AType) (part : Checked RulesPlaced) →
        t ≡ right_of form → option_map placed_of operand ≡ right_of part →
        IfOk result (λ v. option_map judged_of v ≡ right_of (made_of (value_at_by_rules place)
        (with_both (λ u x. cast_by_rules (scope_in pass scope.now) u x.place x.operand)
        form part))) }
    ensures faults { (start : Option AFault) (form : Checked AType) (part : Checked RulesPlaced) →
        t ≡ right_of form → option_map placed_of operand ≡ right_of part →
        faults.old.first ≡ noted (noted start form) part →
        OnOk result (faults.new.first ≡ noted start (made_of (value_at_by_rules place)
        (with_both (λ u x. cast_by_rules (scope_in pass scope.now) u x.place x.operand)
        form part))) }
{
    match (t, operand) {
        (Some(u), Some(one)) => {
            let value = cast(alloc, scope, pass, faults, u, one.place, one.operand)?;
            Ok(value_at(place, value))
        }
        _ => Ok(None),
    }
}
