//! The conditional operator (P4-16, "Conditional operator").
ghost use Rattle.std.specs.Prelude.{◌≡◌, IfOk, OnOk, option_map};
ghost use Rattle.p4_rules.specs.declared.faults.Pass.{Pass as APass};
ghost use Rattle.p4_rules.specs.Faults.{Right};
ghost use Rattle.p4_rules.specs.Operands.{Whole, Fixed};
ghost use Rattle.p4_rules.specs.Operators.{choice as choice_by_rules, choice_on as choice_on_by_rules};
ghost use Rattle.p4_rules.specs.Scopes.{Scope as RulesScope};
ghost use Rattle.p4_consts.specs.Choices.{chosen_in_run};
ghost use Rattle.p4_consts.specs.Integers.{integer_of};
ghost use Rattle.p4_consts.specs.Noted.{noted, right_of};
ghost use Rattle.p4_consts.specs.Operands.{operand_of, placed_of};
ghost use Rattle.p4_consts.specs.Pairs.{pair_of};
ghost use Rattle.p4_consts.specs.Scopes.{scope_in};

use crate::constants::Constant;
use crate::faults::Faults;
use crate::folding::fixed;
use crate::integer::Integer;
use crate::operands::{Operand, Placed, core_of, type_of, varying_or};
use crate::pairs::Pair;
use crate::scopes::Scope;
use crate::unify::unified;
use crate::wanted::is_boolean;
use p4_program::typed::Expression;
use p4_rules::Pass;
use std::alloc::{AllocError, Global};
use tg_base::{Code, Span};

/// `condition ? left : right`.
pub fn choice(
    alloc: Global,
    scope: &Scope,
    pass: Pass,
    faults: &mut Faults,
    condition: Placed,
    pair: Pair,
) -> Result<Option<Operand>, AllocError>
    ensures value { IfOk result (λ o. option_map operand_of o ≡ right_of
        (choice_by_rules (scope_in pass scope.now) (placed_of condition) (pair_of pair))) }
    ensures faults { OnOk result (faults.new.first ≡ noted faults.old.first
        (choice_by_rules (scope_in pass scope.now) (placed_of condition) (pair_of pair))) }
{
    let Placed { operand, place } = condition;
    if !is_boolean(&operand) {
        drop(operand);
        drop(pair);
        faults.note(Pass::Checking, Code::Typing, place);
        return Ok(None);
    }
    let at = pair.place;
    match unified(alloc, pass, faults, pair)? {
        Some((one, other)) => choice_on(alloc, scope, faults, at, operand, one, other),
        None => {
            drop(operand);
            Ok(None)
        }
    }
}

/// What one condition chooses of two operands of one type: a constant only where all three are.
fn choice_on(
    alloc: Global,
    scope: &Scope,
    faults: &mut Faults,
    place: Span,
    condition: Operand,
    one: Operand,
    other: Operand,
) -> Result<Option<Operand>, AllocError>
    ensures value { (pass : APass) → IfOk result (λ o. option_map operand_of o ≡ right_of
        (choice_on_by_rules (scope_in pass scope.now) place (operand_of condition)
        (operand_of one, operand_of other))) }
    ensures faults { (pass : APass) → OnOk result (faults.new.first ≡ noted faults.old.first
        (choice_on_by_rules (scope_in pass scope.now) place (operand_of condition)
        (operand_of one, operand_of other))) }
{
    match one {
        Operand::Whole(a) => match other {
            Operand::Whole(b) => Ok(whole_choice(faults, place, condition, a, b)),
            right => {
                let left = Operand::Whole(a);
                Ok(Some(run_choice(alloc, scope, place, condition, left, right)?))
            }
        },
        Operand::Fixed(a) => match other {
            Operand::Fixed(b) => Ok(Some(fixed_choice(alloc, scope, place, condition, a, b)?)),
            right => {
                let left = Operand::Fixed(a);
                Ok(Some(run_choice(alloc, scope, place, condition, left, right)?))
            }
        },
        left => Ok(Some(run_choice(alloc, scope, place, condition, left, other)?)),
    }
}

/// Two compile-time integers, which need a constant condition.
fn whole_choice(
    faults: &mut Faults,
    place: Span,
    condition: Operand,
    a: Integer,
    b: Integer,
) -> Option<Operand>
    ensures value { (Γ : RulesScope) → option_map operand_of result ≡ right_of
        (choice_on_by_rules Γ place (operand_of condition)
        (Whole (integer_of a), Whole (integer_of b))) }
    ensures faults { (Γ : RulesScope) → faults.new.first ≡ noted faults.old.first
        (choice_on_by_rules Γ place (operand_of condition)
        (Whole (integer_of a), Whole (integer_of b))) }
{
    match condition {
        Operand::Fixed(constant) => {
            let number = if constant.value == 0 { b } else { a };
            Some(Operand::Whole(number))
        }
        other => {
            drop(other);
            faults.note(Pass::Checking, Code::Typing, place);
            None
        }
    }
}

/// Two constants, of which a constant condition chooses one.
fn fixed_choice(
    alloc: Global,
    scope: &Scope,
    place: Span,
    condition: Operand,
    a: Constant,
    b: Constant,
) -> Result<Operand, AllocError>
    ensures { (pass : APass) → IfOk result (λ x. Right (operand_of x)
        ≡ choice_on_by_rules (scope_in pass scope.now) place (operand_of condition)
        (Fixed a.type_of a.value, Fixed b.type_of b.value)) }
{
    match condition {
        Operand::Fixed(constant) => {
            let value = if constant.value == 0 {
                b.value
            } else {
                a.value
            };
            fixed(a.type_of, value)
        }
        other => {
            let (left, right) = (Operand::Fixed(a), Operand::Fixed(b));
            run_choice(alloc, scope, place, other, left, right)
        }
    }
}

/// A choice in a run.
fn run_choice(
    alloc: Global,
    scope: &Scope,
    place: Span,
    condition: Operand,
    one: Operand,
    other: Operand,
) -> Result<Operand, AllocError>
    ensures { (pass : APass) → IfOk result (λ x. operand_of x
        ≡ chosen_in_run (scope_in pass scope.now) place (operand_of condition)
        (operand_of one) (operand_of other)) }
{
    let t = type_of(&one);
    let at = varying_or(varying_or(varying_or(place, &other), &one), &condition);
    let test = Box::new(alloc, core_of(alloc, scope, condition)?)?;
    let yes = Box::new(alloc, core_of(alloc, scope, one)?)?;
    let no = Box::new(alloc, core_of(alloc, scope, other)?)?;
    Ok(Operand::Computed(t, Expression::Choice(test, yes, no), at))
}
