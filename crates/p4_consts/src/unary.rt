//! Operators before one operand (P4-16, "Expressions on Booleans", "Operations on fixed-width bit types").
ghost use Rattle.std.specs.Prelude.{◌≡◌, IfOk, OnOk, option_map};
ghost use Rattle.p4_rules.specs.declared.faults.Pass.{Pass as APass};
ghost use Rattle.p4_rules.specs.declared.faults.Pass.TheVariants.{Checking};
ghost use Rattle.tg_base.specs.declared.place.Code.TheVariants.{Typing};
ghost use Rattle.p4_rules.specs.Faults.{provided as provided_by_rules};
ghost use Rattle.p4_rules.specs.Operators.{applied_one as applied_one_by_rules, minus_of as minus_by_rules, unary_of as unary_by_rules};
ghost use Rattle.p4_consts.specs.Noted.{noted, right_of};
ghost use Rattle.p4_consts.specs.Operands.{operand_of, placed_of};
ghost use Rattle.p4_consts.specs.Scopes.{scope_in};

use crate::casts::as_bits;
use crate::faults::Faults;
use crate::folding::{fixed, plain_value};
use crate::operands::{Operand, Placed, core_of, type_of, varying_or};
use crate::scopes::Scope;
use crate::wanted::{is_boolean, is_sized_value};
use bits_core::Op;
use p4_program::typed::Expression;
use p4_rules::Pass;
use p4_tree::UnaryOperator;
use std::alloc::{AllocError, Global};
use tg_base::{Code, Span};

/// What an operator before one operand gives.
pub fn unary_of(
    alloc: Global,
    scope: &Scope,
    faults: &mut Faults,
    sign: UnaryOperator,
    placed: Placed,
) -> Result<Option<Operand>, AllocError>
    ensures value { (pass : APass) → IfOk result (λ o. option_map operand_of o
        ≡ right_of (unary_by_rules (scope_in pass scope.now) sign (placed_of placed))) }
    ensures faults { (pass : APass) → OnOk result (faults.new.first ≡ noted faults.old.first
        (unary_by_rules (scope_in pass scope.now) sign (placed_of placed))) }
{
    let Placed { operand, place } = placed;
    match sign {
        UnaryOperator::Not => {
            let holds = is_boolean(&operand);
            provided_one(alloc, scope, faults, holds, Op::Not, place, operand)
        }
        UnaryOperator::Complement => {
            let bits = as_bits(alloc, operand)?;
            let holds = is_sized_value(&bits);
            provided_one(alloc, scope, faults, holds, Op::Not, place, bits)
        }
        UnaryOperator::Minus => {
            let bits = as_bits(alloc, operand)?;
            minus_of(alloc, scope, faults, place, bits)
        }
    }
}

/// `-` of a compile-time integer, which is one, or of a sized value.
fn minus_of(
    alloc: Global,
    scope: &Scope,
    faults: &mut Faults,
    place: Span,
    operand: Operand,
) -> Result<Option<Operand>, AllocError>
    ensures value { (pass : APass) → IfOk result (λ o. option_map operand_of o
        ≡ right_of (minus_by_rules (scope_in pass scope.now) place (operand_of operand))) }
    ensures faults { (pass : APass) → OnOk result (faults.new.first ≡ noted faults.old.first
        (minus_by_rules (scope_in pass scope.now) place (operand_of operand))) }
{
    match operand {
        Operand::Whole(number) => Ok(Some(Operand::Whole(number.negated()))),
        other => {
            let holds = is_sized_value(&other);
            provided_one(alloc, scope, faults, holds, Op::Neg, place, other)
        }
    }
}

/// What the operator gives where the test holds, else a fault of types.
fn provided_one(
    alloc: Global,
    scope: &Scope,
    faults: &mut Faults,
    holds: bool,
    op: Op,
    place: Span,
    operand: Operand,
) -> Result<Option<Operand>, AllocError>
    ensures value { (pass : APass) → IfOk result (λ o. option_map operand_of o
        ≡ right_of (provided_by_rules holds Checking Typing place
        (applied_one_by_rules (scope_in pass scope.now) op place (operand_of operand)))) }
    ensures faults { (pass : APass) → OnOk result (faults.new.first
        ≡ noted faults.old.first (provided_by_rules holds Checking Typing place
        (applied_one_by_rules (scope_in pass scope.now) op place (operand_of operand)))) }
{
    if holds {
        return Ok(Some(applied_one(alloc, scope, op, place, operand)?));
    }
    drop(operand);
    faults.note(Pass::Checking, Code::Typing, place);
    Ok(None)
}

/// An operator of one operand in a run or on a constant.
fn applied_one(
    alloc: Global,
    scope: &Scope,
    op: Op,
    place: Span,
    operand: Operand,
) -> Result<Operand, AllocError>
    ensures { (pass : APass) → IfOk result (λ x. operand_of x
        ≡ applied_one_by_rules (scope_in pass scope.now) op place (operand_of operand)) }
{
    match operand {
        Operand::Fixed(constant) => {
            fixed(constant.type_of, plain_value(op, constant, constant)?)
        }
        other => {
            let (t, at) = (type_of(&other), varying_or(place, &other));
            let part = Box::new(alloc, core_of(alloc, scope, other)?)?;
            Ok(Operand::Computed(t, Expression::Unary(op, part), at))
        }
    }
}
