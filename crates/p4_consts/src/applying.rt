//! Operators between two operands of one type, in a run or on constants.
ghost use Rattle.std.specs.Prelude.{◌≡◌, IfOk, OnOk, option_map};
ghost use Rattle.p4_program.specs.Trees.Expressions.{expression_of};
ghost use Rattle.p4_program.specs.Syntax.Expressions.{Operations, Behind, NoOperations};
ghost use Rattle.p4_rules.specs.declared.faults.Pass.{Pass as APass};
ghost use Rattle.p4_rules.specs.Operators.{applied as applied_by_rules, applied_with as applied_with_by_rules, extended as extended_by_rules};
ghost use Rattle.p4_consts.specs.Applied.{applied_in_run};
ghost use Rattle.p4_consts.specs.Noted.{noted, right_of};
ghost use Rattle.p4_consts.specs.Operands.{operand_of};
ghost use Rattle.p4_consts.specs.Scopes.{scope_in};

use crate::faults::Faults;
use crate::folding::{constant_value, fixed};
use crate::operands::{Operand, core_of, varying_or};
use crate::scopes::Scope;
use p4_program::typed::{Expression, Operation, Operator as CoreOperator};
use p4_rules::{Pass, SourceType};
use std::alloc::{AllocError, Global};
use tg_base::{Code, Span};

/// An operator between two operands. One that a run does not have is refused.
pub fn applied_with(
    alloc: Global,
    scope: &Scope,
    faults: &mut Faults,
    goes_on: bool,
    t: SourceType,
    operator: Option<CoreOperator>,
    place: Span,
    one: Operand,
    other: Operand,
) -> Result<Option<Operand>, AllocError>
    ensures value { (pass : APass) → IfOk result (λ v. option_map operand_of v ≡ right_of
        (applied_with_by_rules (scope_in pass scope.now) goes_on t operator place
        (operand_of one) (operand_of other))) }
    ensures faults { (pass : APass) → OnOk result (faults.new.first ≡ noted faults.old.first
        (applied_with_by_rules (scope_in pass scope.now) goes_on t operator place
        (operand_of one) (operand_of other))) }
{
    match operator {
        Some(o) => Ok(Some(applied(alloc, scope, goes_on, t, o, place, one, other)?)),
        None => {
            drop(one);
            drop(other);
            faults.note(Pass::Checking, Code::Typing, place);
            Ok(None)
        }
    }
}

/// An operator between two operands. On two constants it is one; behind a row of operators of its level it goes on with it.
pub fn applied(
    alloc: Global,
    scope: &Scope,
    goes_on: bool,
    t: SourceType,
    operator: CoreOperator,
    place: Span,
    one: Operand,
    other: Operand,
) -> Result<Operand, AllocError>
    ensures { (pass : APass) → IfOk result (λ x. operand_of x
        ≡ applied_by_rules (scope_in pass scope.now) goes_on t operator place
        (operand_of one) (operand_of other)) }
{
    match one {
        Operand::Fixed(a) => match other {
            Operand::Fixed(b) => fixed(t, constant_value(operator, a, b)?),
            right => begun(alloc, scope, t, operator, place, Operand::Fixed(a), right),
        },
        Operand::Computed(u, expression, at) => {
            if !goes_on {
                let left = Operand::Computed(u, expression, at);
                return begun(alloc, scope, t, operator, place, left, other);
            }
            let behind = core_of(alloc, scope, other)?;
            let all = extended(alloc, expression, operator, behind)?;
            Ok(Operand::Computed(t, all, at))
        }
        left => begun(alloc, scope, t, operator, place, left, other),
    }
}

/// The operator between two operands, which begins a row of operators.
fn begun(
    alloc: Global,
    scope: &Scope,
    t: SourceType,
    operator: CoreOperator,
    place: Span,
    one: Operand,
    other: Operand,
) -> Result<Operand, AllocError>
    ensures { (pass : APass) → IfOk result (λ x. operand_of x
        ≡ applied_in_run (scope_in pass scope.now) t operator place
        (operand_of one) (operand_of other)) }
{
    let at = varying_or(varying_or(place, &other), &one);
    let first = core_of(alloc, scope, one)?;
    let operand = core_of(alloc, scope, other)?;
    let all = row_of(alloc, first, Operation { operator, operand })?;
    Ok(Operand::Computed(t, all, at))
}

/// The expression with one more operator behind it: operators of one level are one node.
fn extended(
    alloc: Global,
    expression: Expression,
    operator: CoreOperator,
    operand: Expression,
) -> Result<Expression, AllocError>
    ensures { IfOk result (λ e. expression_of e
        ≡ extended_by_rules (expression_of expression) operator (expression_of operand)) }
{
    let more = Operation { operator, operand };
    match expression {
        Expression::Operations(first, mut rest) => {
            rest.push(more)?;
            Ok(Expression::Operations(first, rest))
        }
        other => row_of(alloc, other, more),
    }
}

/// One operator behind an operand.
fn row_of(alloc: Global, first: Expression, more: Operation) -> Result<Expression, AllocError>
    ensures { IfOk result (λ e. expression_of e ≡ Operations (expression_of first)
        (Behind more.operator (expression_of more.operand) NoOperations)) }
{
    let mut rest = Vec::new(alloc);
    rest.push(more)?;
    Ok(Expression::Operations(Box::new(alloc, first)?, rest))
}
