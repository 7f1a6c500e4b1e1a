//! Paths to variables and to their parts.
ghost use Rattle.std.specs.Prelude.{◌≡◌, IfOk};
ghost use Rattle.p4_program.specs.Trees.Expressions.{expression_of};
ghost use Rattle.p4_rules.specs.Scopes.{value_type as value_type_by_rules};
ghost use Rattle.p4_rules.specs.Things.{path_of as path_by_rules, step_on as step_on_by_rules};
ghost use Rattle.p4_rules.specs.Things.{validity_of as validity_by_rules};
ghost use Rattle.p4_rules.specs.Things.{step_from as step_from_by_rules};
ghost use Rattle.p4_consts.specs.Operands.{operand_of};
ghost use Rattle.p4_consts.specs.Scopes.{scope_in};

use crate::operands::{Operand, core_of, scalar_of};
use crate::scopes::Scope;
use p4_program::typed::{Expression, Path, Root, Step, ValueType};
use p4_rules::{Pass, SourceType};
use sqlite_items::Items;
use std::alloc::{AllocError, Global};

/// The type of a value in a run.
pub fn value_type(scope: &Scope, t: SourceType) -> ValueType
    ensures { (pass : Pass) → result ≡ value_type_by_rules (scope_in pass scope.now) t }
{
    match t {
        SourceType::Structure(number) => ValueType::Struct(number),
        SourceType::Header(number) => ValueType::Header(number),
        SourceType::Stack(number, size) => ValueType::Stack(number, size),
        other => ValueType::Simple(scalar_of(scope, other)),
    }
}

/// The path of a variable.
pub fn path_of(alloc: Global, scope: &Scope, t: SourceType, root: Root) -> Path
    ensures { (pass : Pass) → result ≡ path_by_rules (scope_in pass scope.now) t root }
{
    Path {
        root,
        steps: Items::new(alloc),
        value_type: value_type(scope, t),
    }
}

/// One step further on a path, to a value of this type.
pub fn step_on(step: Step, value_type: ValueType, path: Path) -> Result<Path, AllocError>
    ensures { IfOk result (λ p. p ≡ step_on_by_rules step value_type path) }
{
    let Path {
        root,
        mut steps,
        ..
    } = path;
    steps.push(step)?;
    Ok(Path {
        root,
        steps,
        value_type,
    })
}

/// Whether a header is valid. Of a path this reads nothing; any other header is evaluated as a whole.
#[tactic(auto, using(crate::proofs::PathLaws::validity_of_value))]
pub fn validity_of(alloc: Global, scope: &Scope, header: Operand) -> Result<Expression, AllocError>
    ensures { (pass : Pass) → IfOk result (λ e. expression_of e
        ≡ validity_by_rules (scope_in pass scope.now) (operand_of header)) }
{
    match header {
        Operand::Stored(_, _, path, _) => Ok(Expression::IsValid(path)),
        other => {
            let whole = Box::new(alloc, core_of(alloc, scope, other)?)?;
            Ok(Expression::ValidityOf(whole))
        }
    }
}

/// The part of an operand one step further.
pub fn step_from(
    alloc: Global,
    scope: &Scope,
    pass: Pass,
    step: Step,
    t: SourceType,
    operand: Operand,
) -> Result<Operand, AllocError>
    ensures { IfOk result (λ x. operand_of x
        ≡ step_from_by_rules (scope_in pass scope.now) step t (operand_of operand)) }
{
    match operand {
        Operand::Stored(_, writable, path, at) => {
            let path = step_on(step, value_type(scope, t), path)?;
            Ok(Operand::Stored(t, writable, path, at))
        }
        Operand::Computed(_, whole, at) => {
            let part = Expression::PartOf(Box::new(alloc, whole)?, step);
            Ok(Operand::Computed(t, part, at))
        }
        other => Ok(other),
    }
}
