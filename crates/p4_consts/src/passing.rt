//! What is passed for a parameter (P4-16, "Calling convention: call by copy in/copy out").
ghost use Rattle.std.specs.Prelude.{◌≡◌, None, Some, IfOk, OnOk, option_map};
ghost use Rattle.p4_program.specs.Trees.Expressions.{expression_of};
ghost use Rattle.p4_program.specs.Trees.Statements.{argument_of};
ghost use Rattle.p4_rules.specs.Callees.{is_header as is_header_by_rules, is_metadata as is_metadata_by_rules, passed_in as passed_in_by_rules, path_in as path_in_by_rules, path_passed as path_passed_by_rules, object_passed as object_passed_by_rules, directed as directed_by_rules, is_object as is_object_by_rules};
ghost use Rattle.p4_rules.specs.Faults.{provided, and_then};
ghost use Rattle.p4_rules.specs.Operands.{type_of as type_by_rules};
ghost use Rattle.p4_rules.specs.Scopes.{Scope as RulesScope};
ghost use Rattle.p4_rules.specs.declared.faults.Pass.TheVariants.{Checking};
ghost use Rattle.p4_tree.specs.declared.declarations.Direction.TheVariants.{Out, InOut};
ghost use Rattle.tg_base.specs.declared.place.Code.TheVariants.{Typing};
ghost use Rattle.p4_consts.specs.Noted.{first_with, noted, right_of};
ghost use Rattle.p4_consts.specs.Operands.{operand_of};
ghost use Rattle.p4_consts.specs.Passing.{test_of, directed_value as directed_value_by_rules};
ghost use Rattle.p4_consts.specs.Scopes.{scope_in};
ghost use Rattle.p4_consts.specs.Things.{judged_of, thing_of, code_of_misfit};

use crate::casts::cast_to;
use crate::faults::Faults;
use crate::meanings::Meaning;
use crate::operands::{Operand, Placed, core_of, type_of};
use crate::scopes::Scope;
use crate::things::{Judged, Thing};
use crate::types::{is_sized, same_object, same_type};
use crate::values::{misfit_code, value_of};
use p4_program::typed::{Argument, Expression, Path};
use p4_rules::{Object, Pass, SourceType};
use p4_tree::Direction;
use std::alloc::{AllocError, Global};
use tg_base::{Code, Span};

/// What the type of a path that is passed has to be.
#[derive(Clone, Copy, Debug, PartialEq, Eq)]
pub enum TypeTest {
    Header,
    /// The standard metadata of the switch.
    Metadata,
    /// `bit<w>` or `int<w>`.
    Sized,
    Same(SourceType),
}

/// Whether a type is as it has to be.
fn passes(test: TypeTest, t: SourceType) -> bool
    ensures { result ≡ test_of test t }
{
    match test {
        TypeTest::Header => is_header(t),
        TypeTest::Metadata => is_metadata(t),
        TypeTest::Sized => is_sized(t),
        TypeTest::Same(other) => same_type(other, t),
    }
}

fn is_header(t: SourceType) -> bool
    ensures { result ≡ is_header_by_rules t }
{
    matches!(t, SourceType::Header(_))
}

/// The struct of the standard metadata, which is the first that is declared.
fn is_metadata(t: SourceType) -> bool
    ensures { result ≡ is_metadata_by_rules t }
{
    matches!(t, SourceType::Structure(number) if number == 0)
}

/// A value for an `in` parameter of this type.
pub fn passed_in(
    alloc: Global,
    scope: &Scope,
    pass: Pass,
    faults: &mut Faults,
    t: SourceType,
    judged: Judged,
) -> Result<Option<Expression>, AllocError>
    ensures value { IfOk result (λ v. option_map expression_of v
        ≡ right_of (passed_in_by_rules (scope_in pass scope.now) t (judged_of judged))) }
    ensures faults { OnOk result (faults.new.first ≡ noted faults.old.first
        (passed_in_by_rules (scope_in pass scope.now) t (judged_of judged))) }
{
    let Some(Placed { operand, place }) = value_of(faults, judged) else {
        return Ok(None);
    };
    let Some(cast) = cast_to(alloc, pass, faults, t, place, operand)? else {
        return Ok(None);
    };
    Ok(Some(core_of(alloc, scope, cast)?))
}

/// A path that may be assigned to.
pub fn path_in(faults: &mut Faults, place: Span, operand: Operand) -> Option<Path>
    ensures value { (Γ : RulesScope) →
        result ≡ right_of (path_in_by_rules Γ place (operand_of operand)) }
    ensures faults { (Γ : RulesScope) → faults.new.first
        ≡ noted faults.old.first (path_in_by_rules Γ place (operand_of operand)) }
{
    match operand {
        Operand::Stored(_, true, path, _) => Some(path),
        other => {
            drop(other);
            faults.note(Pass::Checking, Code::Typing, place);
            None
        }
    }
}

/// A path that may be assigned to where the test holds, else a fault of types.
pub(crate) fn path_where(
    faults: &mut Faults,
    holds: bool,
    place: Span,
    operand: Operand,
) -> Option<Path>
    ensures value { (Γ : RulesScope) → result
        ≡ right_of (and_then (path_in_by_rules Γ place (operand_of operand))
        (λ path. provided holds Checking Typing place path)) }
    ensures faults { (Γ : RulesScope) → faults.new.first
        ≡ noted faults.old.first (and_then (path_in_by_rules Γ place (operand_of operand))
        (λ path. provided holds Checking Typing place path)) }
{
    let path = path_in(faults, place, operand)?;
    if holds {
        return Some(path);
    }
    drop(path);
    faults.note(Pass::Checking, Code::Typing, place);
    None
}

/// A path for an `out` or `inout` parameter: one that may be assigned to, of a type that passes the test.
pub fn path_passed(faults: &mut Faults, test: TypeTest, judged: Judged) -> Option<Path>
    ensures value { (Γ : RulesScope) → result
        ≡ right_of (path_passed_by_rules Γ (test_of test) (judged_of judged)) }
    ensures faults { (Γ : RulesScope) → faults.new.first
        ≡ noted faults.old.first (path_passed_by_rules Γ (test_of test) (judged_of judged)) }
{
    let Placed { operand, place } = value_of(faults, judged)?;
    let holds = passes(test, type_of(&operand));
    path_where(faults, holds, place, operand)
}

/// Notes that something stands where it cannot.
pub(crate) fn note_misfit(faults: &mut Faults, place: Span, thing: Thing)
    ensures { faults.new.first ≡ first_with faults.old.first
        (record { pass = Checking; code = code_of_misfit (thing_of thing); place = place }) }
{
    let code = misfit_code(&thing);
    drop(thing);
    faults.note(Pass::Checking, code, place);
}

/// Whether something is this packet, or another object of its type.
fn is_object(object: Object, thing: &Thing) -> bool
    ensures { result ≡ is_object_by_rules object (thing_of thing.now) }
{
    match thing {
        Thing::Named(Meaning::ObjectOf(other)) => same_object(object, *other),
        _ => false,
    }
}

/// A packet for a parameter of its type: it is not passed in a run.
pub fn object_passed(
    faults: &mut Faults,
    object: Object,
    judged: Judged,
) -> Option<Option<Argument>>
    ensures value { option_map (option_map argument_of) result
        ≡ right_of (object_passed_by_rules object (judged_of judged)) }
    ensures faults { faults.new.first
        ≡ noted faults.old.first (object_passed_by_rules object (judged_of judged)) }
{
    let Judged { thing, place } = judged;
    if is_object(object, &thing) {
        drop(thing);
        return Some(None);
    }
    note_misfit(faults, place, thing);
    None
}

/// What is passed for a parameter of this direction and type, where it is passed in a run.
pub fn directed(
    alloc: Global,
    scope: &Scope,
    pass: Pass,
    faults: &mut Faults,
    direction: Option<Direction>,
    t: SourceType,
    judged: Judged,
) -> Result<Option<Option<Argument>>, AllocError>
    ensures value { IfOk result (λ v. option_map (option_map argument_of) v
        ≡ right_of (directed_by_rules (scope_in pass scope.now) direction t (judged_of judged))) }
    ensures faults { OnOk result (faults.new.first ≡ noted faults.old.first
        (directed_by_rules (scope_in pass scope.now) direction t (judged_of judged))) }
{
    match t {
        SourceType::Opaque(object) => Ok(object_passed(faults, object, judged)),
        other => directed_value(alloc, scope, pass, faults, direction, other, judged),
    }
}

fn directed_value(
    alloc: Global,
    scope: &Scope,
    pass: Pass,
    faults: &mut Faults,
    direction: Option<Direction>,
    t: SourceType,
    judged: Judged,
) -> Result<Option<Option<Argument>>, AllocError>
    ensures value { IfOk result (λ v. option_map (option_map argument_of) v
        ≡ right_of (directed_value_by_rules (scope_in pass scope.now) direction t
        (judged_of judged))) }
    ensures faults { OnOk result (faults.new.first ≡ noted faults.old.first
        (directed_value_by_rules (scope_in pass scope.now) direction t (judged_of judged))) }
{
    match direction {
        Some(Direction::Out) => Ok(path_out(faults, t, judged)),
        Some(Direction::InOut) => Ok(path_in_and_out(faults, t, judged)),
        Some(Direction::In) => value_passed(alloc, scope, pass, faults, t, judged),
        None => value_passed(alloc, scope, pass, faults, t, judged),
    }
}

fn path_out(faults: &mut Faults, t: SourceType, judged: Judged) -> Option<Option<Argument>>
    ensures value { (Γ : RulesScope) → option_map (option_map argument_of) result
        ≡ right_of (directed_value_by_rules Γ (Some Out) t (judged_of judged)) }
    ensures faults { (Γ : RulesScope) → faults.new.first ≡ noted faults.old.first
        (directed_value_by_rules Γ (Some Out) t (judged_of judged)) }
{
    let path = path_passed(faults, TypeTest::Same(t), judged)?;
    Some(Some(Argument::Out(path)))
}

fn path_in_and_out(faults: &mut Faults, t: SourceType, judged: Judged) -> Option<Option<Argument>>
    ensures value { (Γ : RulesScope) → option_map (option_map argument_of) result
        ≡ right_of (directed_value_by_rules Γ (Some InOut) t (judged_of judged)) }
    ensures faults { (Γ : RulesScope) → faults.new.first ≡ noted faults.old.first
        (directed_value_by_rules Γ (Some InOut) t (judged_of judged)) }
{
    let path = path_passed(faults, TypeTest::Same(t), judged)?;
    Some(Some(Argument::InOut(path)))
}

#[tactic(auto, using(crate::proofs::PartLaws::made_of_value, crate::proofs::NotedLaws::made_of_noted))]
fn value_passed(
    alloc: Global,
    scope: &Scope,
    pass: Pass,
    faults: &mut Faults,
    t: SourceType,
    judged: Judged,
) -> Result<Option<Option<Argument>>, AllocError>
    ensures value { IfOk result (λ v. option_map (option_map argument_of) v
        ≡ right_of (directed_value_by_rules (scope_in pass scope.now) None t
        (judged_of judged))) }
    ensures faults { OnOk result (faults.new.first ≡ noted faults.old.first
        (directed_value_by_rules (scope_in pass scope.now) None t (judged_of judged))) }
{
    let Some(value) = passed_in(alloc, scope, pass, faults, t, judged)? else {
        return Ok(None);
    };
    Ok(Some(Some(Argument::In(value))))
}
