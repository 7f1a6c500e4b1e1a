//! The arguments of a call, one for each parameter.
ghost use Rattle.std.specs.Prelude.{◌≡◌, map, reverse, IfOk, OnOk, option_map};
ghost use Rattle.p4_program.specs.Trees.Statements.{argument_of};
ghost use Rattle.p4_rules.specs.Callees.{arguments as arguments_by_rules, arguments_for as arguments_for_by_rules, those_there};
ghost use Rattle.p4_rules.specs.Faults.{made_of};
ghost use Rattle.p4_consts.specs.Noted.{noted, right_of};
ghost use Rattle.p4_consts.specs.Passing.{with_argument as with_argument_by_rules};
ghost use Rattle.p4_consts.specs.Scopes.{scope_in};
ghost use Rattle.p4_consts.specs.Things.{judged_of};

use crate::faults::Faults;
use crate::passing::directed;
use crate::scopes::Scope;
use crate::things::Judged;
use p4_program::typed::Argument;
use p4_rules::{ParameterShape, Pass};
use sqlite_items::Items;
use std::alloc::{AllocError, Global};
use tg_base::{Code, Span};

/// A row from its end to its beginning.
pub(crate) fn reversed<T: Drop>(alloc: Global, row: Items<T>) -> Result<Vec<T>, AllocError>
    ensures { IfOk result (λ v. v.items ≡ reverse row) }
{
    let mut rest = row;
    let mut turned = Vec::new(alloc);
    while let Some(last) = rest.pop() {
        turned.push(last)?;
    }
    Ok(turned)
}

/// One more argument behind those of a row, where it is passed in a run.
fn with_argument(
    arguments: Option<Items<Argument>>,
    last: Option<Option<Argument>>,
) -> Result<Option<Items<Argument>>, AllocError>
    ensures { IfOk result (λ v. option_map (map argument_of) v ≡ with_argument_by_rules
        (option_map (map argument_of) arguments) (option_map (option_map argument_of) last)) }
{
    match (arguments, last) {
        (Some(mut arguments), Some(Some(last))) => {
            arguments.push(last)?;
            Ok(Some(arguments))
        }
        (Some(arguments), Some(None)) => Ok(Some(arguments)),
        _ => Ok(None),
    }
}

/// The arguments that are passed in a run, one for each parameter. Another number of them is refused at the call.
pub fn arguments_for(
    alloc: Global,
    scope: &Scope,
    pass: Pass,
    faults: &mut Faults,
    place: Span,
    shapes: &[ParameterShape],
    passed: Items<Judged>,
) -> Result<Option<Items<Argument>>, AllocError>
    ensures value { IfOk result (λ v. option_map (map argument_of) v
        ≡ right_of (made_of those_there (arguments_for_by_rules (scope_in pass scope.now) place
        shapes.now (map judged_of passed)))) }
    ensures faults { OnOk result (faults.new.first ≡ noted faults.old.first
        (arguments_for_by_rules (scope_in pass scope.now) place
        shapes.now (map judged_of passed))) }
{
    let mut left = reversed(alloc, passed)?;
    let mut rest = shapes;
    let mut done = Some(Items::new(alloc));
    while let Some((shape, more)) = rest.split_first() {
        let Some(judged) = left.pop() else {
            faults.note(Pass::Checking, Code::Typing, place);
            return Ok(None);
        };
        let (direction, t) = (shape.direction, shape.type_of);
        let argument = directed(alloc, scope, pass, faults, direction, t, judged)?;
        done = with_argument(done, argument)?;
        rest = more;
    }
    match left.pop() {
        Some(other) => {
            drop(other);
            faults.note(Pass::Checking, Code::Typing, place);
            Ok(None)
        }
        None => Ok(done),
    }
}

/// The arguments of a call, as many as there are parameters.
pub fn arguments(
    alloc: Global,
    scope: &Scope,
    pass: Pass,
    faults: &mut Faults,
    place: Span,
    shapes: &[ParameterShape],
    passed: Items<Judged>,
) -> Result<Option<Items<Argument>>, AllocError>
    ensures value { IfOk result (λ v. option_map (map argument_of) v
        ≡ right_of (arguments_by_rules (scope_in pass scope.now) place
        shapes.now (map judged_of passed))) }
    ensures faults { OnOk result (faults.new.first ≡ noted faults.old.first
        (arguments_by_rules (scope_in pass scope.now) place
        shapes.now (map judged_of passed))) }
{
    if shapes.len() != passed.len() {
        drop(passed);
        faults.note(Pass::Checking, Code::Typing, place);
        return Ok(None);
    }
    arguments_for(alloc, scope, pass, faults, place, shapes, passed)
}
