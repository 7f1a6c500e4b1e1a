//! Calls of actions by their names (P4-16, "Actions").
ghost use Rattle.std.specs.Prelude.{◌≡◌, IfOk, OnOk, map, option_map};
ghost use Rattle.p4_program.specs.Syntax.Statements as work;
ghost use Rattle.p4_program.specs.Trees.Statements.{work_of};
ghost use Rattle.p4_rules.specs.Callees.{arguments as arguments_by_rules, named_call as named_by_rules};
ghost use Rattle.p4_rules.specs.Faults.{made_of};
ghost use Rattle.p4_rules.specs.Scopes.{ActionOf, shapes_of as shapes_by_rules};
ghost use Rattle.p4_consts.specs.Noted.{noted, right_of};
ghost use Rattle.p4_consts.specs.Scopes.{scope_in};
ghost use Rattle.p4_consts.specs.Things.{judged_of, thing_of};

use crate::argument_lists::arguments;
use crate::faults::Faults;
use crate::found::{depth_of, shapes_of};
use crate::scopes::Scope;
use crate::standing::{call_where, chain_where, is_in_control_or_action};
use crate::things::{Judged, Thing};
use p4_program::typed::Work;
use p4_rules::Pass;
use sqlite_items::Items;
use std::alloc::{AllocError, Global};
use tg_base::Span;

/// A call of an action, which stands in a control or in an action, with so many calls below it as may be.
pub fn action_call(
    alloc: Global,
    scope: &Scope,
    pass: Pass,
    faults: &mut Faults,
    action: u32,
    place: Span,
    passed: Items<Judged>,
) -> Result<Option<Thing>, AllocError>
    ensures value { IfOk result (λ v. option_map thing_of v ≡ right_of (named_by_rules
        (scope_in pass scope.now) (ActionOf action) place (map judged_of passed))) }
    ensures faults { OnOk result (faults.new.first ≡ noted faults.old.first (named_by_rules
        (scope_in pass scope.now) (ActionOf action) place (map judged_of passed))) }
{
    let work = called_action(alloc, scope, pass, faults, action, place, passed)?;
    let here = is_in_control_or_action(scope.here);
    let thing = call_where(faults, here, place, work);
    let below = depth_of(&scope.depths.callables, action);
    Ok(chain_where(faults, below, place, thing))
}

/// The action with the arguments for its parameters.
fn called_action(
    alloc: Global,
    scope: &Scope,
    pass: Pass,
    faults: &mut Faults,
    action: u32,
    place: Span,
    passed: Items<Judged>,
) -> Result<Option<Work>, AllocError>
    ensures value { IfOk result (λ v. option_map work_of v ≡ right_of (made_of
        (λ those. work.CallAction action those) (arguments_by_rules (scope_in pass scope.now)
        place (shapes_by_rules (scope_in pass scope.now) action) (map judged_of passed)))) }
    ensures faults { OnOk result (faults.new.first ≡ noted faults.old.first (made_of
        (λ those. work.CallAction action those) (arguments_by_rules (scope_in pass scope.now)
        place (shapes_by_rules (scope_in pass scope.now) action) (map judged_of passed)))) }
{
    let shapes = shapes_of(scope, action);
    let Some(those) = arguments(alloc, scope, pass, faults, place, shapes, passed)? else {
        return Ok(None);
    };
    Ok(Some(Work::CallAction(action, those)))
}
