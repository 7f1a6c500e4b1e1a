//! Where calls may stand, and what a call that stands there gives.
ghost use Rattle.std.specs.Prelude.{◌≡◌, Option, option_map};
ghost use Rattle.p4_program.specs.Syntax.Statements.{CoreWork};
ghost use Rattle.p4_program.specs.Trees.Statements.{work_of};
ghost use Rattle.p4_rules.specs.Callees.{only_where, a_call, chained};
ghost use Rattle.p4_rules.specs.Faults.{Checked, and_then, provided};
ghost use Rattle.p4_rules.specs.Scopes.{is_in_parser as parser_by_rules, is_in_control as control_by_rules, is_in_control_or_action as control_or_action_by_rules};
ghost use Rattle.p4_rules.specs.Things.{Thing as RulesThing};
ghost use Rattle.p4_rules.specs.declared.faults.Fault.{Fault};
ghost use Rattle.p4_rules.specs.declared.faults.Pass.TheVariants.{Checking};
ghost use Rattle.p4_consts.specs.Noted.{noted, right_of};
ghost use Rattle.p4_consts.specs.Things.{thing_of};

use crate::faults::Faults;
use crate::things::Thing;
use p4_program::typed::Work;
use p4_rules::{Here, Pass};
use tg_base::{Code, Span};

/// So many calls may stand inside one another.
const LONGEST_CHAIN: u32 = 64;

pub(crate) fn is_in_parser(here: Here) -> bool
    ensures { result ≡ parser_by_rules here }
{
    matches!(here, Here::InParser)
}

/// In the body of a control.
pub(crate) fn is_in_control(here: Here) -> bool
    ensures { result ≡ control_by_rules here }
{
    matches!(here, Here::InControl)
}

/// In the body of a control or in an action.
pub(crate) fn is_in_control_or_action(here: Here) -> bool
    ensures { result ≡ control_or_action_by_rules here }
{
    matches!(here, Here::InControl | Here::InAction)
}

/// What a call gives, where the test holds. Where it does not hold, a call whose arguments are right is refused.
pub(crate) fn thing_where(
    faults: &mut Faults,
    holds: bool,
    code: Code,
    place: Span,
    thing: Option<Thing>,
) -> Option<Thing>
    ensures value { (p : Checked RulesThing) → option_map thing_of thing ≡ right_of p →
        option_map thing_of result
        ≡ right_of (and_then p (λ x. provided holds Checking code place x)) }
    ensures faults { (p : Checked RulesThing) (first : Option Fault) →
        option_map thing_of thing ≡ right_of p → faults.old.first ≡ noted first p →
        faults.new.first
        ≡ noted first (and_then p (λ x. provided holds Checking code place x)) }
{
    let thing = thing?;
    if holds {
        return Some(thing);
    }
    drop(thing);
    faults.note(Pass::Checking, code, place);
    None
}

/// What a call does, where it may stand.
pub(crate) fn work_where(
    faults: &mut Faults,
    here: bool,
    place: Span,
    work: Option<Work>,
) -> Option<Work>
    ensures value { (p : Checked CoreWork) → option_map work_of work ≡ right_of p →
        option_map work_of result ≡ right_of (only_where here place p) }
    ensures faults { (p : Checked CoreWork) (first : Option Fault) →
        option_map work_of work ≡ right_of p → faults.old.first ≡ noted first p →
        faults.new.first ≡ noted first (only_where here place p) }
{
    let work = work?;
    if here {
        return Some(work);
    }
    drop(work);
    faults.note(Pass::Checking, Code::Typing, place);
    None
}

/// The call that does this, where it may stand.
pub(crate) fn call_where(
    faults: &mut Faults,
    here: bool,
    place: Span,
    work: Option<Work>,
) -> Option<Thing>
    ensures value { (p : Checked CoreWork) → option_map work_of work ≡ right_of p →
        option_map thing_of result ≡ right_of (only_where here place (a_call p)) }
    ensures faults { (p : Checked CoreWork) (first : Option Fault) →
        option_map work_of work ≡ right_of p → faults.old.first ≡ noted first p →
        faults.new.first ≡ noted first (only_where here place (a_call p)) }
{
    let work = work?;
    if here {
        return Some(Thing::WorkOf(work));
    }
    drop(work);
    faults.note(Pass::Checking, Code::Typing, place);
    None
}

/// The call that does this.
pub(crate) fn as_call(work: Option<Work>) -> Option<Thing>
    ensures { (p : Checked CoreWork) → option_map work_of work ≡ right_of p →
        option_map thing_of result ≡ right_of (a_call p) }
{
    Some(Thing::WorkOf(work?))
}

/// What a call gives with a chain of calls of this length below it. One too long is refused at the call.
pub(crate) fn chain_where(
    faults: &mut Faults,
    below: u32,
    place: Span,
    thing: Option<Thing>,
) -> Option<Thing>
    ensures value { (p : Checked RulesThing) → option_map thing_of thing ≡ right_of p →
        option_map thing_of result ≡ right_of (chained below place p) }
    ensures faults { (p : Checked RulesThing) (first : Option Fault) →
        option_map thing_of thing ≡ right_of p → faults.old.first ≡ noted first p →
        faults.new.first ≡ noted first (chained below place p) }
{
    thing_where(faults, below < LONGEST_CHAIN, Code::Limit, place, thing)
}
