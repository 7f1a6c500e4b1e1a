//! Full unit propagation by passes over all clauses, until one changes nothing: the plain program of
//! its definition.

ghost use Rattle.std.specs.Prelude.{◌≡◌, ◌≤◌, ◌↔◌, IsTrue, All, length};
ghost use Rattle.std.specs.Bool.{OnFalse};
ghost use Rattle.cnf_core.specs.Propagation.{Conflicts};
ghost use Rattle.unit_propagation.specs.Units.{IsWithin};
ghost use Rattle.unit_propagation.specs.Propagated.{AreAllSet};
ghost use Rattle.unit_propagation.specs.Plain.{Grew, IsPass};

use crate::assignment::{Assignment, Cause};
use crate::clause_list::ClauseList;
use crate::clause_state::ClauseState;

/// How a pass over the clauses ended.
#[derive(Clone, Copy, Debug)]
pub enum Pass {
    Conflict,
    Changed,
    Fixed,
}

/// Whether full propagation from the literals of the assignment conflicts. Where it does not, the
/// assignment has what it sets.
pub fn propagate(clauses: &ClauseList, assignment: &mut Assignment) -> bool
    requires within { All (IsWithin assignment.old.width) clauses.now }
    requires fits { length assignment.old.trail ≤ assignment.old.width }
    ensures conflict { IsTrue result ↔ Conflicts clauses.now assignment.old.trail }
    ensures all_set { OnFalse result
        (AreAllSet clauses.now assignment.old.trail assignment.new.trail) }
    ensures width { assignment.new.width ≡ assignment.old.width }
{
    loop {
        match one_pass(clauses, assignment) {
            Pass::Conflict => return true,
            Pass::Changed => (),
            Pass::Fixed => return false,
        }
    }
}

fn one_pass(clauses: &ClauseList, assignment: &mut Assignment) -> Pass
    requires within { All (IsWithin assignment.old.width) clauses.now }
    requires fits { length assignment.old.trail ≤ assignment.old.width }
    ensures grew { Grew clauses.now assignment.old.trail assignment.new.trail }
    ensures end { IsPass clauses.now assignment.old.trail assignment.new.trail result }
    ensures width { assignment.new.width ≡ assignment.old.width }
    ensures fits { length assignment.new.trail ≤ assignment.new.width }
{
    let mut changed = false;
    for number in 0..clauses.len() {
        match ClauseState::of(clauses.literals(number), assignment) {
            ClauseState::Falsified => return Pass::Conflict,
            ClauseState::Unit(l) => {
                assignment.set(l, Cause::implied(number));
                changed = true;
            }
            ClauseState::Other => (),
        }
    }
    if changed { Pass::Changed } else { Pass::Fixed }
}
