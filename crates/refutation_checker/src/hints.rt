//! Reverse unit propagation along hints: each hint's clause sets one literal, until one is false.

ghost use Rattle.std.specs.Prelude.{◌≡◌, ◌≤◌, ◌<◌, ◌↔◌, ◌++◌, ◌∷◌, [], IsTrue, All, length, map};
ghost use Rattle.std.specs.Bool.{OnTrue};
ghost use Rattle.cnf_core.specs.Literal.{negation, IsApart};
ghost use Rattle.unit_propagation.specs.Units.{IsWithin};
ghost use Rattle.refutation_checker.specs.Variables.{width, external_clause, IsNumbering};
ghost use Rattle.refutation_checker.specs.Variables.{IsApartAmong, FollowsAmong};
ghost use Rattle.refutation_checker.specs.Hints.{HintsConflict, IsHintState};

use crate::variables::Variables;
use cnf_core::{Lit, Step};
use unit_propagation::{Assignment, Cause, ClauseState, Propagator, Truth};

/// Whether the step may follow the root's clauses, which have internal numbers. Nothing is set before and after.
pub fn follows(
    root: &Propagator,
    assignment: &mut Assignment,
    variables: &Variables,
    step: &Step,
) -> bool
    requires numbering { IsNumbering variables.now }
    requires within { All (IsWithin (width variables.now)) root.now.clauses }
    requires width { width variables.now ≤ assignment.old.width }
    requires nothing_set { assignment.old.trail ≡ [] }
    ensures answer { IsTrue result ↔ FollowsAmong variables.now root.now.clauses step.now }
    ensures width { assignment.new.width ≡ assignment.old.width }
    ensures nothing_set { assignment.new.trail ≡ [] }
{
    let answer = follows_once_falsified(root, assignment, variables, step);
    assignment.undo_to(0);
    answer
}

/// Whether it may follow, where nothing is set. The literals that it sets stay.
fn follows_once_falsified(
    root: &Propagator,
    assignment: &mut Assignment,
    variables: &Variables,
    step: &Step,
) -> bool
    requires numbering { IsNumbering variables.now }
    requires within { All (IsWithin (width variables.now)) root.now.clauses }
    requires width { width variables.now ≤ assignment.old.width }
    requires nothing_set { assignment.old.trail ≡ [] }
    ensures answer { IsTrue result ↔ FollowsAmong variables.now root.now.clauses step.now }
    ensures width { assignment.new.width ≡ assignment.old.width }
{
    let clause = step.clause.as_slice();
    let hints = step.hints.as_slice();
    if !falsify(assignment, variables, clause) {
        return false;
    }
    hints_conflict(root, assignment, hints)
}

/// Sets the literals of the clause false; false where one is of another variable, or a variable stands twice.
fn falsify(assignment: &mut Assignment, variables: &Variables, clause: &[Lit]) -> bool
    requires numbering { IsNumbering variables.now }
    requires width { width variables.now ≤ assignment.old.width }
    requires nothing_set { assignment.old.trail ≡ [] }
    ensures answer { IsTrue result ↔ IsApartAmong variables.now clause.now }
    ensures trail { OnTrue result
        (external_clause variables.now assignment.new.trail ≡ map negation clause.now) }
    ensures within { OnTrue result (IsWithin (width variables.now) assignment.new.trail) }
    ensures width { assignment.new.width ≡ assignment.old.width }
{
    for l in clause {
        let Some(l) = variables.internal(*l) else {
            return false;
        };
        if !decide_one(assignment, !l) {
            return false;
        }
    }
    true
}

/// Sets the literal; false where its variable was set before.
fn decide_one(assignment: &mut Assignment, l: Lit) -> bool
    requires within { l.var < assignment.old.width }
    requires apart { IsApart assignment.old.trail }
    ensures answer { IsTrue result ↔ IsApart (assignment.old.trail ++ l ∷ []) }
    ensures trail { OnTrue result (assignment.new.trail ≡ assignment.old.trail ++ l ∷ []) }
    ensures width { assignment.new.width ≡ assignment.old.width }
{
    if let Truth::Open = assignment.value(l) {
        assignment.set(l, Cause::decided());
        return true;
    }
    false
}

/// Whether the hints conflict after the literals of the assignment, which may get more of them.
fn hints_conflict(root: &Propagator, assignment: &mut Assignment, hints: &[u32]) -> bool
    requires { All (IsWithin assignment.old.width) root.now.clauses }
    ensures answer { IsTrue result ↔ HintsConflict root.now.clauses assignment.old.trail hints.now }
    ensures width { assignment.new.width ≡ assignment.old.width }
{
    for hint in hints {
        match hint_state(root, *hint, assignment) {
            ClauseState::Falsified => return true,
            ClauseState::Unit(l) => assignment.set(l, Cause::implied(*hint as usize)),
            ClauseState::Other => return false,
        }
    }
    false
}

fn hint_state(root: &Propagator, number: u32, assignment: &Assignment) -> ClauseState
    requires { All (IsWithin assignment.now.width) root.now.clauses }
    ensures { IsHintState root.now.clauses assignment.now.trail number result }
{
    let Some(index) = (number as usize).checked_sub(1) else {
        return ClauseState::Other;
    };
    if index < root.clause_count() {
        ClauseState::of(root.literals(index), assignment)
    } else {
        ClauseState::Other
    }
}
