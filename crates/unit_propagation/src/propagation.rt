//! Propagation along the trail: a clause whose watched literal is falsified looks for another one to watch, and where
//! there is none it sets its other watched literal or is false.

ghost use Rattle.std.specs.Prelude.{◌≡◌, ◌≢◌, ◌<◌, ◌≤◌, ◌↔◌, All, IsTrue, IfSome, IfNone, length};
ghost use Rattle.unit_propagation.specs.Units.{IsFalse, IsFree, IsWithin, IsConsistent};
ghost use Rattle.unit_propagation.specs.Watching.{list_at};
ghost use Rattle.unit_propagation.specs.Ready.{KeepsAll, Implied, IsSeen, IsWhole, ReadyTo, ReadyPast};
ghost use Rattle.unit_propagation.specs.Propagated.{IsFalseClause};

use crate::assignment::{Assignment, Cause, Truth};
use crate::lit_code::LitCode;
use crate::watched_clauses::WatchedClauses;
use cnf_core::Lit;

/// What became of a clause whose watched literal is falsified.
#[derive(Clone, Copy, Debug)]
pub enum Seen {
    /// It is watched as before.
    Kept,
    /// It watches another literal in place of the falsified one.
    Moved,
    /// All its literals are falsified.
    Falsified,
}

/// Looks at the clauses that watch what the trail falsifies from the head on; the number of a false one, where there is
/// one. The head moves past each literal whose clauses were all looked at.
pub fn run(
    watched: &mut WatchedClauses,
    assignment: &mut Assignment,
    head: &mut usize,
) -> Option<usize>
    requires width { watched.old.width ≤ assignment.old.width }
    requires head { head.old ≤ length assignment.old.trail }
    requires ready { ReadyTo watched.old.clauses watched.old.pairs assignment.old.trail head.old }
    requires indexed { IsWhole watched.old }
    ensures width { watched.new.width ≡ watched.old.width }
    ensures assignment_width { assignment.new.width ≡ assignment.old.width }
    ensures clauses { watched.new.clauses ≡ watched.old.clauses }
    ensures implies { Implied watched.old.clauses assignment.old assignment.new }
    ensures keeps { KeepsAll watched.old watched.new assignment.old.trail }
    ensures ready { ReadyTo watched.old.clauses watched.new.pairs assignment.new.trail head.new }
    ensures head { head.new ≤ length assignment.new.trail }
    ensures ended { IfNone result (head.new ≡ length assignment.new.trail) }
    ensures falsified { IfSome result
        (λ c. IsFalseClause watched.old.clauses assignment.new.trail c) }
    ensures indexed { IfNone result (IsWhole watched.new) }
    ensures consistent { IfNone result (IsConsistent assignment.new.trail) }
{
    while *head < assignment.count() {
        if let Some(clause) = visit(watched, assignment, *head) {
            return Some(clause);
        }
        *head += 1;
    }
    None
}

/// Looks at the clauses that watch what the literal at that place falsifies; the number of a false one, where there is
/// one.
fn visit(watched: &mut WatchedClauses, assignment: &mut Assignment, head: usize) -> Option<usize>
    requires width { watched.old.width ≤ assignment.old.width }
    requires head { head < length assignment.old.trail }
    requires ready { ReadyTo watched.old.clauses watched.old.pairs assignment.old.trail head }
    ensures width { watched.new.width ≡ watched.old.width }
    ensures assignment_width { assignment.new.width ≡ assignment.old.width }
    ensures clauses { watched.new.clauses ≡ watched.old.clauses }
    ensures implies { Implied watched.old.clauses assignment.old assignment.new }
    ensures keeps { KeepsAll watched.old watched.new assignment.old.trail }
    ensures ready { ReadyTo watched.old.clauses watched.new.pairs assignment.new.trail head }
    ensures next { IfNone result (ReadyPast watched.old watched.new assignment.new.trail head) }
    ensures falsified { IfSome result
        (λ c. IsFalseClause watched.old.clauses assignment.new.trail c) }
    ensures indexed { IfNone result (IsWhole watched.new) }
{
    let falsified = !assignment.nth(head);
    if watched.width() <= falsified.var as usize {
        return None;
    }
    let mut place = 0;
    while place < watched.count(falsified) {
        let clause = watched.nth(falsified, place);
        match step(watched, assignment, falsified, place) {
            Seen::Kept => place += 1,
            Seen::Moved => (),
            Seen::Falsified => return Some(clause),
        }
    }
    None
}

/// Looks at the clause at that place of the falsified literal's list.
fn step(
    watched: &mut WatchedClauses,
    assignment: &mut Assignment,
    falsified: Lit,
    place: usize,
) -> Seen
    requires width { watched.old.width ≤ assignment.old.width }
    requires within { falsified.var < watched.old.width }
    requires inside { place < length (list_at watched.old.lists falsified) }
    requires falsified { IsFalse assignment.old.trail falsified }
    ensures seen { IsSeen watched.old watched.new assignment.old assignment.new
        falsified place result }
    ensures assignment_width { assignment.new.width ≡ assignment.old.width }
{
    let number = watched.nth(falsified, place);
    let Some(other) = watched.pair(number).other(falsified) else {
        return Seen::Kept;
    };
    let truth = assignment.value(other.lit());
    if let Truth::True = truth {
        return Seen::Kept;
    }
    if let Some(to) = find_other(watched.literals(number), other, assignment) {
        watched.rewatch(number, falsified, place, other, to);
        return Seen::Moved;
    }
    if let Truth::False = truth {
        return Seen::Falsified;
    }
    assignment.set(
        other.lit(),
        Cause {
            reason: Some(number),
            ended: false,
        },
    );
    Seen::Kept
}

/// A literal of the clause beside this one that is not false.
pub fn find_other(clause: &[LitCode], other: LitCode, assignment: &Assignment) -> Option<LitCode>
    requires { IsWithin assignment.now.width clause.now }
    ensures found { IfSome result (λ l. IsFree assignment.now.trail clause.now other l) }
    ensures none { IfNone result
        (All (λ k. k ≢ other → IsFalse assignment.now.trail k) clause.now) }
{
    for l in clause {
        if *l != other && !is_false(assignment, *l) {
            return Some(*l);
        }
    }
    None
}

/// Whether the literal's negation is set.
pub fn is_false(assignment: &Assignment, l: LitCode) -> bool
    requires { l.var < assignment.now.width }
    ensures { IsTrue result ↔ IsFalse assignment.now.trail l }
{
    matches!(assignment.value(l.lit()), Truth::False)
}
