//! Clauses without two different literals: their literal is set, as soon as propagation begins, and they are looked at
//! again only after it was taken back.

ghost use Rattle.std.specs.Prelude.{◌≡◌, ◌<◌, ◌≤◌, [], IfSome, IfNone, vec_len, vec_capacity};
ghost use Rattle.std.specs.Bool.{OnTrue, OnFalse};
ghost use Rattle.unit_propagation.specs.Ready.{Implied};
ghost use Rattle.unit_propagation.specs.Loose.{IsLoose, AreLoose, AreTrue, HasTrue, IsFalsified, NotesLoose, IsSettled, StaysSettled};
ghost use Rattle.unit_propagation.specs.Propagated.{IsFalseClause};

use crate::assignment::{Assignment, Cause, Truth};
use crate::pair::Pair;
use crate::watched_clauses::WatchedClauses;
use std::alloc::Global;

/// The numbers of the clauses. Those before `settled` have a true literal among the first `reach` of the trail.
#[derive(Drop)]
pub struct LooseClauses {
    pub numbers: Vec<usize>,
    pub settled: usize,
    pub reach: usize,
}

impl LooseClauses {
    /// None.
    pub fn new(alloc: Global) -> LooseClauses
        ensures numbers { result.numbers.items ≡ [] }
        ensures settled { result.settled ≡ 0 }
        ensures reach { result.reach ≡ 0 }
    {
        LooseClauses {
            numbers: Vec::new(alloc),
            settled: 0,
            reach: 0,
        }
    }

    /// The trail is taken back to a place.
    pub fn undo_to(&mut self, place: usize)
        ensures numbers { self.new.numbers ≡ self.old.numbers }
        ensures settled { StaysSettled self.old self.new place }
    {
        if place < self.reach {
            self.settled = 0;
            self.reach = 0;
        }
    }
}

/// Sets the literals of the clauses that were not settled; the number of a false one, where there is one.
pub fn set_loose(
    watched: &WatchedClauses,
    assignment: &mut Assignment,
    loose: &mut LooseClauses,
) -> Option<usize>
    requires width { watched.now.width ≤ assignment.old.width }
    requires loose { AreLoose watched.now.clauses loose.old.numbers.items }
    requires settled { IsSettled watched.now.clauses assignment.old.trail loose.old }
    ensures width { assignment.new.width ≡ assignment.old.width }
    ensures numbers { loose.new.numbers ≡ loose.old.numbers }
    ensures implies { Implied watched.now.clauses assignment.old assignment.new }
    ensures settled { IsSettled watched.now.clauses assignment.new.trail loose.new }
    ensures falsified { IfSome result
        (λ c. IsFalseClause watched.now.clauses assignment.new.trail c) }
    ensures are_true { IfNone result
        (AreTrue watched.now.clauses loose.new.numbers.items assignment.new.trail) }
{
    while loose.settled < loose.numbers.len() {
        let number = loose.numbers[loose.settled];
        if is_falsified(watched, assignment, number) {
            return Some(number);
        }
        loose.settled += 1;
        loose.reach = assignment.count();
    }
    None
}

/// Sets the literal of the clause, if it is open, and says whether the clause is false.
fn is_falsified(watched: &WatchedClauses, assignment: &mut Assignment, number: usize) -> bool
    requires width { watched.now.width ≤ assignment.old.width }
    requires loose { IsLoose watched.now.clauses number }
    ensures width { assignment.new.width ≡ assignment.old.width }
    ensures implies { Implied watched.now.clauses assignment.old assignment.new }
    ensures falsified { OnTrue result
        (IsFalsified watched.now.clauses assignment.new.trail number) }
    ensures is_true { OnFalse result (HasTrue watched.now.clauses assignment.new.trail number) }
{
    let Some(l) = watched.literals(number).first() else {
        return true;
    };
    match assignment.value(l.lit()) {
        Truth::True => false,
        Truth::False => true,
        Truth::Open => {
            assignment.set(
                l.lit(),
                Cause {
                    reason: Some(number),
                    ended: false,
                },
            );
            false
        }
    }
}

/// Adds the clause to those without two different literals, if it is one. There is room.
pub fn note_loose(loose: &mut Vec<usize>, pair: &Pair, number: usize)
    requires { vec_len loose.old < vec_capacity loose.old }
    ensures { NotesLoose pair.now number loose.old.items loose.new.items }
{
    if !pair.is_watched() {
        loose.push_reserved(number);
    }
}
