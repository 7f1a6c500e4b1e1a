//! The propagator: clauses, the literals that were decided, and what follows from them.

ghost use Rattle.std.specs.Prelude.{◌≡◌, ◌<◌, ◌≤◌, ◌^◌, ◌++◌, ◌∷◌, ℕ, [], Some, All, IfSome, IfNone, OnOk, OnErr, length, slice_get, slice_index_or};
ghost use Rattle.cnf_core.specs.Propagation.{Conflicts};
ghost use Rattle.unit_propagation.specs.Trail.{IsJustified};
ghost use Rattle.unit_propagation.specs.Units.{IsOpen, IsWithin, IsConsistent};
ghost use Rattle.unit_propagation.specs.Assigned.{StandsAs};
ghost use Rattle.unit_propagation.specs.Propagated.{IsFalseClause};
ghost use Rattle.unit_propagation.specs.Propagation.{decisions, with_clause, with_decision, undone, Continues, ExplainsPlace, IsEnd};
ghost use Rattle.unit_propagation.specs.Propagation.{FollowsAs, IsFull, IsSatisfiedIfTotal};

use crate::assignment::{Assignment, Cause, Truth};
use crate::choice::Choice;
use crate::lit_code::{LitCode, codes};
use crate::loose::{LooseClauses, note_loose, set_loose};
use crate::propagation::run;
use crate::watched_clauses::WatchedClauses;
use cnf_core::{Clause, Lit};
use std::alloc::{AllocError, Global};
use std::marker::Model;

/// Clauses over variables below `width`, and an assignment: literals that were decided, and those that propagation
/// set, each with its reason. Only `grow` and `add_clause` take memory.
#[derive(Drop)]
pub struct Propagator {
    alloc: Global,
    watched: WatchedClauses,
    assignment: Assignment,
    loose: LooseClauses,
    head: usize,
}

impl Model for Propagator {
    ghost use Rattle.unit_propagation.specs.Propagation.{Propagation};

    ghost Value = { Propagation };

    ghost use Rattle.unit_propagation.specs.PropagatorFields.{IsPropagator, propagation_of};

    ghost view = { propagation_of };

    ghost invariant = { IsPropagator };
}

impl Propagator {
    /// No clauses over no variables, and nothing set.
    pub fn new(alloc: Global) -> Propagator
        ensures width { result.width ≡ 0 }
        ensures clauses { result.clauses ≡ [] }
        ensures trail { result.trail ≡ [] }
    {
        Propagator {
            alloc,
            watched: WatchedClauses::new(alloc),
            assignment: Assignment::new(alloc),
            loose: LooseClauses::new(alloc),
            head: 0,
        }
    }

    /// Makes room for variables below `width`.
    pub fn grow(&mut self, width: usize) -> Result<(), AllocError>
        requires { width < 2 ^ 62 }
        ensures grown { OnOk result (width ≤ self.new.width) }
        ensures keeps { self.old.width ≤ self.new.width }
        ensures most { (n : ℕ) → self.old.width ≤ n → width ≤ n → self.new.width ≤ n }
        ensures clauses { self.new.clauses ≡ self.old.clauses }
        ensures trail { self.new.trail ≡ self.old.trail }
        ensures reasons { self.new.reasons ≡ self.old.reasons }
    {
        self.assignment.grow(width)?;
        self.watched.grow(width)
    }

    /// Adds the clause at the end, whatever is set. `propagate` then goes on from it too, and begins again no earlier than
    /// where the clause became a unit or false.
    pub fn add_clause(&mut self, clause: Clause) -> Result<(), AllocError>
        requires { IsWithin self.old.width clause }
        ensures added { OnOk result (self.new ≡ with_clause self.old clause) }
        ensures kept { OnErr result (self.new ≡ self.old) }
    {
        let clause = codes(self.alloc, clause.as_slice())?;
        let choice = Choice::of(clause.as_slice(), &self.assignment);
        self.loose.numbers.reserve(1)?;
        let number = self.watched.clause_count();
        self.watched.add(clause.as_slice(), &choice.pair)?;
        note_loose(&mut self.loose.numbers, &choice.pair, number);
        self.assignment.forget_ends(choice.place);
        self.head = self.head.min(choice.place);
        Ok(())
    }

    /// Decides an open literal.
    pub fn decide(&mut self, l: Lit)
        requires within { l.var < self.old.width }
        requires is_open { IsOpen self.old.trail l }
        ensures decided { self.new ≡ with_decision self.old l }
        ensures decisions { decisions self.new ≡ decisions self.old ++ l ∷ [] }
    {
        let ended = self.head == self.assignment.count();
        self.assignment.set(
            l,
            Cause {
                reason: None,
                ended,
            },
        );
    }

    /// Sets what follows from the decided literals; the number of a false clause (from 0), where there is one.
    pub fn propagate(&mut self) -> Option<usize>
        ensures continues { Continues self.old self.new }
        ensures conflict { IfSome result (λ c. IsFalseClause self.new.clauses self.new.trail c) }
        ensures conflicts { IfSome result (λ _. Conflicts self.old.clauses (decisions self.old)) }
        ensures all_set { IfNone result (IsFull self.old self.new) }
        ensures satisfied { IfNone result (IsSatisfiedIfTotal self.new) }
        ensures none { IfNone result (¬ Conflicts self.old.clauses (decisions self.old)) }
    {
        // It tells that the lists are whole.
        let _count = self.watched.clause_count();
        if let Some(clause) = set_loose(&self.watched, &mut self.assignment, &mut self.loose) {
            return Some(clause);
        }
        run(&mut self.watched, &mut self.assignment, &mut self.head)
    }

    /// Takes back what was set from that place of the trail on. It is quickest where propagation had ended there.
    pub fn undo_to(&mut self, place: usize)
        ensures { self.new ≡ undone self.old place }
    {
        if place < self.assignment.count() {
            self.loose.undo_to(place);
            self.head = last_end(&self.assignment, place);
            self.assignment.undo_to(place);
        }
    }

    /// Variable numbers are below it.
    pub fn width(&self) -> usize
        ensures { result ≡ self.now.width }
    {
        self.watched.width()
    }

    /// How many clauses were added.
    pub fn clause_count(&self) -> usize
        ensures { result ≡ length self.now.clauses }
    {
        self.watched.clause_count()
    }

    /// The literals of the clause of that number, from 0 in the order in which the clauses were added.
    pub fn literals(&self, clause: usize) -> &[LitCode]
        requires { clause < length self.now.clauses }
        ensures are { result.now ≡ slice_index_or self.now.clauses clause [] }
        ensures within { IsWithin self.now.width result.now }
    {
        self.watched.literals(clause)
    }

    /// How the literal stands.
    pub fn value(&self, l: Lit) -> Truth
        requires { l.var < self.now.width }
        ensures stands { StandsAs self.now.trail l result }
        ensures follows { FollowsAs self.now l result }
    {
        self.assignment.value(l)
    }

    /// How many literals are set: a place to which `undo_to` can go back.
    pub fn count(&self) -> usize
        ensures trail { result ≡ length self.now.trail }
        ensures reasons { result ≡ length self.now.reasons }
        ensures consistent { IsConsistent self.now.trail }
        ensures justified { IsJustified self.now.clauses self.now.trail self.now.reasons }
    {
        self.assignment.count()
    }

    /// The literal at that place of the trail.
    pub fn nth(&self, place: usize) -> Lit
        requires { place < length self.now.trail }
        ensures { slice_get self.now.trail place ≡ Some result }
    {
        self.assignment.nth(place)
    }

    /// The number of the clause that set the literal at that place, and none where it was decided.
    pub fn reason(&self, place: usize) -> Option<usize>
        requires { place < length self.now.trail }
        ensures is { slice_get self.now.reasons place ≡ Some result }
        ensures explains { IfSome result (λ c. ExplainsPlace self.now place c) }
    {
        self.assignment.cause(place).reason
    }
}

/// The last place up to this one at which propagation had ended, or the start.
fn last_end(assignment: &Assignment, place: usize) -> usize
    requires { place < length assignment.now.trail }
    ensures { IsEnd assignment.now.causes place result }
{
    let mut end = place;
    while end > 0 {
        if assignment.cause(end).ended {
            return end;
        }
        end -= 1;
    }
    0
}
