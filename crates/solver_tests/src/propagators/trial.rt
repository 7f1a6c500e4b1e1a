//! A propagator, and beside it the sets of its clauses.
ghost use Rattle.std.specs.Prelude.{◌<◌, ◌↔◌, IsTrue, All};

use crate::signed::{Set, VARIABLES, propagate};
use cnf_core::{Clause, Lit};
use std::alloc::{AllocError, Global};
use std::test::Fail;
use unit_propagation::{Propagator, Truth};

#[derive(Drop)]
pub struct Trial {
    alloc: Global,
    propagator: Propagator,
    clauses: Vec<Set>,
}

impl Trial {
    pub fn new(alloc: Global) -> Trial {
        Trial {
            alloc,
            propagator: Propagator::new(alloc),
            clauses: Vec::new(alloc),
        }
    }

    pub fn alloc(&self) -> Global {
        self.alloc
    }

    /// Makes room, for up to a million variables.
    pub fn grow(&mut self, width: usize) -> Result<(), AllocError> {
        self.propagator.grow(width.min(1_000_000))
    }

    pub fn width(&self) -> usize {
        self.propagator.width()
    }

    /// How many literals are set.
    pub fn count(&self) -> usize {
        self.propagator.count()
    }

    /// Adds the clause, where there is room for its variables.
    pub fn add(&mut self, clause: Clause) -> Result<bool, Fail> {
        let width = self.propagator.width();
        if !is_within(clause.as_slice(), width) {
            return Ok(false);
        }
        self.clauses.push(Set::of_literals(clause.as_slice()))?;
        self.propagator.add_clause(clause)?;
        Ok(true)
    }

    /// Decides the literal, where it is open.
    pub fn decide(&mut self, l: Lit) -> bool {
        if self.propagator.width() <= l.var as usize {
            return false;
        }
        match self.propagator.value(l) {
            Truth::Open => {
                self.propagator.decide(l);
                true
            }
            Truth::True | Truth::False => false,
        }
    }

    pub fn propagate(&mut self) -> Option<usize> {
        self.propagator.propagate()
    }

    pub fn undo_to(&mut self, place: usize) {
        self.propagator.undo_to(place);
    }

    /// The literals that are set, with their reasons.
    pub fn trail(&self) -> Result<Vec<(Lit, Option<usize>)>, AllocError> {
        let mut trail = Vec::new(self.alloc);
        for place in 0..self.propagator.count() {
            trail.push((self.propagator.nth(place), self.propagator.reason(place)))?;
        }
        Ok(trail)
    }

    /// Whether the propagator has the clauses that were added.
    pub fn has_its_clauses(&self) -> bool {
        let count = self.propagator.clause_count();
        if count != self.clauses.len() {
            return false;
        }
        for number in 0..count {
            if Set::of_codes(self.propagator.literals(number)) != self.clauses[number] {
                return false;
            }
        }
        true
    }

    /// Whether each literal stands as the trail says.
    pub fn has_values(&self) -> bool {
        let set = self.set();
        for var in 0..VARIABLES {
            let l = Lit {
                var,
                positive: true,
            };
            if self.propagator.width() <= l.var as usize {
                break;
            }
            let one = Set::EMPTY.with(l);
            let right = match self.propagator.value(l) {
                Truth::True => set.meets(one),
                Truth::False => set.meets(one.negated()),
                Truth::Open => !set.meets(one.joined(one.negated())),
            };
            if !right {
                return false;
            }
        }
        true
    }

    /// Propagates, and says whether it conflicts, or nothing where that or what it sets differs from propagation by
    /// passes.
    pub fn compare(&mut self) -> Result<Option<bool>, AllocError> {
        let decided = self.decided();
        let mut used = Vec::new(self.alloc);
        let right = propagate(self.clauses.as_slice(), decided, &mut used)?;
        let same = match self.propagator.propagate() {
            Some(number) => right.conflicts && self.is_false(number),
            None => !right.conflicts && self.set() == right.set,
        };
        if same && self.decided() == decided && self.is_explained() && self.has_values() {
            Ok(Some(right.conflicts))
        } else {
            Ok(None)
        }
    }

    /// The literals that are set.
    fn set(&self) -> Set {
        let mut set = Set::EMPTY;
        for place in 0..self.propagator.count() {
            set = set.with(self.propagator.nth(place));
        }
        set
    }

    /// The literals that were decided.
    fn decided(&self) -> Set {
        let mut set = Set::EMPTY;
        for place in 0..self.propagator.count() {
            if self.propagator.reason(place).is_none() {
                set = set.with(self.propagator.nth(place));
            }
        }
        set
    }

    /// Whether each literal of the clause is false.
    fn is_false(&self, number: usize) -> bool {
        match self.clauses.get(number) {
            Some(clause) => clause.without(self.set().negated()) == Set::EMPTY,
            None => false,
        }
    }

    /// Whether each literal that was not decided is the only one of its reason that those before it leave.
    fn is_explained(&self) -> bool {
        let mut before = Set::EMPTY;
        for place in 0..self.propagator.count() {
            let one = Set::EMPTY.with(self.propagator.nth(place));
            if before.meets(one.joined(one.negated())) {
                return false;
            }
            if let Some(number) = self.propagator.reason(place)
                && !self.leaves(number, before, one)
            {
                return false;
            }
            before = before.joined(one);
        }
        true
    }

    /// Whether the clause's literals that are not false are these.
    fn leaves(&self, number: usize, before: Set, open: Set) -> bool {
        match self.clauses.get(number) {
            Some(clause) => clause.without(before.negated()) == open,
            None => false,
        }
    }
}

fn is_within(lits: &[Lit], width: usize) -> bool
    ensures { IsTrue result ↔ All (λ l. l.var < width) lits.now }
{
    lits.iter().all(|l| (l.var as usize) < width)
}
