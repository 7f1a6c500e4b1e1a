//! The assignment: the truth of each variable, and the trail of the literals that were set, each with its cause.

ghost use Rattle.std.specs.Prelude.{◌≡◌, ◌<◌, ◌≤◌, ◌++◌, ◌∷◌, [], Some, None, length, slice_get, take, false, Contains, OnOk, vec_capacity};
ghost use Rattle.unit_propagation.specs.Units.{IsOpen, IsConsistent};
ghost use Rattle.unit_propagation.specs.Assigned.{StandsAs};
ghost use Rattle.unit_propagation.specs.Trail.{reasons_of, EndsUpTo};

use cnf_core::Lit;
use std::alloc::{AllocError, Global};
use std::marker::Model;

/// How a literal, or a variable, stands.
#[derive(Clone, Copy, Debug)]
pub enum Truth {
    Open,
    True,
    False,
}

impl From<bool> for Truth {
    ghost use Rattle.std.specs.Prelude.{◌≡◌};
    ghost use Rattle.unit_propagation.specs.Assigned.{truth_of};

    ghost from_gives = { λ positive truth. truth ≡ truth_of positive };

    fn from(positive: bool) -> Truth {
        if positive { Truth::True } else { Truth::False }
    }
}

/// Why a literal is set: by the clause of that number, or it was decided. `ended` says that propagation had
/// ended just before.
#[derive(Clone, Copy, Debug)]
pub struct Cause {
    pub reason: Option<usize>,
    pub ended: bool,
}

impl Cause {
    /// Decided.
    pub fn decided() -> Cause
        ensures reason { result.reason ≡ None }
        ensures ended { result.ended ≡ false }
    {
        Cause {
            reason: None,
            ended: false,
        }
    }

    /// Implied by the clause of that number.
    pub fn implied(clause: usize) -> Cause
        ensures reason { result.reason ≡ Some clause }
        ensures ended { result.ended ≡ false }
    {
        Cause {
            reason: Some(clause),
            ended: false,
        }
    }
}

/// Variables below `width` with the literals set so far, in order. Only `new` and `grow` take memory.
#[derive(Drop)]
pub struct Assignment {
    values: Vec<Truth>,
    trail: Vec<Lit>,
    causes: Vec<Cause>,
}

impl Model for Assignment {
    ghost use Rattle.unit_propagation.specs.Assigned.{Assigned};

    ghost Value = { Assigned };

    ghost use Rattle.unit_propagation.specs.Fields.{IsAssignment, assigned_of};

    ghost view = { assigned_of };

    ghost invariant = { IsAssignment };
}

impl Assignment {
    /// An assignment of no variables.
    pub fn new(alloc: Global) -> Assignment
        ensures width { result.width ≡ 0 }
        ensures trail { result.trail ≡ [] }
        ensures causes { result.causes ≡ [] }
    {
        Assignment {
            values: Vec::new(alloc),
            trail: Vec::new(alloc),
            causes: Vec::new(alloc),
        }
    }

    /// Makes room for variables below `width`, which are open.
    pub fn grow(&mut self, width: usize) -> Result<(), AllocError>
        ensures grown { OnOk result (width ≤ self.new.width) }
        ensures keeps { self.old.width ≤ self.new.width }
        ensures trail { self.new.trail ≡ self.old.trail }
        ensures causes { self.new.causes ≡ self.old.causes }
    {
        let more = width.saturating_sub(self.values.len());
        self.trail.reserve(more + self.values.len())?;
        self.causes.reserve(more + self.values.len())?;
        self.values.reserve(more)?;
        for _ in 0..more {
            self.values.push(Truth::Open)?;
        }
        Ok(())
    }

    pub fn value(&self, l: Lit) -> Truth
        requires { l.var < self.now.width }
        ensures { StandsAs self.now.trail l result }
    {
        match (self.values[l.var as usize], l.positive) {
            (Truth::Open, _) => Truth::Open,
            (Truth::True, true) | (Truth::False, false) => Truth::True,
            (Truth::True, false) | (Truth::False, true) => Truth::False,
        }
    }

    /// How many literals are set.
    pub fn count(&self) -> usize
        ensures count { result ≡ length self.now.trail }
        ensures within { result ≤ self.now.width }
        ensures causes { result ≡ length self.now.causes }
        ensures consistent { IsConsistent self.now.trail }
    {
        self.trail.len()
    }

    /// The literal that was set at that place of the trail.
    pub fn nth(&self, place: usize) -> Lit
        requires { place < length self.now.trail }
        ensures is { slice_get self.now.trail place ≡ Some result }
        ensures within { result.var < self.now.width }
        ensures fresh { ¬ Contains (take place self.now.trail) result }
    {
        self.trail[place]
    }

    /// Why the literal at that place is set.
    pub fn cause(&self, place: usize) -> Cause
        requires { place < length self.now.trail }
        ensures { slice_get self.now.causes place ≡ Some result }
    {
        self.causes[place]
    }

    pub fn set(&mut self, l: Lit, cause: Cause)
        requires inside { l.var < self.old.width }
        requires is_open { IsOpen self.old.trail l }
        ensures width { self.new.width ≡ self.old.width }
        ensures trail { self.new.trail ≡ self.old.trail ++ l ∷ [] }
        ensures causes { self.new.causes ≡ self.old.causes ++ cause ∷ [] }
        ensures fits { length self.new.trail ≤ self.new.width }
    {
        self.values[l.var as usize] = Truth::from(l.positive);
        if let Err(_) = self.trail.push(l) {
            unreachable!()
        }
        if let Err(_) = self.causes.push(cause) {
            unreachable!()
        }
    }

    /// Opens the variables of the literals from a place on.
    pub fn undo_to(&mut self, place: usize)
        ensures width { self.new.width ≡ self.old.width }
        ensures trail { self.new.trail ≡ take place self.old.trail }
        ensures causes { self.new.causes ≡ take place self.old.causes }
    {
        while self.trail.len() > place {
            if let Some(l) = self.trail.pop() {
                self.values[l.var as usize] = Truth::Open;
            }
        }
        self.causes.truncate(place);
    }

    /// Forgets where propagation had ended behind a place.
    pub fn forget_ends(&mut self, place: usize)
        ensures width { self.new.width ≡ self.old.width }
        ensures trail { self.new.trail ≡ self.old.trail }
        ensures reasons { reasons_of self.new.causes ≡ reasons_of self.old.causes }
        ensures ends { EndsUpTo place self.old.causes self.new.causes }
    {
        forget(&mut self.causes, place);
    }
}

fn forget(causes: &mut Vec<Cause>, place: usize)
    ensures reasons { reasons_of causes.new.items ≡ reasons_of causes.old.items }
    ensures ends { EndsUpTo place causes.old.items causes.new.items }
    ensures capacity { vec_capacity causes.new ≡ vec_capacity causes.old }
{
    for behind in place.saturating_add(1)..causes.len() {
        causes[behind].ended = false;
    }
}
