//! Deciding literals of a cube: one, with what follows from it, or several at once.

ghost use Rattle.std.specs.Prelude.{◌≡◌, ◌<◌, ◌++◌, ◌⊎◌, IsTrue};
ghost use Rattle.std.specs.Bool.{OnTrue, OnFalse};
ghost use Rattle.cnf_core.specs.Propagation.{Conflicts};
ghost use Rattle.unit_propagation.specs.Units.{IsWithin};
ghost use Rattle.unit_propagation.specs.Propagation.{decisions, IsFull, Extends};
ghost use Rattle.refutation_checker.specs.Deciding.{Decides, HasSet};

use cnf_core::Lit;
use unit_propagation::{Propagator, Truth};

/// What came of deciding a literal.
#[derive(Clone, Copy, Debug)]
pub enum Decision {
    /// Its variable was set before.
    Refused,
    /// Propagation conflicts.
    Conflict,
    /// Propagation does not conflict, and what follows is set.
    Full,
}

/// Decides the literal, if it is open, and propagates.
pub fn decide_next(root: &mut Propagator, l: Lit) -> Decision
    requires within { l.var < root.old.width }
    requires full { IsFull root.old root.old }
    ensures extends { Extends root.old root.new }
    ensures decides { Decides root.old root.new l result }
{
    match root.value(l) {
        Truth::Open => (),
        Truth::True | Truth::False => return Decision::Refused,
    }
    root.decide(l);
    match root.propagate() {
        Some(_) => Decision::Conflict,
        None => Decision::Full,
    }
}

/// Whether propagation conflicts with these literals decided too, or the variable of one was set before.
pub fn conflicts_with(root: &mut Propagator, lits: &[Lit]) -> bool
    requires { IsWithin root.old.width lits.now }
    ensures extends { Extends root.old root.new }
    ensures conflicts { IsTrue result → HasSet root.old.clauses (decisions root.old) lits.now
        ⊎ Conflicts root.old.clauses (decisions root.old ++ lits.now) }
    ensures none { OnFalse result (¬ Conflicts root.old.clauses (decisions root.old ++ lits.now)) }
{
    if !decide_all(root, lits) {
        return true;
    }
    match root.propagate() {
        Some(_) => true,
        None => false,
    }
}

/// Decides the literals in order; false where the variable of one was set before.
fn decide_all(root: &mut Propagator, lits: &[Lit]) -> bool
    requires { IsWithin root.old.width lits.now }
    ensures extends { Extends root.old root.new }
    ensures decided { OnTrue result (decisions root.new ≡ decisions root.old ++ lits.now) }
    ensures refused { OnFalse result (HasSet root.old.clauses (decisions root.old) lits.now) }
{
    for l in lits {
        match root.value(*l) {
            Truth::Open => root.decide(*l),
            Truth::True | Truth::False => return false,
        }
    }
    true
}
