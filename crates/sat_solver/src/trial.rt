//! Whether literals conflict, tried on top of those that are decided.

ghost use Rattle.std.specs.Prelude.{◌≡◌, ◌<◌, ◌++◌, ◌∷◌, ◌↔◌, [], IsTrue};
ghost use Rattle.std.specs.Bool.{OnTrue, OnFalse};
ghost use Rattle.cnf_core.specs.Propagation.{Conflicts};
ghost use Rattle.unit_propagation.specs.Units.{IsWithin, IsConsistent};
ghost use Rattle.unit_propagation.specs.Propagation.{decisions, IsRefuted, Extends};
ghost use Rattle.sat_solver.specs.Reducing.{StandsFor};

use cnf_core::Lit;
use unit_propagation::{Propagator, Truth};

/// Whether propagation conflicts with these literals decided too. What was set is as before.
pub fn conflicts_with(solver: &mut Propagator, lits: &[Lit]) -> bool
    requires within { IsWithin solver.old.width lits.now }
    requires consistent { IsConsistent (decisions solver.old ++ lits.now) }
    ensures answer { IsTrue result
        ↔ Conflicts solver.old.clauses (decisions solver.old ++ lits.now) }
    ensures stays { solver.new ≡ solver.old }
{
    let level = solver.count();
    let answer = conflicts_above(solver, lits);
    solver.undo_to(level);
    answer
}

fn conflicts_above(solver: &mut Propagator, lits: &[Lit]) -> bool
    requires within { IsWithin solver.old.width lits.now }
    requires consistent { IsConsistent (decisions solver.old ++ lits.now) }
    ensures extends { Extends solver.old solver.new }
    ensures answer { IsTrue result
        ↔ Conflicts solver.old.clauses (decisions solver.old ++ lits.now) }
{
    if !decide_each(solver, lits) {
        return true;
    }
    match solver.propagate() {
        Some(_) => true,
        None => false,
    }
}

/// Decides the literals that are not set; false where they conflict.
fn decide_each(solver: &mut Propagator, lits: &[Lit]) -> bool
    requires within { IsWithin solver.old.width lits.now }
    requires consistent { IsConsistent (decisions solver.old ++ lits.now) }
    ensures extends { Extends solver.old solver.new }
    ensures decided { OnTrue result
        (StandsFor solver.old.clauses (decisions solver.new) (decisions solver.old ++ lits.now)) }
    ensures conflict { OnFalse result
        (Conflicts solver.old.clauses (decisions solver.old ++ lits.now)) }
{
    for l in lits {
        if !decide_unless_set(solver, *l) {
            return false;
        }
    }
    true
}

/// Decides the literal, unless it is set; false where its negation is.
fn decide_unless_set(solver: &mut Propagator, l: Lit) -> bool
    requires within { l.var < solver.old.width }
    ensures extends { Extends solver.old solver.new }
    ensures decided { OnTrue result
        (StandsFor solver.old.clauses (decisions solver.new) (decisions solver.old ++ l ∷ [])) }
    ensures refuted { OnFalse result (IsRefuted solver.old.clauses (decisions solver.old) l) }
{
    match solver.value(l) {
        Truth::True => true,
        Truth::False => false,
        Truth::Open => {
            solver.decide(l);
            true
        }
    }
}
