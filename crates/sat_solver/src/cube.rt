//! The cube of a conflict: what is left of the decided literals without those that the conflict does not need.

ghost use Rattle.std.specs.Prelude.{◌≡◌, ◌<◌, ◌+◌, ◌∷◌, ◌++◌, [], IfOk, OnOk, length};
ghost use Rattle.cnf_core.specs.Propagation.{Conflicts};
ghost use Rattle.unit_propagation.specs.Propagation.{decisions, IsFull, Extends};
ghost use Rattle.refutation_checker.specs.Acceptance.{IsLeastConflict, LeavesOpen};
ghost use Rattle.sat_solver.specs.Deciding.{IsReached, EndsInConflict};
ghost use Rattle.sat_solver.specs.Reducing.{IsReduced};

use crate::trial::conflicts_with;
use cnf_core::{Cube, Lit};
use sqlite_items::Items;
use std::alloc::{AllocError, Global};
use unit_propagation::Propagator;

/// Drops, one after the other, each literal without which the others still conflict. The last one stays.
pub fn least_cube(
    alloc: Global,
    solver: &mut Propagator,
    inputs: u32,
    decided: &[Lit],
) -> Result<Cube, AllocError>
    requires inputs { inputs < solver.old.width }
    requires reached { IsReached inputs solver.old [] }
    requires conflict { EndsInConflict inputs solver.old.clauses decided.now }
    ensures stays { OnOk result (solver.new ≡ solver.old) }
    ensures least { IfOk result (IsLeastConflict inputs solver.old.clauses) }
{
    let level = solver.count();
    let cube = reduce(alloc, solver, inputs, decided)?;
    solver.undo_to(level);
    Ok(cube)
}

fn reduce(
    alloc: Global,
    solver: &mut Propagator,
    inputs: u32,
    decided: &[Lit],
) -> Result<Cube, AllocError>
    requires inputs { inputs < solver.old.width }
    requires reached { IsReached inputs solver.old [] }
    requires conflict { EndsInConflict inputs solver.old.clauses decided.now }
    ensures extends { OnOk result (Extends solver.old solver.new) }
    ensures least { IfOk result (IsLeastConflict inputs solver.old.clauses) }
{
    let Some((last, rest)) = decided.split_last() else {
        unreachable!()
    };
    let mut kept = Vec::new(alloc);
    for place in 0..rest.len() {
        keep_if_needed(solver, inputs, decided, place, &mut kept)?;
    }
    kept.push(*last)?;
    Ok(Items::from_vec(kept))
}

/// Keeps the literal at the place where the others do not conflict without it.
fn keep_if_needed(
    solver: &mut Propagator,
    inputs: u32,
    decided: &[Lit],
    place: usize,
    kept: &mut Vec<Lit>,
) -> Result<(), AllocError>
    requires inputs { inputs < solver.old.width }
    requires conflict { EndsInConflict inputs solver.old.clauses decided.now }
    requires place { place + 1 < length decided.now }
    requires reduced { IsReduced solver.old decided.now kept.old.items place }
    ensures extends { OnOk result (Extends solver.old solver.new) }
    ensures reduced { OnOk result (IsReduced solver.new decided.now kept.new.items (place + 1)) }
{
    if conflicts_with(solver, &decided[place + 1..]) {
        return Ok(());
    }
    kept.push(decided[place])?;
    keep(solver, decided[place]);
    Ok(())
}

/// Decides an open literal, from which no conflict follows, with what follows.
fn keep(solver: &mut Propagator, l: Lit)
    requires within { l.var < solver.old.width }
    requires full { IsFull solver.old solver.old }
    requires leaves_open { LeavesOpen solver.old.clauses (decisions solver.old) l }
    requires no_conflict { ¬ Conflicts solver.old.clauses (decisions solver.old ++ l ∷ []) }
    ensures extends { Extends solver.old solver.new }
    ensures decides { decisions solver.new ≡ decisions solver.old ++ l ∷ [] }
    ensures full { IsFull solver.new solver.new }
{
    solver.decide(l);
    match solver.propagate() {
        Some(_) => unreachable!(),
        None => (),
    }
}
