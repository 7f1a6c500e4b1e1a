//! Whether a cube conflicts, and needs each of its literals to do so. The literals are decided one after the other; before
//! each it is tried whether the others conflict without it, from what those before it set.

ghost use Rattle.std.specs.Prelude.{◌≡◌, ◌<◌, ◌+◌, ◌↔◌, IsTrue, All, length};
ghost use Rattle.std.specs.Bool.{OnTrue, OnFalse};
ghost use Rattle.unit_propagation.specs.Units.{IsWithin};
ghost use Rattle.refutation_checker.specs.Acceptance.{IsLeastConflict};
ghost use Rattle.unit_propagation.specs.Propagation.{Extends};
ghost use Rattle.refutation_checker.specs.Cubes.{IsRoot, IsReached, IsLeast};
ghost use Rattle.refutation_checker.specs.Derivation.{IsInput};

use crate::decide::{Decision, conflicts_with, decide_next};
use cnf_core::Lit;
use unit_propagation::Propagator;

/// Whether the cube may follow the clauses. The root is as before.
pub fn is_least_conflict(root: &mut Propagator, inputs: u32, cube: &[Lit]) -> bool
    requires inputs { inputs < root.old.width }
    requires root { IsRoot root.old }
    ensures answer { IsTrue result ↔ IsLeastConflict inputs root.old.clauses cube.now }
    ensures stays { root.new ≡ root.old }
{
    if !are_inputs(cube, inputs) {
        return false;
    }
    let level = root.count();
    let answer = is_least(root, cube);
    root.undo_to(level);
    answer
}

/// Whether the variable of each literal is an input.
pub fn are_inputs(lits: &[Lit], inputs: u32) -> bool
    ensures { IsTrue result ↔ All (λ l. IsInput inputs l.var) lits.now }
{
    lits.iter().all(|l| 0 < l.var && l.var <= inputs)
}

fn is_least(root: &mut Propagator, cube: &[Lit]) -> bool
    requires within { IsWithin root.old.width cube.now }
    requires root { IsRoot root.old }
    ensures extends { Extends root.old root.new }
    ensures answer { IsTrue result ↔ IsLeast root.old.clauses cube.now }
{
    let Some((last, rest)) = cube.split_last() else {
        return false;
    };
    for place in 0..rest.len() {
        if !goes_on(root, cube, place) {
            return false;
        }
    }
    matches!(decide_next(root, *last), Decision::Conflict)
}

/// Decides the literal at the place, which is not the last, where the others do not conflict without it.
fn goes_on(root: &mut Propagator, cube: &[Lit], place: usize) -> bool
    requires within { IsWithin root.old.width cube.now }
    requires place { place + 1 < length cube.now }
    requires reached { IsReached root.old cube.now place }
    ensures extends { Extends root.old root.new }
    ensures reached { OnTrue result (IsReached root.new cube.now (place + 1)) }
    ensures refused { OnFalse result (¬ IsLeast root.old.clauses cube.now) }
{
    let start = root.count();
    let conflicts = conflicts_with(root, &cube[place + 1..]);
    root.undo_to(start);
    if conflicts {
        return false;
    }
    matches!(decide_next(root, cube[place]), Decision::Full)
}
