//! Deciding literals until propagation conflicts or all inputs are set.

ghost use Rattle.std.specs.Prelude.{◌≡◌, ◌<◌, ◌≤◌, ◌∷◌, [], false, All, IfOk, OnOk, IsTrue};
ghost use Rattle.refutation_checker.specs.Derivation.{IsInput};
ghost use Rattle.unit_propagation.specs.Propagation.{Extends};
ghost use Rattle.sat_solver.specs.Deciding.{IsReached, Comes, AreSetTo, IsSetOneWay};

use cnf_core::Lit;
use std::alloc::AllocError;
use unit_propagation::{Propagator, Truth};

/// Decides the guesses whose variables are open, and then the open inputs in order, false first; whether that conflicts.
/// The literals that were decided are put into the list.
pub fn decide_inputs(
    solver: &mut Propagator,
    inputs: u32,
    guesses: &[Lit],
    decided: &mut Vec<Lit>,
) -> Result<bool, AllocError>
    requires inputs { inputs < solver.old.width }
    requires guesses { All (λ l. IsInput inputs l.var) guesses.now }
    requires reached { IsReached inputs solver.old decided.old.items }
    ensures extends { OnOk result (Extends solver.old solver.new) }
    ensures comes { IfOk result (Comes inputs solver.new decided.new.items) }
    ensures all_set { IfOk result
        (λ conflict. conflict ≡ false → AreSetTo inputs solver.new.trail) }
{
    if decide_guesses(solver, inputs, guesses, decided)? {
        return Ok(true);
    }
    decide_rest(solver, inputs, decided)
}

fn decide_guesses(
    solver: &mut Propagator,
    inputs: u32,
    guesses: &[Lit],
    decided: &mut Vec<Lit>,
) -> Result<bool, AllocError>
    requires inputs { inputs < solver.old.width }
    requires guesses { All (λ l. IsInput inputs l.var) guesses.now }
    requires reached { IsReached inputs solver.old decided.old.items }
    ensures extends { OnOk result (Extends solver.old solver.new) }
    ensures comes { IfOk result (Comes inputs solver.new decided.new.items) }
{
    for l in guesses {
        if decide_if_open(solver, inputs, *l, decided)? {
            return Ok(true);
        }
    }
    Ok(false)
}

fn decide_rest(
    solver: &mut Propagator,
    inputs: u32,
    decided: &mut Vec<Lit>,
) -> Result<bool, AllocError>
    requires inputs { inputs < solver.old.width }
    requires reached { IsReached inputs solver.old decided.old.items }
    ensures extends { OnOk result (Extends solver.old solver.new) }
    ensures comes { IfOk result (Comes inputs solver.new decided.new.items) }
    ensures all_set { IfOk result
        (λ conflict. conflict ≡ false → AreSetTo inputs solver.new.trail) }
{
    for place in 0..inputs {
        let l = Lit {
            var: place + 1,
            positive: false,
        };
        if decide_if_open(solver, inputs, l, decided)? {
            return Ok(true);
        }
    }
    Ok(false)
}

/// Decides the literal where its variable is open, with what follows; whether that conflicts.
fn decide_if_open(
    solver: &mut Propagator,
    inputs: u32,
    l: Lit,
    decided: &mut Vec<Lit>,
) -> Result<bool, AllocError>
    requires inputs { inputs < solver.old.width }
    requires input { IsInput inputs l.var }
    requires reached { IsReached inputs solver.old decided.old.items }
    ensures extends { OnOk result (Extends solver.old solver.new) }
    ensures comes { IfOk result (Comes inputs solver.new decided.new.items) }
    ensures is_set { IfOk result
        (λ conflict. conflict ≡ false → IsSetOneWay solver.new.trail l.var) }
{
    match solver.value(l) {
        Truth::Open => (),
        Truth::True | Truth::False => return Ok(false),
    }
    decided.push(l)?;
    solver.decide(l);
    match solver.propagate() {
        Some(_) => Ok(true),
        None => Ok(false),
    }
}
