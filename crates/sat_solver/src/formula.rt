//! A formula in a propagator, and the valuation that a propagator has found.

ghost use Rattle.std.specs.Prelude.{◌≡◌, ◌<◌, ◌≤◌, ◌+◌, ◌^◌, [], All, IfOk, length};
ghost use Rattle.unit_propagation.specs.Units.{IsWithin};
ghost use Rattle.sat_solver.specs.Deciding.{GivesTrail, SaysVariable};

use cnf_core::{Clause, Lit, Valuation};
use sqlite_items::Items;
use std::alloc::{AllocError, Global};
use unit_propagation::{Propagator, Truth};

/// The clauses over variables up to the highest that is an input or stands in a clause, and nothing set.
pub fn propagator_of(
    alloc: Global,
    clauses: &[Clause],
    inputs: u32,
) -> Result<Propagator, AllocError>
    ensures inputs { IfOk result (λ solver. inputs < solver.width) }
    ensures within { IfOk result (λ solver. All (IsWithin solver.width) clauses.now) }
    ensures bound { IfOk result (λ solver. solver.width ≤ 2 ^ 32) }
    ensures clauses { IfOk result (λ solver. solver.clauses ≡ clauses.now) }
    ensures trail { IfOk result (λ solver. solver.trail ≡ []) }
{
    add_all(alloc, clauses, highest_variable(clauses, inputs))
}

fn add_all(alloc: Global, clauses: &[Clause], highest: u32) -> Result<Propagator, AllocError>
    requires { All (All (λ l. l.var ≤ highest)) clauses.now }
    ensures width { IfOk result (λ solver. solver.width ≡ highest + 1) }
    ensures clauses { IfOk result (λ solver. solver.clauses ≡ clauses.now) }
    ensures trail { IfOk result (λ solver. solver.trail ≡ []) }
{
    let mut solver = Propagator::new(alloc);
    solver.grow(highest as usize + 1)?;
    for clause in clauses {
        solver.add_clause(Items::from_slice(alloc, clause.as_slice())?)?;
    }
    Ok(solver)
}

/// The highest number of an input or of a variable of the clauses.
fn highest_variable(clauses: &[Clause], inputs: u32) -> u32
    ensures inputs { inputs ≤ result }
    ensures clauses { All (All (λ l. l.var ≤ result)) clauses.now }
{
    let mut highest = inputs;
    for clause in clauses {
        highest = highest_in(clause.as_slice(), highest);
    }
    highest
}

fn highest_in(lits: &[Lit], above: u32) -> u32
    ensures above { above ≤ result }
    ensures lits { All (λ l. l.var ≤ result) lits.now }
{
    let mut highest = above;
    for l in lits {
        highest = highest.max(l.var);
    }
    highest
}

/// The valuation in which the literals that are set are true, and open variables are false.
pub fn valuation_of(alloc: Global, solver: &Propagator) -> Result<Valuation, AllocError>
    requires bound { solver.now.width ≤ 2 ^ 32 }
    ensures gives { IfOk result
        (λ valuation. GivesTrail valuation solver.now.width solver.now.trail) }
    ensures variables { IfOk result (λ valuation. solver.now.width ≤ length valuation + 1) }
{
    let mut truths = Vec::new(alloc);
    for var in 1..solver.width() {
        truths.push(is_true(solver, var as u32))?;
    }
    Ok(Items::from_vec(truths))
}

fn is_true(solver: &Propagator, var: u32) -> bool
    requires { var < solver.now.width }
    ensures { SaysVariable solver.now.trail var result }
{
    match solver.value(Lit {
        var,
        positive: true,
    }) {
        Truth::True => true,
        Truth::False | Truth::Open => false,
    }
}
