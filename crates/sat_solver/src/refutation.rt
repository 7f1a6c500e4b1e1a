//! The empty clause as a step, where propagation conflicts with nothing decided.

ghost use Rattle.std.specs.Prelude.{◌≡◌, ◌<◌, ◌+◌, [], All, IfOk};
ghost use Rattle.unit_propagation.specs.Propagated.{IsFalseClause};
ghost use Rattle.unit_propagation.specs.Propagation.{decisions};
ghost use Rattle.refutation_checker.specs.Hints.{HintsConflict};

use cnf_core::{Hints, Step};
use sqlite_items::Items;
use std::alloc::{AllocError, Global};
use unit_propagation::Propagator;

/// The step of the empty clause: the reasons of the literals that are set, in order, and then the false clause. A clause's
/// number from 2^32 on has no hint and counts as want of memory.
pub fn empty_step(alloc: Global, solver: &Propagator, falsified: usize) -> Result<Step, AllocError>
    requires decides { decisions solver.now ≡ [] }
    requires falsified { IsFalseClause solver.now.clauses solver.now.trail falsified }
    ensures empty { IfOk result (λ step. step.clause ≡ []) }
    ensures conflict { IfOk result (λ step. HintsConflict solver.now.clauses [] step.hints) }
    ensures numbered { IfOk result (λ step. All (λ hint. 0 < hint) step.hints) }
{
    Ok(Step {
        clause: Items::new(alloc),
        hints: hints(alloc, solver, falsified)?,
    })
}

fn hints(alloc: Global, solver: &Propagator, falsified: usize) -> Result<Hints, AllocError>
    requires decides { decisions solver.now ≡ [] }
    requires falsified { IsFalseClause solver.now.clauses solver.now.trail falsified }
    ensures conflict { IfOk result (HintsConflict solver.now.clauses []) }
    ensures numbered { IfOk result (All (λ hint. 0 < hint)) }
{
    let mut hints = Vec::new(alloc);
    let count = solver.count();
    for place in 0..count {
        let Some(reason) = solver.reason(place) else {
            unreachable!()
        };
        hints.push(number_of(reason)?)?;
    }
    hints.push(number_of(falsified)?)?;
    Ok(Items::from_vec(hints))
}

/// The number, from 1, of the clause at a place.
fn number_of(place: usize) -> Result<u32, AllocError>
    ensures { IfOk result (λ number. number ≡ place + 1) }
{
    match u32::try_from(place) {
        Ok(number) if number < u32::MAX => Ok(number + 1),
        _ => Err(AllocError),
    }
}
