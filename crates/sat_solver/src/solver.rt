//! The solver in its plainest form: one plain step, repeated.

ghost use Rattle.std.specs.Prelude.{◌≡◌, ◌<◌, ◌≤◌, ◌^◌, IfOk, length};
ghost use Rattle.cnf_core.specs.Truth.{IsUnsatisfiable};
ghost use Rattle.refutation_checker.specs.Acceptance.{IsAccepted, HasEmptyStep};
ghost use Rattle.refutation_checker.specs.AcceptedCubes.{cubes_of};
ghost use Rattle.cnf_core.specs.Determined.{IsDetermined, AreNumbered};
ghost use Rattle.sat_solver.specs.Answers.{steps_of, told, IfSat, IfUnsat, IfSpent, IfDecided, HasPlainLines};
ghost use Rattle.sat_solver.specs.Solving.{IsModel};

use crate::answer::Answer;
use crate::formula::propagator_of;
use crate::step::{Outcome, step};
use cnf_core::Clauses;
use refutation_checker::Checker;
use std::alloc::{AllocError, Global};

/// Decides whether a valuation satisfies the clauses, by at most `allowance` cubes over variables 1 to `inputs`, the
/// inputs. The count is tested before the answer: with as many cubes as are allowed the answer is `Spent`.
pub fn solve(
    alloc: Global,
    clauses: &Clauses,
    inputs: u32,
    allowance: u32,
) -> Result<Answer, AllocError>
    requires numbered { AreNumbered clauses.now }
    requires determined { IsDetermined inputs clauses.now }
    ensures accepted { IfOk result (λ a. IsAccepted (told inputs clauses.now a)) }
    ensures lines { IfOk result HasPlainLines }
    ensures sat { IfOk result (λ a. IfSat a (IsModel inputs clauses.now)) }
    ensures unsat { IfOk result (λ a. IfUnsat a (HasEmptyStep (told inputs clauses.now a))) }
    ensures unsatisfiable { IfOk result (λ a. IfUnsat a (IsUnsatisfiable clauses.now)) }
    ensures spent { IfOk result (λ a. IfSpent a (length (cubes_of (steps_of a)) ≡ allowance)) }
    ensures few { IfOk result (λ a. IfDecided a (length (cubes_of (steps_of a)) < allowance)) }
    ensures never_spent { 3 ^ inputs ≤ allowance → IfOk result (λ a. IfSpent a ⊥) }
{
    let mut solver = propagator_of(alloc, clauses.as_slice(), inputs)?;
    let mut checker = Checker::new(alloc, clauses, inputs)?;
    for count in 0..allowance {
        match step(alloc, &mut solver, &mut checker, inputs, &[])? {
            Outcome::Satisfied(valuation) => {
                return Ok(Answer::Sat(valuation, checker.into_derived()?));
            }
            Outcome::Refuted => return Ok(Answer::Unsat(checker.into_derived()?)),
            Outcome::Cube => (),
        }
    }
    Ok(Answer::Spent(checker.into_derived()?))
}
