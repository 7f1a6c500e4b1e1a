//! Why a clause was accepted, which with the clause is the line of the derivation.

ghost use Rattle.std.specs.Prelude.{◌≡◌, ◌+◌, ◌↔◌, IsTrue, IfOk, All, length, drop};
ghost use Rattle.unit_propagation.specs.Units.{IsWithin};
ghost use Rattle.refutation_checker.specs.Acceptance.{IsEmptyStep};
ghost use Rattle.refutation_checker.specs.Lines.{line_of, lines_of};
ghost use Rattle.refutation_checker.specs.Variables.{width, external_clauses};

use crate::copies::{copy_hints, negations};
use crate::variables::Variables;
use cnf_core::{Clause, Derived, Hints, Lit, Step, Steps};
use sqlite_items::Items;
use std::alloc::{AllocError, Global};
use unit_propagation::Propagator;

/// What a clause that was accepted follows by.
#[derive(Debug, Drop)]
pub enum Evidence {
    /// The negations of its literals are a least conflict.
    Propagation,
    /// The hints conflict with the negations of its literals.
    Hints(Hints),
}

/// Whether the line is the empty clause of a step.
pub fn is_empty_step(clause: &[Lit], evidence: &Evidence) -> bool
    ensures { IsTrue result ↔ IsEmptyStep (line_of clause.now evidence.now) }
{
    match evidence {
        Evidence::Propagation => false,
        Evidence::Hints(_) => clause.is_empty(),
    }
}

/// The lines of the root's clauses from a number on, which have internal numbers, each with its evidence.
pub fn lines(
    alloc: Global,
    variables: &Variables,
    root: &Propagator,
    given: usize,
    evidence: &[Evidence],
) -> Result<Steps, AllocError>
    requires within { All (IsWithin (width variables.now)) root.now.clauses }
    requires count { given + length evidence.now ≡ length root.now.clauses }
    ensures { IfOk result
        (λ lines. lines ≡ lines_of
        (external_clauses variables.now (drop given root.now.clauses)) evidence.now) }
{
    let mut lines = Vec::with_capacity(alloc, root.clause_count() - given)?;
    for place in 0..evidence.len() {
        let clause = variables.external_clause(alloc, root.literals(given + place))?;
        lines.push(line(alloc, clause, &evidence[place])?)?;
    }
    Ok(Items::from_vec(lines))
}

fn line(alloc: Global, clause: Clause, evidence: &Evidence) -> Result<Derived, AllocError>
    ensures { IfOk result (λ line. line ≡ line_of clause evidence.now) }
{
    match evidence {
        Evidence::Propagation => Ok(Derived::Cube(negations(alloc, &clause)?)),
        Evidence::Hints(hints) => Ok(Derived::Step(Step {
            clause,
            hints: copy_hints(alloc, hints)?,
        })),
    }
}
