//! The root: the clauses of a formula in a propagator, with nothing decided.

ghost use Rattle.std.specs.Prelude.{◌≡◌, [], false, All, IfOk, IsTrue};
ghost use Rattle.cnf_core.specs.Propagation.{Conflicts};
ghost use Rattle.unit_propagation.specs.Units.{IsWithin};
ghost use Rattle.unit_propagation.specs.Propagation.{decisions};
ghost use Rattle.refutation_checker.specs.Cubes.{IsSettled};
ghost use Rattle.refutation_checker.specs.Variables.{width, external_clauses, HasVariable};

use crate::variables::Variables;
use cnf_core::Clause;
use std::alloc::{AllocError, Global};
use unit_propagation::Propagator;

/// The clauses in internal numbers, and nothing set.
pub fn root_of(
    alloc: Global,
    clauses: &[Clause],
    variables: &Variables,
) -> Result<Propagator, AllocError>
    requires { All (All (λ l. HasVariable variables.now l.var)) clauses.now }
    ensures width { IfOk result (λ root. root.width ≡ width variables.now) }
    ensures clauses { IfOk result
        (λ root. external_clauses variables.now root.clauses ≡ clauses.now) }
    ensures within { IfOk result (λ root. All (IsWithin (width variables.now)) root.clauses) }
    ensures trail { IfOk result (λ root. root.trail ≡ []) }
{
    let mut root = Propagator::new(alloc);
    root.grow(variables.width())?;
    for clause in clauses {
        root.add_clause(variables.internal_clause(alloc, clause.as_slice())?)?;
    }
    Ok(root)
}

/// Sets what follows under no decision, unless that conflicted before; whether it conflicts.
pub fn settle(root: &mut Propagator, conflict: bool) -> bool
    requires decides { conflict ≡ false → decisions root.old ≡ [] }
    requires conflicts { IsTrue conflict → Conflicts root.old.clauses [] }
    ensures settled { IsSettled root.new result }
    ensures width { root.new.width ≡ root.old.width }
    ensures clauses { root.new.clauses ≡ root.old.clauses }
{
    if conflict {
        return true;
    }
    match root.propagate() {
        Some(_) => true,
        None => false,
    }
}
