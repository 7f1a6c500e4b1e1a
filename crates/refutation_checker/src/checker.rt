//! The checker: a formula with what was derived from it and accepted.

ghost use Rattle.std.specs.Prelude.{◌≡◌, ◌≢◌, ◌↔◌, ◌<◌, ◌≤◌, [], Err, IsTrue, All, IfOk, OnOk, OnErr};
ghost use Rattle.cnf_core.specs.Truth.{IsUnsatisfiable};
ghost use Rattle.cnf_core.specs.declared.derivation.Derived.TheVariants.{Cube as CubeLine, Step as StepLine};
ghost use Rattle.refutation_checker.specs.Acceptance.{FollowsByHints, IsLeastConflict, MayFollow, IsAccepted, HasEmptyStep};
ghost use Rattle.refutation_checker.specs.Derivation.{known, extended};
ghost use Rattle.refutation_checker.specs.Lines.{line_of};

use crate::copies::{copy_hints, negations};
use crate::cube::is_least_conflict;
use crate::evidence::{Evidence, is_empty_step, lines};
use crate::hints::follows;
use crate::root::{root_of, settle};
use crate::variables::Variables;
use cnf_core::{Clauses, Cube, Lit, Step, Steps};
use std::alloc::{AllocError, Global};
use std::marker::Model;
use thiserror::Error;
use unit_propagation::{Assignment, Propagator};

/// Why a step or a cube was not accepted.
#[derive(Debug, Drop, Error)]
pub enum CheckFault {
    /// It does not follow by its rule.
    #[error("it does not follow from the clauses before it")]
    BadStep,
    #[error(transparent)]
    Memory(AllocError),
}

/// A formula and the steps and cubes that were accepted, each after those before it. The root has their clauses, in
/// internal numbers, and set what follows from them under no decision, unless that conflicts.
#[derive(Drop)]
pub struct Checker {
    alloc: Global,
    variables: Variables,
    given: usize,
    root: Propagator,
    conflict: bool,
    evidence: Vec<Evidence>,
    hinted: Assignment,
    refuted: bool,
}

impl Model for Checker {
    ghost use Rattle.refutation_checker.specs.Derivation.{Derivation};

    ghost Value = { Derivation };

    ghost use Rattle.refutation_checker.specs.Checked.{derivation_of, IsConsistent};

    ghost view = { derivation_of };

    ghost invariant = { IsConsistent };
}

impl Checker {
    /// A checker of the formula with nothing derived. Variables 1 to `inputs` are those that cubes may
    /// decide.
    pub fn new(alloc: Global, clauses: &Clauses, inputs: u32) -> Result<Checker, AllocError>
        ensures inputs { IfOk result (λ c. c.inputs ≡ inputs) }
        ensures clauses { IfOk result (λ c. c.clauses ≡ clauses.now) }
        ensures derived { IfOk result (λ c. c.derived ≡ []) }
    {
        let clauses = clauses.as_slice();
        let variables = Variables::new(alloc, clauses, inputs)?;
        let mut hinted = Assignment::new(alloc);
        hinted.grow(variables.width())?;
        let mut root = root_of(alloc, clauses, &variables)?;
        let conflict = settle(&mut root, false);
        let evidence = Vec::new(alloc);
        Ok(Checker {
            alloc,
            variables,
            given: clauses.len(),
            root,
            conflict,
            evidence,
            hinted,
            refuted: false,
        })
    }

    /// Adds the step where it follows by its hints.
    pub fn accept(&mut self, step: &Step) -> Result<(), CheckFault>
        ensures refused { result ≡ Err CheckFault.BadStep → ¬ FollowsByHints self.old step.now }
        ensures follows { result ≢ Err CheckFault.BadStep → FollowsByHints self.old step.now }
        ensures accepted { OnOk result (self.new ≡ extended self.old (StepLine step.now)) }
        ensures kept { OnErr result (self.new ≡ self.old) }
    {
        if !follows(&self.root, &mut self.hinted, &self.variables, step) {
            return Err(CheckFault::BadStep);
        }
        self.add_step(step).map_err(CheckFault::Memory)
    }

    /// Adds the cube, as the clause of the negations of its literals, where it is a least conflict.
    pub fn accept_cube(&mut self, cube: &Cube) -> Result<(), CheckFault>
        ensures refused { result ≡ Err CheckFault.BadStep
            → ¬ IsLeastConflict self.old.inputs (known self.old) cube.now }
        ensures follows { result ≢ Err CheckFault.BadStep
            → IsLeastConflict self.old.inputs (known self.old) cube.now }
        ensures accepted { OnOk result (self.new ≡ extended self.old (CubeLine cube.now)) }
        ensures kept { OnErr result (self.new ≡ self.old) }
    {
        if !self.is_least_conflict(cube.as_slice()) {
            return Err(CheckFault::BadStep);
        }
        self.add_cube(cube).map_err(CheckFault::Memory)
    }

    /// Whether the empty clause was derived, and so no valuation satisfies the formula.
    pub fn refuted(&self) -> bool
        ensures answer { IsTrue result ↔ HasEmptyStep self.now }
        ensures sound { IsTrue result → IsUnsatisfiable self.now.clauses }
        ensures accepted { IsAccepted self.now }
    {
        self.refuted
    }

    /// The accepted lines, in order.
    pub fn into_derived(self) -> Result<Steps, AllocError>
        ensures lines { IfOk result (λ lines. lines ≡ self.derived) }
        ensures accepted { IsAccepted self }
    {
        lines(
            self.alloc,
            &self.variables,
            &self.root,
            self.given,
            self.evidence.as_slice(),
        )
    }

    fn is_least_conflict(&mut self, cube: &[Lit]) -> bool
        ensures answer { IsTrue result ↔ IsLeastConflict self.old.inputs (known self.old) cube.now }
        ensures kept { self.new ≡ self.old }
    {
        if self.conflict {
            return false;
        }
        is_least_conflict(&mut self.root, self.variables.inputs(), cube)
    }

    fn add_step(&mut self, step: &Step) -> Result<(), AllocError>
        requires { FollowsByHints self.old step.now }
        ensures added { OnOk result (self.new ≡ extended self.old (StepLine step.now)) }
        ensures kept { OnErr result (self.new ≡ self.old) }
    {
        let hints = copy_hints(self.alloc, &step.hints)?;
        self.add(step.clause.as_slice(), Evidence::Hints(hints))
    }

    fn add_cube(&mut self, cube: &Cube) -> Result<(), AllocError>
        requires { IsLeastConflict self.old.inputs (known self.old) cube.now }
        ensures added { OnOk result (self.new ≡ extended self.old (CubeLine cube.now)) }
        ensures kept { OnErr result (self.new ≡ self.old) }
    {
        let clause = negations(self.alloc, cube)?;
        self.add(clause.as_slice(), Evidence::Propagation)
    }

    fn add(&mut self, clause: &[Lit], evidence: Evidence) -> Result<(), AllocError>
        requires { MayFollow self.old (line_of clause.now evidence) }
        ensures added { OnOk result (self.new ≡ extended self.old (line_of clause.now evidence)) }
        ensures kept { OnErr result (self.new ≡ self.old) }
    {
        let refutes = is_empty_step(clause, &evidence);
        let clause = self.variables.internal_clause(self.alloc, clause)?;
        self.evidence.reserve(1)?;
        self.root.add_clause(clause)?;
        self.evidence.push_reserved(evidence);
        self.conflict = settle(&mut self.root, self.conflict);
        if refutes {
            self.refuted = true;
        }
        Ok(())
    }
}
