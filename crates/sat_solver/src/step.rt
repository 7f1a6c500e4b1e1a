//! The plain step: decide until a conflict, and add the cube of it.

ghost use Rattle.std.specs.Prelude.{◌≡◌, ◌<◌, ◌≤◌, ◌^◌, [], All, IfOk, OnOk};
ghost use Rattle.cnf_core.specs.Propagation.{Conflicts};
ghost use Rattle.cnf_core.specs.declared.derivation.Derived.TheVariants.{Cube as CubeLine};
ghost use Rattle.unit_propagation.specs.Propagated.{IsFalseClause};
ghost use Rattle.unit_propagation.specs.Propagation.{decisions};
ghost use Rattle.refutation_checker.specs.Derivation.{IsInput, extended, known};
ghost use Rattle.refutation_checker.specs.Acceptance.{IsLeastConflict};
ghost use Rattle.sat_solver.specs.Deciding.{IsReached};
ghost use Rattle.cnf_core.specs.Determined.{IsDetermined, AreNumbered};
ghost use Rattle.sat_solver.specs.Solving.{IsReady, ComesTo, AddsCube, AddsEmptyStep};

use crate::cube::least_cube;
use crate::decide::decide_inputs;
use crate::formula::valuation_of;
use crate::refutation::empty_step;
use cnf_core::{Cube, Lit, Valuation};
use refutation_checker::{CheckFault, Checker, negations};
use std::alloc::{AllocError, Global};
use unit_propagation::Propagator;

/// What a step has come to.
#[derive(Debug, Drop)]
pub enum Outcome {
    /// The valuation satisfies the formula.
    Satisfied(Valuation),
    /// The empty clause was derived.
    Refuted,
    /// A cube was derived.
    Cube,
}

/// From nothing, decides the guesses and then the other inputs, until all are set or there is a conflict, whose cube is
/// added. Where nothing has to be decided for a conflict, the empty clause is added.
pub fn step(
    alloc: Global,
    solver: &mut Propagator,
    checker: &mut Checker,
    inputs: u32,
    guesses: &[Lit],
) -> Result<Outcome, AllocError>
    requires inputs { checker.old.inputs ≡ inputs }
    requires ready { IsReady solver.old checker.old }
    requires guesses { All (λ l. IsInput inputs l.var) guesses.now }
    requires determined { IsDetermined inputs checker.old.clauses }
    requires numbered { AreNumbered checker.old.clauses }
    ensures ready { IfOk result
        (λ outcome. outcome ≡ Outcome.Cube → IsReady solver.new checker.new) }
    ensures comes_to { IfOk result (ComesTo checker.old checker.new) }
{
    match solver.propagate() {
        Some(falsified) => refute(alloc, solver, checker, falsified),
        None => go_on(alloc, solver, checker, inputs, guesses),
    }
}

fn refute(
    alloc: Global,
    solver: &Propagator,
    checker: &mut Checker,
    falsified: usize,
) -> Result<Outcome, AllocError>
    requires clauses { solver.now.clauses ≡ known checker.old }
    requires decides { decisions solver.now ≡ [] }
    requires falsified { IsFalseClause solver.now.clauses solver.now.trail falsified }
    ensures refuted { IfOk result (λ outcome. outcome ≡ Outcome.Refuted) }
    ensures added { OnOk result (AddsEmptyStep checker.old checker.new) }
{
    let step = empty_step(alloc, solver, falsified)?;
    match checker.accept(&step) {
        Ok(()) => Ok(Outcome::Refuted),
        Err(CheckFault::Memory(error)) => Err(error),
        Err(CheckFault::BadStep) => unreachable!(),
    }
}

/// Goes on where nothing is decided and what follows is set without a conflict.
fn go_on(
    alloc: Global,
    solver: &mut Propagator,
    checker: &mut Checker,
    inputs: u32,
    guesses: &[Lit],
) -> Result<Outcome, AllocError>
    requires inputs { checker.old.inputs ≡ inputs }
    requires ready { IsReady solver.old checker.old }
    requires reached { IsReached inputs solver.old [] }
    requires guesses { All (λ l. IsInput inputs l.var) guesses.now }
    requires determined { IsDetermined inputs checker.old.clauses }
    requires numbered { AreNumbered checker.old.clauses }
    ensures ready { IfOk result
        (λ outcome. outcome ≡ Outcome.Cube → IsReady solver.new checker.new) }
    ensures comes_to { IfOk result (ComesTo checker.old checker.new) }
{
    let level = solver.count();
    let mut decided = Vec::new(alloc);
    if !decide_inputs(solver, inputs, guesses, &mut decided)? {
        return Ok(Outcome::Satisfied(valuation_of(alloc, solver)?));
    }
    solver.undo_to(level);
    let cube = least_cube(alloc, solver, inputs, decided.as_slice())?;
    add_cube(alloc, solver, checker, &cube)?;
    Ok(Outcome::Cube)
}

fn add_cube(
    alloc: Global,
    solver: &mut Propagator,
    checker: &mut Checker,
    cube: &Cube,
) -> Result<(), AllocError>
    requires ready { IsReady solver.old checker.old }
    requires least { IsLeastConflict checker.old.inputs solver.old.clauses cube.now }
    ensures ready { OnOk result (IsReady solver.new checker.new) }
    ensures added { OnOk result (checker.new ≡ extended checker.old (CubeLine cube.now)) }
{
    accept(checker, cube)?;
    solver.add_clause(negations(alloc, cube)?)?;
    Ok(())
}

fn accept(checker: &mut Checker, cube: &Cube) -> Result<(), AllocError>
    requires { IsLeastConflict checker.old.inputs (known checker.old) cube.now }
    ensures { OnOk result (checker.new ≡ extended checker.old (CubeLine cube.now)) }
{
    match checker.accept_cube(cube) {
        Ok(()) => Ok(()),
        Err(CheckFault::Memory(error)) => Err(error),
        Err(CheckFault::BadStep) => unreachable!(),
    }
}
