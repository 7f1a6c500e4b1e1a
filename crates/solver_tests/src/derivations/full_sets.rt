//! Every set of full clauses over three variables: all cubes and all clauses are offered, again and again. What is
//! accepted conflicts as propagation by passes does and follows by the table of truth, and the set is refuted exactly
//! where no valuation satisfies it. Longer formulas, with clauses that repeat literals, are offered the cubes.

use super::{Line, SQUARE, accepted};
use crate::signed::{Set, formula, propagate, truths};
use refutation_checker::Checker;
use std::alloc::{AllocError, Global};
use std::process::Abort;
use std::test::Fail;

const INPUTS: u32 = 3;

/// The numbers of the literals over three variables.
const LITERALS: [i32; 6] = [1, -1, 2, -2, 3, -3];

const FULL: [&[i32]; 8] = [
    &[1, 2, 3],
    &[1, 2, -3],
    &[1, -2, 3],
    &[1, -2, -3],
    &[-1, 2, 3],
    &[-1, 2, -3],
    &[-1, -2, 3],
    &[-1, -2, -3],
];

const FORMULAS: [&[&[i32]]; 8] = [
    SQUARE,
    &[&[1, 2], &[-2, 3], &[-3, -1, 2], &[1]],
    &[&[1, 1], &[-1, 2, 2], &[3, -3], &[-2, -1]],
    &[&[1, 2, 3], &[-1, 2], &[-2, 3], &[-3, 1]],
    &[&[-1], &[1, 2, 3], &[-2, -3], &[]],
    &[
        &[1, 2, 1, 4, 2, 1],
        &[-3, -1, -3, 4, -2],
        &[5, -4, 5, -4],
        &[3, 1, 4, 3],
    ],
    &[
        &[4, 5, 6, 7, 8, 9],
        &[-1, -4],
        &[-1, -5],
        &[-1, -6],
        &[-1, -7],
        &[-1, -8],
        &[-2, -9],
    ],
    &[
        &[9, 8, 7, 6, 5, 4],
        &[-1, -4],
        &[-1, -5],
        &[-1, -6],
        &[-1, -7],
        &[-1, -8],
        &[-2, -9],
    ],
];

/// The cubes over three variables, in every order of their literals.
fn all_cubes(alloc: Global) -> Result<Vec<Vec<i32>>, AllocError> {
    let mut cubes = Vec::new(alloc);
    for k in LITERALS {
        cubes.push(Vec::from_slice(alloc, &[k])?)?;
        for l in LITERALS {
            if l.unsigned_abs() != k.unsigned_abs() {
                cubes.push(Vec::from_slice(alloc, &[k, l])?)?;
                for m in LITERALS {
                    if m.unsigned_abs() != k.unsigned_abs()
                        && m.unsigned_abs() != l.unsigned_abs()
                    {
                        cubes.push(Vec::from_slice(alloc, &[k, l, m])?)?;
                    }
                }
            }
        }
    }
    Ok(cubes)
}

/// The clauses of up to three literals, each in one order.
fn all_clauses(alloc: Global, cubes: &[Vec<i32>]) -> Result<Vec<Vec<i32>>, AllocError> {
    let mut clauses = Vec::new(alloc);
    clauses.push(Vec::new(alloc))?;
    for cube in cubes {
        if cube.as_slice().is_sorted_by_key(|l| l.unsigned_abs()) {
            clauses.push(Vec::from_slice(alloc, cube.as_slice())?)?;
        }
    }
    Ok(clauses)
}

/// A checker, and the clauses that it knows.
#[derive(Drop)]
struct Trial {
    alloc: Global,
    checker: Checker,
    known: Vec<Set>,
}

impl Trial {
    fn new(alloc: Global, clauses: &[&[i32]]) -> Result<Trial, AllocError> {
        let checker = Checker::new(alloc, &formula(alloc, clauses)?, INPUTS)?;
        let mut known = Vec::new(alloc);
        for clause in clauses {
            known.push(Set::of(clause))?;
        }
        Ok(Trial {
            alloc,
            checker,
            known,
        })
    }

    /// The valuations that satisfy the clauses.
    fn models(&self) -> u8 {
        let mut models = u8::MAX;
        for clause in &self.known {
            models &= truths(*clause);
        }
        models
    }

    /// Whether the cube is accepted exactly where it is a least conflict.
    fn offer_cube(&mut self, cube: &[i32]) -> Result<bool, AllocError> {
        let right = self.is_least_conflict(cube)?;
        let added = accepted(self.alloc, &mut self.checker, Line::Cube(cube))?;
        if added {
            self.known.push(Set::of(cube).negated())?;
        }
        Ok(added == right)
    }

    /// Whether the clause is accepted, with the hints of propagation, exactly where that conflicts.
    fn offer_clause(&mut self, clause: &[i32]) -> Result<bool, AllocError> {
        let mut hints = Vec::new(self.alloc);
        let decided = Set::of(clause).negated();
        let right = propagate(self.known.as_slice(), decided, &mut hints)?.conflicts;
        let line = Line::Step(clause, hints.as_slice());
        let added = accepted(self.alloc, &mut self.checker, line)?;
        if added {
            self.known.push(Set::of(clause))?;
        }
        Ok(added == right)
    }

    /// Whether propagation conflicts under the literals and under no fewer, and leaves the last one open before.
    fn is_least_conflict(&self, cube: &[i32]) -> Result<bool, AllocError> {
        let decided = Set::of(cube);
        let mut used = Vec::new(self.alloc);
        if !propagate(self.known.as_slice(), decided, &mut used)?.conflicts {
            return Ok(false);
        }
        let mut before = Set::EMPTY;
        let mut last = Set::EMPTY;
        for l in cube {
            last = Set::of(&[*l]);
            let others = propagate(self.known.as_slice(), decided.without(last), &mut used)?;
            if others.conflicts {
                return Ok(false);
            }
            before = others.set;
        }
        Ok(!before.joined(before.negated()).meets(last))
    }
}

/// The full clauses whose bit the mask has.
pub fn full_clauses(alloc: Global, mask: u32) -> Result<Vec<&'static [i32]>, AllocError> {
    let mut clauses = Vec::new(alloc);
    for (clause, bit) in FULL.iter().zip([1u32, 2, 4, 8, 16, 32, 64, 128]) {
        if mask & bit != 0 {
            clauses.push(*clause)?;
        }
    }
    Ok(clauses)
}

fn try_set<R: Abort + AllocGlobal>(
    rt: &R,
    mask: u32,
    cubes: &[Vec<i32>],
    clauses: &[Vec<i32>],
) -> Result<(), Fail> {
    let set = full_clauses(rt.alloc(), mask)?;
    let mut trial = Trial::new(rt.alloc(), set.as_slice())?;
    let models = trial.models();
    for _ in 0..3 {
        for cube in cubes {
            let right = trial.offer_cube(cube.as_slice())?;
            assert!(rt; right, "set {mask}: cube {cube:?}");
        }
        for clause in clauses {
            let right = trial.offer_clause(clause.as_slice())?;
            assert!(rt; right, "set {mask}: clause {clause:?}");
        }
    }
    assert_eq!(rt; trial.models(), models, "set {mask}: what was accepted");
    assert_eq!(rt; trial.checker.refuted(), models == 0, "set {mask}");
    Ok(())
}

#[test]
fn refutes_exactly_what_no_valuation_satisfies(rt: HostRuntime) -> Result<(), Fail> {
    let cubes = all_cubes(rt.alloc())?;
    let clauses = all_clauses(rt.alloc(), cubes.as_slice())?;
    assert_eq!(rt; (cubes.len(), clauses.len()), (78, 27));
    for mask in 0..256 {
        try_set(&rt, mask, cubes.as_slice(), clauses.as_slice())?;
    }
    for (number, formula) in FORMULAS.into_iter().enumerate() {
        let mut trial = Trial::new(rt.alloc(), formula)?;
        for cube in &cubes {
            let right = trial.offer_cube(cube.as_slice())?;
            assert!(rt; right, "formula {number}: cube {cube:?}");
        }
    }
    Ok(())
}
