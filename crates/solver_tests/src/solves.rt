//! For `sat_solver`: the two-variable example, and every set of full clauses over three variables against the table of
//! truth. A new checker accepts each line again, and each clause is true under a valuation that was found.

use crate::derivations::SQUARE;
use crate::derivations::full_sets::full_clauses;
use crate::signed::{Set, formula, truths};
use cnf_core::{Clauses, Derived, Steps, Valuation, holds};
use refutation_checker::{CheckFault, Checker};
use sat_solver::{Answer, all_are_inputs, solve};
use std::alloc::AllocError;
use std::process::Abort;
use std::test::Fail;

#[derive(Clone, Copy, Debug, PartialEq, Eq)]
enum Kind {
    Sat,
    Unsat,
    Spent,
}

/// A formula, how much is allowed, and what comes of it: the answer and how many cubes were derived.
struct Case {
    shows: &'static str,
    clauses: &'static [&'static [i32]],
    inputs: u32,
    allowance: u32,
    kind: Kind,
    cubes: usize,
}

// The first cube of the square is -1, false being tried first. Then 1 follows, and conflicts.
const CASES: &[Case] = &[
    Case {
        shows: "the square with one cube",
        clauses: SQUARE,
        inputs: 2,
        allowance: 1,
        kind: Kind::Spent,
        cubes: 1,
    },
    Case {
        shows: "the square with as many cubes as there can be",
        clauses: SQUARE,
        inputs: 2,
        allowance: 9,
        kind: Kind::Unsat,
        cubes: 1,
    },
    Case {
        shows: "the square beside a free input",
        clauses: SQUARE,
        inputs: 3,
        allowance: 27,
        kind: Kind::Unsat,
        cubes: 1,
    },
    Case {
        shows: "no cube allowed",
        clauses: &[&[1]],
        inputs: 1,
        allowance: 0,
        kind: Kind::Spent,
        cubes: 0,
    },
    Case {
        shows: "a refutation by propagation alone",
        clauses: &[&[1], &[-1, 2], &[-2]],
        inputs: 2,
        allowance: 1,
        kind: Kind::Unsat,
        cubes: 0,
    },
    Case {
        shows: "no clauses and no inputs",
        clauses: &[],
        inputs: 0,
        allowance: 1,
        kind: Kind::Sat,
        cubes: 0,
    },
    Case {
        shows: "the empty clause",
        clauses: &[&[]],
        inputs: 2,
        allowance: 1,
        kind: Kind::Unsat,
        cubes: 0,
    },
];

/// What an answer tells.
#[derive(Drop)]
struct Told {
    kind: Kind,
    valuation: Option<Valuation>,
    steps: Steps,
}

fn tells(answer: Answer) -> Told {
    match answer {
        Answer::Sat(valuation, steps) => Told {
            kind: Kind::Sat,
            valuation: Some(valuation),
            steps,
        },
        Answer::Unsat(steps) => Told {
            kind: Kind::Unsat,
            valuation: None,
            steps,
        },
        Answer::Spent(steps) => Told {
            kind: Kind::Spent,
            valuation: None,
            steps,
        },
    }
}

/// Whether the valuation has the variables of all clauses, and each is true.
fn satisfies(clauses: &Clauses, valuation: &Valuation) -> bool {
    clauses.as_slice().iter().all(|clause| {
        let has = clause
            .as_slice()
            .iter()
            .all(|l| 0 < l.var && l.var as usize <= valuation.len());
        has && holds(clause, valuation)
    })
}

/// How many cubes are among the lines, where the checker accepts all.
fn accepted_cubes(checker: &mut Checker, steps: &Steps) -> Result<Option<usize>, AllocError> {
    let mut cubes: usize = 0;
    for line in steps.as_slice() {
        let answer = match line {
            Derived::Cube(cube) => checker.accept_cube(cube),
            Derived::Step(step) => checker.accept(step),
        };
        match answer {
            Ok(()) => (),
            Err(CheckFault::BadStep) => return Ok(None),
            Err(CheckFault::Memory(fault)) => return Err(fault),
        }
        if let Derived::Cube(_) = line {
            cubes = cubes.saturating_add(1);
        }
    }
    Ok(Some(cubes))
}

/// Solves, and tries all that the answer tells; the kind of the answer and how many cubes it has.
fn try_case<R: Abort + AllocGlobal>(
    rt: &R,
    shows: &str,
    clauses: &[&[i32]],
    inputs: u32,
    allowance: u32,
) -> Result<(Kind, usize), Fail> {
    let clauses = formula(rt.alloc(), clauses)?;
    let may_be_solved = all_are_inputs(&clauses, inputs);
    assert!(rt; may_be_solved, "{shows}: the inputs");
    let told = tells(solve(rt.alloc(), &clauses, inputs, allowance)?);
    let mut checker = Checker::new(rt.alloc(), &clauses, inputs)?;
    let cubes = accepted_cubes(&mut checker, &told.steps)?;
    assert!(rt; cubes.is_some(), "{shows}: the lines");
    assert_eq!(rt;
        checker.refuted(),
        told.kind == Kind::Unsat,
        "{shows}: refuted"
    );
    if let Some(valuation) = &told.valuation {
        let right = satisfies(&clauses, valuation);
        assert!(rt; right, "{shows}: {valuation:?}");
    }
    Ok((told.kind, cubes.unwrap_or(0)))
}

/// Whether a valuation of three variables satisfies the clauses.
fn is_satisfiable(clauses: &[&[i32]]) -> bool {
    let mut models = u8::MAX;
    for clause in clauses {
        models &= truths(Set::of(clause));
    }
    models != 0
}

#[test]
fn answers_as_the_table_of_truth_does(rt: HostRuntime) -> Result<(), Fail> {
    for case in CASES {
        let (kind, cubes) = try_case(&rt, case.shows, case.clauses, case.inputs, case.allowance)?;
        assert_eq!(rt; (kind, cubes), (case.kind, case.cubes), "{}", case.shows);
    }
    for mask in 0..256 {
        let set = full_clauses(rt.alloc(), mask)?;
        let (kind, _) = try_case(&rt, "a set of full clauses", set.as_slice(), 3, 27)?;
        let right = if is_satisfiable(set.as_slice()) {
            Kind::Sat
        } else {
            Kind::Unsat
        };
        assert_eq!(rt; kind, right, "set {mask}");
    }
    Ok(())
}
