//! For `refutation_checker`: the record of the two-variable example and its broken forms. The file below tries every set
//! of full clauses over three variables.

pub mod full_sets;

use crate::signed::{formula, literals};
use cnf_core::{Derived, Step};
use refutation_checker::{CheckFault, Checker};
use sqlite_items::Items;
use std::alloc::{AllocError, Global};
use std::process::Abort;
use std::test::Fail;

/// One line of a derivation, its literals as signed numbers.
#[derive(Clone, Copy)]
enum Line<'a> {
    Cube(&'a [i32]),
    Step(&'a [i32], &'a [u32]),
}

/// A formula with lines to accept or refuse one after the other.
struct Case {
    shows: &'static str,
    clauses: &'static [&'static [i32]],
    inputs: u32,
    lines: &'static [(Line<'static>, bool)],
    refuted: bool,
}

pub const SQUARE: &[&[i32]] = &[&[1, 2], &[-1, 2], &[1, -2], &[-1, -2]];

const CASES: &[Case] = &[
    Case {
        shows: "the record with its two steps",
        clauses: SQUARE,
        inputs: 2,
        lines: &[
            (Line::Cube(&[-2]), true),
            (Line::Step(&[2], &[1, 2]), true),
            (Line::Step(&[], &[6, 3, 4]), true),
        ],
        refuted: true,
    },
    Case {
        shows: "the cube's clause as a hint",
        clauses: SQUARE,
        inputs: 2,
        lines: &[
            (Line::Cube(&[-2]), true),
            (Line::Step(&[], &[5, 3, 4]), true),
        ],
        refuted: true,
    },
    Case {
        shows: "faulty steps between right ones",
        clauses: SQUARE,
        inputs: 2,
        lines: &[
            // the last hint is left out
            (Line::Step(&[2], &[1]), false),
            // clause 1 is satisfied once clause 2 has set variable 2
            (Line::Step(&[-1], &[2, 1, 4]), false),
            // no literal of clause 1 is false
            (Line::Step(&[], &[1, 2]), false),
            // hints that are no clauses before the step
            (Line::Step(&[2], &[1, 5]), false),
            (Line::Step(&[2], &[0, 1, 2]), false),
            // an unknown variable, and one that stands twice
            (Line::Step(&[2, 3], &[1, 2]), false),
            (Line::Step(&[2, 2], &[1, 2]), false),
            (Line::Step(&[2, -2], &[1, 2]), false),
            // hints after the conflict are not looked at
            (Line::Step(&[2], &[1, 2, 77]), true),
            (Line::Step(&[], &[5, 3]), false),
            (Line::Step(&[], &[5, 3, 4]), true),
        ],
        refuted: true,
    },
    Case {
        shows: "a unit is no refutation",
        clauses: SQUARE,
        inputs: 2,
        lines: &[(Line::Step(&[2], &[1, 2]), true)],
        refuted: false,
    },
    Case {
        shows: "the same cube twice",
        clauses: SQUARE,
        inputs: 2,
        lines: &[(Line::Cube(&[-2]), true), (Line::Cube(&[-2]), false)],
        refuted: false,
    },
    Case {
        shows: "a literal that no conflict needs",
        clauses: SQUARE,
        inputs: 3,
        lines: &[
            (Line::Cube(&[3, -2]), false),
            (Line::Cube(&[-2, 3]), false),
            (Line::Cube(&[-2]), true),
        ],
        refuted: false,
    },
    Case {
        shows: "a last literal that is already false",
        clauses: &[&[1, 2], &[-1, -2]],
        inputs: 2,
        lines: &[
            (Line::Cube(&[1, 2]), false),
            (Line::Cube(&[-1, -2]), false),
            (Line::Cube(&[1]), false),
        ],
        refuted: false,
    },
    Case {
        shows: "cubes of wrong literals",
        clauses: &[&[1, 3], &[1, -3]],
        inputs: 2,
        lines: &[
            (Line::Cube(&[]), false),
            (Line::Cube(&[-1, -1]), false),
            (Line::Cube(&[-1, 1]), false),
            (Line::Cube(&[-1]), true),
        ],
        refuted: false,
    },
    Case {
        shows: "cubes over variables that are no inputs",
        clauses: &[&[1, 3], &[-1, 3], &[1, 2, -77], &[1, -2, -77]],
        inputs: 2,
        lines: &[(Line::Cube(&[-3]), false), (Line::Cube(&[-1, 77]), false)],
        refuted: false,
    },
    Case {
        shows: "the same cubes over variables that are inputs",
        clauses: &[&[1, 3], &[-1, 3], &[1, 2, -77], &[1, -2, -77]],
        inputs: 77,
        lines: &[(Line::Cube(&[-3]), true), (Line::Cube(&[-1, 77]), true)],
        refuted: false,
    },
    Case {
        shows: "an empty clause in the formula",
        clauses: &[&[1], &[]],
        inputs: 1,
        lines: &[(Line::Cube(&[1]), false), (Line::Step(&[], &[1, 2]), true)],
        refuted: true,
    },
    Case {
        shows: "a conflict under no decision",
        clauses: &[&[1], &[-1, 2], &[-2, -1], &[3, 4], &[3, -4]],
        inputs: 4,
        lines: &[
            (Line::Cube(&[-3]), false),
            (Line::Step(&[3], &[4, 5]), true),
            (Line::Cube(&[1]), false),
            (Line::Step(&[], &[1, 2, 3]), true),
        ],
        refuted: true,
    },
    Case {
        shows: "a unit that a cube leaves stays set for cubes, and is not set for steps",
        clauses: &[
            &[1, 2, 3],
            &[1, 2, -3],
            &[1, -2, 4],
            &[1, -2, -4],
            &[5, 6, 7, -1],
            &[5, 6, -7, -1],
        ],
        inputs: 6,
        lines: &[
            (Line::Cube(&[-1, -2]), true),
            (Line::Cube(&[-1, 2]), false),
            (Line::Cube(&[-1]), true),
            // variable 1 is set now
            (Line::Cube(&[1, -5]), false),
            (Line::Cube(&[-5, 1]), false),
            (Line::Cube(&[-5, -6]), true),
            // but a step begins with nothing set
            (Line::Step(&[5, 6], &[5, 6]), false),
            (Line::Step(&[5, 6], &[8, 5, 6]), true),
        ],
        refuted: false,
    },
    Case {
        shows: "steps over variables of the clauses, and no inputs",
        clauses: SQUARE,
        inputs: 0,
        lines: &[
            (Line::Cube(&[-2]), false),
            (Line::Step(&[2], &[1, 2]), true),
            (Line::Step(&[], &[5, 3, 4]), true),
        ],
        refuted: true,
    },
    Case {
        shows: "a variable of a high number alone",
        clauses: &[&[30_000_000]],
        inputs: 1,
        lines: &[
            (Line::Cube(&[-1]), false),
            (Line::Cube(&[-30_000_000]), false),
            // a variable between those that occur
            (Line::Step(&[29_999_999], &[1]), false),
            // clause 1 sets its variable, and nothing is false
            (Line::Step(&[1], &[1]), false),
            (Line::Step(&[], &[1]), false),
            (Line::Step(&[30_000_000], &[1]), true),
            (Line::Step(&[1, 30_000_000], &[1]), true),
        ],
        refuted: false,
    },
    Case {
        shows: "two variables of high numbers",
        clauses: &[
            &[30_000_000, 20_000_000],
            &[30_000_000, -20_000_000],
            &[-30_000_000, 1],
        ],
        inputs: 1,
        lines: &[
            (Line::Cube(&[-1]), true),
            // clause 2 is satisfied once clause 1 has set variable 30,000,000
            (Line::Step(&[20_000_000], &[1, 2]), false),
            (Line::Step(&[30_000_000], &[1, 2]), true),
        ],
        refuted: false,
    },
    Case {
        shows: "no clauses and no inputs",
        clauses: &[],
        inputs: 0,
        lines: &[
            (Line::Cube(&[1]), false),
            (Line::Step(&[], &[]), false),
            (Line::Step(&[1], &[1]), false),
        ],
        refuted: false,
    },
];

/// Whether the checker accepted the line.
fn accepted(alloc: Global, checker: &mut Checker, line: Line) -> Result<bool, AllocError> {
    let answer = match line {
        Line::Cube(cube) => checker.accept_cube(&literals(alloc, cube)?),
        Line::Step(clause, hints) => checker.accept(&Step {
            clause: literals(alloc, clause)?,
            hints: Items::from_slice(alloc, hints)?,
        }),
    };
    match answer {
        Ok(()) => Ok(true),
        Err(CheckFault::BadStep) => Ok(false),
        Err(CheckFault::Memory(fault)) => Err(fault),
    }
}

/// Whether it is that line.
fn is(alloc: Global, derived: &Derived, line: Line) -> Result<bool, AllocError> {
    match (derived, line) {
        (Derived::Cube(cube), Line::Cube(right)) => {
            Ok(cube.as_slice() == literals(alloc, right)?.as_slice())
        }
        (Derived::Step(step), Line::Step(clause, hints)) => Ok(
            step.clause.as_slice() == literals(alloc, clause)?.as_slice()
                && step.hints.as_slice() == hints,
        ),
        (Derived::Cube(_), Line::Step(..)) | (Derived::Step(_), Line::Cube(_)) => Ok(false),
    }
}

/// Whether the checker hands out the accepted lines and no others.
fn hands_out(alloc: Global, checker: Checker, case: &Case) -> Result<bool, AllocError> {
    let derived = checker.into_derived()?;
    let mut left = derived.as_slice().iter();
    for (line, right) in case.lines {
        if *right {
            match left.next() {
                Some(derived) => if !is(alloc, derived, *line)? {
                    return Ok(false);
                },
                None => return Ok(false),
            }
        }
    }
    Ok(left.next().is_none())
}

fn check<R: Abort + AllocGlobal>(rt: &R, case: &Case) -> Result<(), Fail> {
    let mut checker = Checker::new(rt.alloc(), &formula(rt.alloc(), case.clauses)?, case.inputs)?;
    for (number, (line, right)) in case.lines.iter().enumerate() {
        let answer = accepted(rt.alloc(), &mut checker, *line)?;
        assert_eq!(rt; answer, *right, "{}: line {number}", case.shows);
    }
    assert_eq!(rt; checker.refuted(), case.refuted, "{}", case.shows);
    let right = hands_out(rt.alloc(), checker, case)?;
    assert!(rt; right, "{}: the lines that are handed out", case.shows);
    Ok(())
}

#[test]
fn accepts_what_follows_and_refuses_the_rest(rt: HostRuntime) -> Result<(), Fail> {
    for case in CASES {
        check(&rt, case)?;
    }
    Ok(())
}
