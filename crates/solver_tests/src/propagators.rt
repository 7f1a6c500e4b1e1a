//! For `unit_propagation`: each call with its answer, on clauses where the order of what follows is forced. The files
//! below hold a propagator beside the sets of its clauses, and drawn clauses with propagation that is undone and gone on
//! with.

mod draws;
mod trial;

use crate::signed::{literal, literals};
use std::process::Abort;
use std::test::Fail;
use trial::Trial;

/// One call, and of propagation its answer.
#[derive(Clone, Copy, Debug)]
enum Call {
    Grow(usize),
    Add(&'static [i32]),
    Decide(i32),
    Propagate(Option<usize>),
    Undo(usize),
}

/// A call, and the literals that are set after it, each with its reason.
type Line = (Call, &'static [(i32, Option<usize>)]);

/// Clauses of two, one and no open literal come to an assignment that is gone on with, undone and gone on with.
const CALLS: [Line; 30] = [
    (Call::Grow(4), &[]),
    (Call::Add(&[1, 2]), &[]),
    (Call::Add(&[-1, 3]), &[]),
    (Call::Propagate(None), &[]),
    (Call::Decide(1), &[(1, None)]),
    (Call::Propagate(None), &[(1, None), (3, Some(1))]),
    (Call::Add(&[-3, -1, 2]), &[(1, None), (3, Some(1))]),
    (
        Call::Propagate(None),
        &[(1, None), (3, Some(1)), (2, Some(2))],
    ),
    (
        Call::Add(&[-2, -3]),
        &[(1, None), (3, Some(1)), (2, Some(2))],
    ),
    (
        Call::Propagate(Some(3)),
        &[(1, None), (3, Some(1)), (2, Some(2))],
    ),
    (Call::Undo(0), &[]),
    (Call::Propagate(None), &[]),
    (Call::Decide(-1), &[(-1, None)]),
    (
        Call::Propagate(None),
        &[(-1, None), (2, Some(0)), (-3, Some(3))],
    ),
    (Call::Grow(6), &[(-1, None), (2, Some(0)), (-3, Some(3))]),
    (
        Call::Add(&[4, 5, 1]),
        &[(-1, None), (2, Some(0)), (-3, Some(3))],
    ),
    (
        Call::Propagate(None),
        &[(-1, None), (2, Some(0)), (-3, Some(3))],
    ),
    (
        Call::Decide(-4),
        &[(-1, None), (2, Some(0)), (-3, Some(3)), (-4, None)],
    ),
    (
        Call::Propagate(None),
        &[
            (-1, None),
            (2, Some(0)),
            (-3, Some(3)),
            (-4, None),
            (5, Some(4)),
        ],
    ),
    (Call::Undo(1), &[(-1, None)]),
    (
        Call::Propagate(None),
        &[(-1, None), (2, Some(0)), (-3, Some(3))],
    ),
    (
        Call::Decide(-5),
        &[(-1, None), (2, Some(0)), (-3, Some(3)), (-5, None)],
    ),
    (
        Call::Propagate(None),
        &[
            (-1, None),
            (2, Some(0)),
            (-3, Some(3)),
            (-5, None),
            (4, Some(4)),
        ],
    ),
    (
        Call::Undo(5),
        &[
            (-1, None),
            (2, Some(0)),
            (-3, Some(3)),
            (-5, None),
            (4, Some(4)),
        ],
    ),
    (Call::Undo(0), &[]),
    (Call::Add(&[5]), &[]),
    (Call::Propagate(None), &[(5, Some(5))]),
    (Call::Add(&[-5, -5]), &[(5, Some(5))]),
    (Call::Propagate(Some(6)), &[(5, Some(5))]),
    (Call::Undo(0), &[]),
];

/// The empty clause is false before anything is set.
const EMPTY: [Line; 4] = [
    (Call::Grow(2), &[]),
    (Call::Add(&[1, 0]), &[]),
    (Call::Add(&[]), &[]),
    (Call::Propagate(Some(1)), &[]),
];

/// Makes the call, and says whether it answers as it should.
fn answers(trial: &mut Trial, call: Call) -> Result<bool, Fail> {
    match call {
        Call::Grow(width) => {
            trial.grow(width)?;
            Ok(trial.width() == width)
        }
        Call::Add(clause) => {
            let lits = literals(trial.alloc(), clause)?;
            trial.add(lits)
        }
        Call::Decide(number) => Ok(trial.decide(literal(number))),
        Call::Propagate(answer) => Ok(trial.propagate() == answer),
        Call::Undo(place) => {
            trial.undo_to(place);
            Ok(true)
        }
    }
}

fn check<R: Abort + AllocGlobal>(rt: &R, calls: &[Line]) -> Result<(), Fail> {
    let mut trial = Trial::new(rt.alloc());
    for (number, (call, set)) in calls.iter().enumerate() {
        let right = answers(&mut trial, *call)?;
        assert!(rt; right, "line {number}: {call:?}");
        let mut trail = Vec::new(rt.alloc());
        for (l, reason) in *set {
            trail.push((literal(*l), *reason))?;
        }
        assert_eq!(rt;
            trial.trail()?.as_slice(),
            trail.as_slice(),
            "line {number}: {call:?}"
        );
        assert!(rt; trial.has_its_clauses(), "line {number}: {call:?}");
        assert!(rt; trial.has_values(), "line {number}: {call:?}");
    }
    Ok(())
}

#[test]
fn each_call_answers(rt: HostRuntime) -> Result<(), Fail> {
    check(&rt, &CALLS)?;
    check(&rt, &EMPTY)
}
