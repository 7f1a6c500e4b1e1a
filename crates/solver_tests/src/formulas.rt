//! For `cnf_core`: a clause is true where one of its literals is, and a literal's negation has the other sign.

use crate::signed::{literal, literals};
use cnf_core::{Clause, Valuation, holds};
use sqlite_items::Items;
use std::test::Fail;

/// Clauses and the truths of variables 1, 2, .., with the clause's truth where each variable has one.
const CLAUSES: [(&[i32], &[bool], Option<bool>); 12] = [
    (&[], &[], Some(false)),
    (&[1], &[true], Some(true)),
    (&[1], &[false], Some(false)),
    (&[-1], &[false], Some(true)),
    (&[-1], &[true], Some(false)),
    (&[1, -2], &[false, true], Some(false)),
    (&[1, -2], &[false, false], Some(true)),
    (&[1, -2], &[true, true], Some(true)),
    (&[-2, 2], &[true, true], Some(true)),
    (&[1, 2, 3], &[false, false, true, false], Some(true)),
    (&[1, 2, 3], &[false, false, false, true], Some(false)),
    (&[3], &[true, true], None),
];

/// The clause's truth, where the valuation has its variables.
fn truth(clause: &Clause, valuation: &Valuation) -> Option<bool> {
    let has = clause
        .as_slice()
        .iter()
        .all(|l| 0 < l.var && l.var as usize <= valuation.len());
    if has {
        Some(holds(clause, valuation))
    } else {
        None
    }
}

#[test]
fn a_clause_is_true_where_a_literal_is(rt: HostRuntime) -> Result<(), Fail> {
    for (lits, truths, expected) in CLAUSES {
        let clause = literals(rt.alloc(), lits)?;
        let valuation = Items::from_slice(rt.alloc(), truths)?;
        assert_eq!(rt;
            truth(&clause, &valuation),
            expected,
            "{lits:?} under {truths:?}"
        );
    }
    for (number, negation) in [(1, -1), (-1, 1), (4, -4), (-77, 77), (i32::MAX, -i32::MAX)] {
        assert_eq!(rt; !literal(number), literal(negation), "{number}");
    }
    Ok(())
}
