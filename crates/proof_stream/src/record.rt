//! A record: the question that was asked of a solver and how it answered, or an input that breaks a claim.

use crate::hex_value::Values;
use cnf_core::{Clauses, Steps, Var};
use sqlite_items::Items;

/// A list of truth values.
pub type Truths = Items<bool>;

/// What a question is about. Statements and tests have the numbers that the report gives them, and a
/// nibble has its place in the expected packet, from 0.
#[derive(Clone, Copy, Debug, PartialEq, Eq)]
pub enum Kind {
    /// Whether some input reaches the statement.
    Reach(u32),
    /// Whether some input reaches the statement whatever unspecified reads give.
    Steady(u32),
    /// Whether some reads keep the fixed input from the statement.
    Break(u32),
    /// Whether some reads change the nibble of the test's packet.
    Nibble(u32, u32),
}

/// How a question ended.
#[derive(Debug, Drop)]
pub enum End {
    /// The truth of each variable of the question, in order.
    Sat(Truths),
    /// The clauses were refuted.
    Unsat,
    /// The allowance was used up.
    Spent,
}

/// One record of the log.
#[derive(Debug, Drop)]
pub enum Record {
    /// A question. `at` has the bits of the fixed input, where there is one. `vars` says what variable 1,
    /// variable 2 and so on stand for. `derived` has cubes and steps in the order in which they came.
    Asked {
        kind: Kind,
        at: Option<Truths>,
        vars: Items<Var>,
        clauses: Clauses,
        derived: Steps,
        end: End,
    },
    /// An input at which the statement depends on unspecified reads: under the reads `runs` it is
    /// executed, and under `breaks` it is not.
    Broken {
        target: u32,
        at: Truths,
        runs: Values,
        breaks: Values,
    },
}
