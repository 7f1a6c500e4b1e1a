//! What a solver answers.

use cnf_core::{Steps, Valuation};

/// An answer, with the lines that were derived on the way to it.
#[derive(Debug, Drop)]
pub enum Answer {
    /// The valuation satisfies the formula.
    Sat(Valuation, Steps),
    /// No valuation satisfies the formula.
    Unsat(Steps),
    /// As many cubes as were allowed were derived before another answer.
    Spent(Steps),
}
