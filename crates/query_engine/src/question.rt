//! What is asked, and what is answered.

use bits_core::Point;
use proof_stream::{Kind, Truths};
use term_dag::Term;

/// Whether the term is 1 at some point: at one whose input bits are `at`, where that stands, and else at any.
#[derive(Debug, Drop)]
pub struct Question {
    pub kind: Kind,
    pub term: Term,
    pub at: Option<Truths>,
}

/// The answer to a question.
#[derive(Debug, Drop)]
pub enum Decided {
    /// The term is 1 at this point.
    Yes(Point),
    /// The term is 1 at no point that is asked about.
    No,
    /// As many cubes as were allowed were derived before another answer.
    Spent,
}
