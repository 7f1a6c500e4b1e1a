//! Questions about terms: whether a term is 1 at some point, asked of a solver.
//!
//! `decide` puts the fixed bits of a question into its term, makes clauses of what is left, has them solved, and adds a record
//! to the log that says what was asked and how it was answered. Where nothing is left to ask it answers at once, and adds none.
//! `specs/Question.antt` says what a question asks, `specs/About.antt` when clauses are about it, and `specs/Logged.antt` what
//! its record tells.
//!
//! It solves nothing itself, and knows nothing of statements, tests or inputs: who asks says what a term stands for.
#![tactic(auto)]

mod ask;
mod base;
mod clauses;
mod deciding;
mod point;
mod question;

pub use base::Base;
pub use deciding::decide;
pub use question::{Decided, Question};
