//! What programs, tests and verdicts mean: the definitions of `specs/`, and the types that they
//! speak of.
//!
//! - `Run`: runs of a program on an input, as a relation;
//! - `Steady`, `Good`: inputs whose runs agree, and inputs good for a statement;
//! - `RightVerdicts`, `Chosen`: which verdicts are right, and how tests are chosen;
//! - `Holds`, `Tight`: what a test promises.
//!
//! Nothing here says how an answer is found. These are runs of the first skeleton. Runs of every
//! typed program, with the same definitions upon them, are in `specs/Runs`: what holds of them is in
//! `run_laws`, what those of built programs come to in `built_laws`, and small runs worked out are in
//! `run_examples`.
#![tactic(auto)]

pub mod built_laws;
pub mod laws;
pub mod run_examples;
pub mod run_laws;
mod test;
pub mod typed_test;
mod verdict;

pub use test::{Expected, Nibble, Nibbles, Test};
pub use verdict::Verdict;
