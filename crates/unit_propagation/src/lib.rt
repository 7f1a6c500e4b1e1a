//! Unit propagation: clauses that are added at any time, literals that are decided, and what follows from them, each
//! with the clause that implied it. Two literals of each clause are watched. It decides nothing by itself.
#![tactic(auto)]

mod assignment;
mod choice;
mod clause_list;
mod clause_state;
pub mod laws;
mod lit_code;
mod loose;
mod pair;
mod plain;
mod propagation;
mod propagator;
mod watch_lists;
mod watched_clauses;

pub use assignment::{Assignment, Cause, Truth};
pub use clause_state::ClauseState;
pub use lit_code::LitCode;
pub use propagator::Propagator;
