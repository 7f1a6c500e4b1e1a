//! Sources of any size for a job whose answer is known: each statement is covered, unreachable or unsteady by the kind
//! of the branch that it stands in.
//!
//! It makes text alone. That a source is accepted, and what is said of its statements, is for the crates that read it.
#![tactic(auto)]

mod source;

pub use source::{MAX_SIZE, is_size, make_source};
