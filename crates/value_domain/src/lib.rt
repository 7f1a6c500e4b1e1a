//! One interface for every kind of value that lowered code can run on: numbers as they are, terms, numbers with a mask of
//! bits that a run may change.
//!
//! The trait [`Domain`] says in its clauses what each operation's result stands for at a point, which is a choice of the
//! input's bits and of what each numbered read gives. Code that is generic over a domain is proved once from these clauses.
//! What a domain is for, and how its values are kept, is for its own crate to say.
#![tactic(auto)]

mod domain;
pub mod laws;

pub use domain::Domain;
