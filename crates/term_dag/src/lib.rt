//! Terms over the bits of an input and numbered reads: a dag whose nodes are numbered, with equal nodes one number.
//!
//! A dag is for its contracts the list of its nodes. `specs/Width.antt` says how many bits a term has and which node fits a
//! dag, `specs/Value.antt` what a term stands for at a point, by the operators of `bits_core`.
#![tactic(auto)]

mod dag;
mod evaluation;
mod fixed;
mod input_bits;
pub mod laws;
mod marks;
mod node;
mod substitution;

pub use dag::Dag;
pub use fixed::Fixed;
pub use node::{Node, Term};
