//! An independent checker of derivations: it accepts a step by its hints and a cube by unit propagation,
//! and its answer that a formula is refuted is a theorem. It finds no derivation.
#![tactic(auto)]

mod checker;
mod copies;
mod cube;
mod decide;
mod evidence;
mod hints;
pub mod laws;
mod root;
mod variables;

pub use checker::{CheckFault, Checker};
pub use copies::negations;
pub use cube::are_inputs;
