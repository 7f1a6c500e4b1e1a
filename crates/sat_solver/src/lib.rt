//! A solver of propositional formulas in which certain variables, the inputs, determine all others by propagation. It
//! decides inputs alone, and each conflict gives a cube that the checker accepts; so the count of cubes is a measure of its
//! work, and each answer comes with a derivation that was accepted line by line. It learns nothing else from a conflict.
#![tactic(auto)]

mod answer;
mod cube;
mod decide;
mod determined;
mod formula;
mod refutation;
mod solver;
mod step;
mod trial;

pub use answer::Answer;
pub use determined::all_are_inputs;
pub use solver::solve;
