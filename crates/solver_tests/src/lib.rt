//! Tests alone, of the crates that a solver stands on: a module for each crate under test, over its public calls, and
//! one with the truth and the propagation that they are compared with.
#![tactic(auto)]

#[cfg(test)]
mod derivations;
#[cfg(test)]
mod formulas;
#[cfg(test)]
mod propagators;
#[cfg(test)]
mod records;
#[cfg(test)]
mod signed;
#[cfg(test)]
mod solves;
