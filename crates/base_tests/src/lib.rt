//! Tests alone, of crates that others stand on: a module for each crate under test, over its public calls.
#![tactic(auto)]

#[cfg(test)]
mod desks;
#[cfg(test)]
mod grammars;
#[cfg(test)]
mod operators;
#[cfg(test)]
mod sources;
