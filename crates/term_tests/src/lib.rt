//! Tests alone, of terms: a module for each crate over its public calls.
#![tactic(auto)]

#[cfg(test)]
mod circuits;
#[cfg(test)]
mod dag;
#[cfg(test)]
mod points;
#[cfg(test)]
mod substitution;
#[cfg(test)]
mod symbolic;
