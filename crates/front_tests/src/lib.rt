//! Tests alone, of the front end: a module for each crate under test, over its public calls.
#![tactic(auto)]

#[cfg(test)]
mod reads;
#[cfg(test)]
mod scans;
#[cfg(test)]
mod words;
