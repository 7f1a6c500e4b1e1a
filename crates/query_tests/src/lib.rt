//! Tests alone, of questions about terms, over the public calls of `query_engine`.
#![tactic(auto)]

#[cfg(test)]
mod asking;
#[cfg(test)]
mod questions;
#[cfg(test)]
mod terms;
