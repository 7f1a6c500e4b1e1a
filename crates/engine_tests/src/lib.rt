//! Tests alone, of the engine as a whole: command lines over desks in memory.
#![tactic(auto)]

#[cfg(test)]
mod rows;
#[cfg(test)]
mod sparing_desk;
