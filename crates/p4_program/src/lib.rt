//! The typed program that every later layer reads, the bounds under which it is tested, the inputs
//! within these bounds, and what is said of its runs below their meaning: how one ends (`Outcome`),
//! which entry of a table wins (`specs/Winners`), what an unspecified read may give
//! (`specs/Unspecified`).
//!
//! A program is so far the list of the statements of its ingress block. What its runs are stands in
//! `p4_meaning`; what belongs to the switch of v1model stands in `v1model`.
#![tactic(auto)]

mod bounds;
mod input;
mod outcome;
mod program;
mod resolution;
pub mod typed;
mod v1model;

pub use bounds::{Bounds, MAX_BUDGET, MAX_BYTES, MAX_ENTRIES, MAX_STEPS};
pub use input::{Bytes, Input, MAX_PORT, OPENING_BYTES, bounded};
pub use outcome::{Outcome, Shape, outcome_shape};
pub use program::{MAX_STATEMENTS, Program, Statement, StatementKind};
pub use resolution::{Resolution, Resolutions};
pub use v1model::{Block, DROP_PORT, EgressSpec, PORT_END};
