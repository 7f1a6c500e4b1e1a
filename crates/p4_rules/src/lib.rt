//! The rules of the language: which typed program a source has, and which faults.
//!
//! It holds definitions and laws, and nothing that runs. A part of a source is checked to what it stands for or to its
//! faults, never to both, by the form of `Checked`; a source is checked as its parts are. The walks that work this out
//! stand above.
#![tactic(auto)]

mod faults;
pub mod laws;
mod scopes;
mod types;

pub use faults::{Fault, Pass};
pub use scopes::{Allowed, Function, Here, ParameterShape};
pub use types::{FieldOf, Object, SourceType};
