//! The domain whose values are terms of a dag, for questions about all inputs and all unspecified reads at once: what it
//! runs is a term of the input's bits and the reads. Flags are terms of one bit. It offers every read, and its laws speak
//! of all points.
//!
//! `specs/Meaning.antt` says what a term stands for as a value and as a flag, by `Values` of `term_dag`.
#![tactic(auto)]

mod symbolic_domain;

pub use symbolic_domain::SymbolicDomain;
