//! The domain of numbers with a mask of bits that a run may change, for one run of lowered code on one input that serves for
//! every choice of the unspecified reads: a value is its number where each read gives 0, and has that number's bits outside
//! the mask in each run. No operation takes memory, and none answers want of it.
//!
//! What a value stands for is `StandsFor` in `specs/Tainted.antt`; the bits that can differ are those of `CanDiffer` in
//! `specs/Results.antt`, of the set of results that an operation may have. Each mask has all of them, and but for products,
//! saturation and shifts by a masked amount no other.
#![tactic(auto)]

mod comparisons;
mod flag;
pub mod laws;
mod masks;
mod places;
mod products;
mod sums;
mod taint_domain;
mod tainted;

pub use flag::TaintFlag;
pub use taint_domain::TaintDomain;
pub use tainted::Tainted;
