//! The domain whose values are numbers and truth values as they are, for runs of lowered code on one input under one
//! resolution. No operation takes memory, and none answers want of it.
#![tactic(auto)]

mod concrete_domain;

pub use concrete_domain::ConcreteDomain;
