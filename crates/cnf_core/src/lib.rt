//! Propositional formulas in conjunctive normal form: literals, clauses, valuations, and the cubes and
//! steps of a derivation. It solves and checks nothing; `refutation_checker` accepts derivations.
#![tactic(auto)]

mod derivation;
mod formula;

pub use derivation::{Cube, Derived, Hints, Step, Steps, Var};
pub use formula::{Clause, Clauses, Lit, Valuation, holds};
