//! What a solver derives from a formula: cubes and steps, and the variables of a question.

use super::{Clause, Lit};
use sqlite_items::Items;

/// Literals that are decided together, in the order of the decisions.
pub type Cube = Items<Lit>;

/// The numbers of clauses, in the order in which they set literals.
pub type Hints = Items<u32>;

/// A clause that follows by reverse unit propagation along its hints.
#[derive(Debug, Drop)]
pub struct Step {
    pub clause: Clause,
    pub hints: Hints,
}

/// One line of a derivation.
#[derive(Debug, Drop)]
pub enum Derived {
    Cube(Cube),
    Step(Step),
}

/// The lines of a derivation, in order.
pub type Steps = Items<Derived>;

/// What a variable stands for: an input bit by its number, or a bit (0 the lowest) of a numbered read.
#[derive(Clone, Copy, Debug, PartialEq, Eq, PartialOrd, Ord, Hash)]
pub enum Var {
    Input(u32),
    Read(u32, u32),
}
