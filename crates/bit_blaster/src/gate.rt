//! What a variable that is no input is made of.
use cnf_core::Lit;

/// A gate over literals of earlier variables.
#[derive(Clone, Copy, Debug)]
pub enum Gate {
    And(Lit, Lit),
    Xor(Lit, Lit),
    /// The second where the first is true, and else the third.
    Choose(Lit, Lit, Lit),
    /// What two of the three say at least.
    Majority(Lit, Lit, Lit),
}
