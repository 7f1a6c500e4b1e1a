//! How two wires stand to each other, as far as a circuit can tell without a clause.
ghost use Rattle.std.specs.Prelude.{◌≡◌};
ghost use Rattle.bit_blaster.specs.Pair.{IsPair};

use crate::wire::Wire;
use cnf_core::Lit;

/// What is told of two wires: the first of these that is so.
#[derive(Clone, Copy, Debug)]
pub enum Pair {
    FirstKnown(bool),
    SecondKnown(bool),
    Same,
    Opposite,
    /// Literals of different variables.
    Apart(Lit, Lit),
}

/// How the wires stand to each other.
pub(crate) fn pair_of(a: Wire, b: Wire) -> Pair
    ensures { IsPair a b result }
{
    match (a, b) {
        (Wire::Known(truth), _) => Pair::FirstKnown(truth),
        (_, Wire::Known(truth)) => Pair::SecondKnown(truth),
        (Wire::Literal(k), Wire::Literal(l)) => literals(k, l),
    }
}

/// How two literals stand to each other.
fn literals(k: Lit, l: Lit) -> Pair
    ensures { IsPair (Wire.Literal k) (Wire.Literal l) result }
{
    if k.var != l.var {
        Pair::Apart(k, l)
    } else if k.positive == l.positive {
        Pair::Same
    } else {
        Pair::Opposite
    }
}
