//! One bit of a circuit.
ghost use Rattle.std.specs.Prelude.{◌≡◌};
ghost use Rattle.bit_blaster.specs.Wire.{opposite};

use cnf_core::Lit;
use std::ops::Not;

/// A bit that is known, or a literal of a circuit's variable. What is known costs no clause.
#[derive(Clone, Copy, Debug)]
pub enum Wire {
    Known(bool),
    Literal(Lit),
}

/// The wire with the opposite value, which costs no gate.
impl Not for Wire {
    type Output = Wire;

    ghost not_gives = { λ w result. result ≡ opposite w };

    fn not(self) -> Wire {
        match self {
            Wire::Known(truth) => Wire::Known(!truth),
            Wire::Literal(literal) => Wire::Literal(!literal),
        }
    }
}
