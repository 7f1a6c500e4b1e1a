//! How a run ends.
ghost use Rattle.std.specs.Prelude.{◌≡◌};
ghost use Rattle.p4_program.specs.Outcome.{shape_of};

use crate::input::Bytes;

/// How a run ends.
#[derive(Debug, Drop)]
pub enum Outcome {
    /// A packet of these bytes leaves at the port.
    Sent(u16, Bytes),
    /// No packet leaves.
    Dropped,
    /// The parser would enter more states than the bounds allow.
    Overrun,
}

/// An outcome without its bytes.
#[derive(Clone, Copy, Debug, PartialEq, Eq)]
pub enum Shape {
    /// The port, and the number of bytes.
    Sent(u16, u64),
    Dropped,
    Overrun,
}

/// The shape of an outcome.
pub fn outcome_shape(outcome: &Outcome) -> Shape
    ensures { result ≡ shape_of outcome.now }
{
    match outcome {
        Outcome::Sent(port, bytes) => Shape::Sent(*port, bytes.len() as u64),
        Outcome::Dropped => Shape::Dropped,
        Outcome::Overrun => Shape::Overrun,
    }
}
