//! Tests: an input with what is expected of it.
ghost use Rattle.std.specs.Prelude.{IsTrue};
ghost use Rattle.p4_meaning.specs.Expected.{is_printable};

use p4_program::Input;
use sqlite_items::Items;

/// What is expected of half a byte of a packet.
#[derive(Clone, Copy, Debug, PartialEq, Eq)]
pub enum Nibble {
    /// This digit, below 16.
    Fixed(u8),
    /// Any digit: two runs differ here.
    Masked,
    /// Any digit: the budget was spent before it was known whether runs differ here.
    Undecided,
}

/// A list of nibbles, the high half of each byte before its low half.
pub type Nibbles = Items<Nibble>;

/// What is expected of a run.
#[derive(Debug, Drop)]
pub enum Expected {
    /// No packet.
    Drop,
    /// A packet at this port.
    Packet { port: u16, nibbles: Nibbles },
}

/// An input with what is expected of each of its runs. The port that is expected is at most 510,
/// the nibbles are even in number, and each digit is below 16.
#[derive(Debug, Drop)]
pub struct Test {
    pub input: Input,
    pub expected: Expected,
    ghost printable: { IsTrue (is_printable expected) },
}
