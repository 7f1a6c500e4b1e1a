//! A number as a source writes it.

use sqlite_items::Items;

/// The type that a number's prefix gives it.
#[derive(Clone, Copy, Debug, PartialEq, Eq)]
pub enum IntType {
    /// No prefix: an integer of any size.
    Integer,
    /// `bit<width>`, written `Ww`.
    Unsigned(u8),
    /// `int<width>`, written `Ws`.
    Signed(u8),
}

/// The value that a number's digits give, whether it fits the type of its prefix or not.
#[derive(Clone, Copy, Debug, PartialEq, Eq)]
pub enum IntValue {
    Exact(u128),
    /// The value needs more than 128 bits.
    TooLarge,
}

/// A number as it is written: its type, its value, and its spelling, by which keys are named.
#[derive(Debug, Drop)]
pub struct Literal {
    pub int_type: IntType,
    pub value: IntValue,
    pub spelling: Items<u8>,
}
