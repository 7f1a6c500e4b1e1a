//! What a term is read at: the bits of the input, and a value for each numbered read.
use crate::number::Bits;
use sqlite_items::Items;

/// Numbers of fixed width, in order.
pub type BitsList = Items<Bits>;

/// A choice of all that a term may depend on.
#[derive(Debug, Drop)]
pub struct Point {
    /// The input's bits, by their numbers from 0.
    pub inputs: Items<bool>,
    /// What each numbered read gives, by its number from 0.
    pub reads: BitsList,
}
