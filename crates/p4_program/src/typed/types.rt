//! Types of values, with the tables of headers and structs.

use sqlite_items::Items;

/// A list of widths.
pub type Widths = Items<u8>;

/// The bytes of a name.
pub type Text = Items<u8>;

/// What a value without parts is.
#[derive(Clone, Copy, Debug, PartialEq, Eq)]
pub enum Scalar {
    /// This many bits: a `bit`, an `int`, a `bool`, which has one, or an enum over bits.
    Sized(u8),
    /// An error, or an enum without a width, by the number of the member from 0, of this many.
    Members(u32),
}

/// The type of a variable or of a path.
#[derive(Clone, Copy, Debug, PartialEq, Eq)]
pub enum ValueType {
    Simple(Scalar),
    /// The header type of this number.
    Header(u32),
    /// The header type of this number, and how many elements the stack has.
    Stack(u32, u8),
    /// The struct type of this number.
    Struct(u32),
}

/// A header type: the widths of its fields in order.
#[derive(Debug, Drop)]
pub struct HeaderType {
    pub widths: Widths,
}

/// A struct type: the types of its fields in order.
#[derive(Debug, Drop)]
pub struct StructType {
    pub fields: Items<ValueType>,
}
