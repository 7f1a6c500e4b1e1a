//! The types of a source, as its rules tell them apart. What a struct, a header or an enumeration declares stands in a list
//! of its kind, and its type is named by its number there.

use sqlite_items::Items;

/// What has a type's name but no value.
#[derive(Clone, Copy, Debug, PartialEq, Eq)]
pub enum Object {
    PacketIn,
    PacketOut,
    Counter,
    DirectCounter,
    /// `meter`; the type of what a meter reads is given where it is read.
    Meter,
    Register,
    /// `V1Switch`.
    Package,
    /// A parser of the source, by its number.
    ParserType(u32),
    /// A control of the source, by its number.
    ControlType(u32),
}

#[derive(Clone, Copy, Debug, PartialEq, Eq)]
pub enum SourceType {
    /// `bit<w>`.
    Bit(u8),
    /// `int<w>`.
    Signed(u8),
    /// `int`, the integers of compile time.
    Integer,
    Boolean,
    Error,
    /// An enumeration without a width.
    Enumeration(u32),
    /// An enumeration over `bit<w>`, by its number and its width.
    BitEnumeration(u32, u8),
    Structure(u32),
    Header(u32),
    /// A stack of headers, with its size.
    Stack(u32, u8),
    Opaque(Object),
}

/// A field of a struct or of a header.
#[derive(Debug, Drop)]
pub struct FieldOf {
    pub name: Items<u8>,
    pub type_of: SourceType,
}
