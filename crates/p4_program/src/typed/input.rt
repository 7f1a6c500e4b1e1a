//! Inputs of a typed program: a port, a packet, and entries of its tables.

use crate::input::Bytes;
use crate::typed::tables::Pattern;
use bits_core::BitsList;
use sqlite_items::Items;

/// The greatest priority of an entry.
pub const MAX_PRIORITY: u32 = 255;

/// A pattern for each key of a table.
pub type Patterns = Items<Pattern>;

/// Entries, in any order.
pub type Entries = Items<Entry>;

/// An entry of a table.
#[derive(Debug, Drop)]
pub struct Entry {
    /// The number of the table among those of the program.
    pub table: u32,
    /// 0 in a table without a ternary key. Of several entries that match, that of the least priority wins.
    pub priority: u32,
    pub keys: Patterns,
    /// The place of the action in the table's list.
    pub action: u32,
    pub arguments: BitsList,
}

/// What a run starts from: a packet, the port where it comes in, and what the control plane has put into the tables.
#[derive(Debug, Drop)]
pub struct Input {
    pub port: u16,
    pub packet: Bytes,
    pub entries: Entries,
}
