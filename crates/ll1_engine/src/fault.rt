//! What a table breaks, where tokens stop, and want of memory beside both.

use crate::parser::Tree;
use std::alloc::AllocError;
use thiserror::Error;

/// A condition that a row can break, in the order in which they are named.
#[derive(Clone, Copy, Debug, PartialEq, Eq)]
pub enum Break {
    /// From its left symbol no list of tokens can be derived.
    Barren,
    /// The row has a rank above 0 that it may not have.
    Rank,
    /// Two rows of the symbol, this one among them, derive the empty list.
    Nullable,
    /// A token is in FIRST of the row and of another row of its symbol.
    First,
    /// Another row of the symbol derives the empty list, and a token is in FIRST of the row and in FOLLOW of
    /// the symbol.
    Follow,
}

/// A row that breaks a condition, where no earlier row breaks any, and the first of those that it breaks.
#[derive(Clone, Copy, Debug, PartialEq, Eq)]
pub struct TableFault {
    pub row: usize,
    pub breaks: Break,
}

/// Why `check_table` gives no checked table.
#[derive(Debug, Drop, Error)]
pub enum CheckFault {
    #[error("row {} breaks {:?}", .0.row, .0.breaks)]
    Table(TableFault),
    #[error("out of memory")]
    Memory(AllocError),
}

/// Where a parse stops: behind the longest prefix of the tokens that some list with a tree begins with. The rows are those
/// taken by then.
#[derive(Debug, Drop)]
pub struct Stop {
    pub at: usize,
    pub rows: Tree,
}

/// Why `parse` gives no tree.
#[derive(Debug, Drop, Error)]
pub enum ParseFault {
    #[error("no tree goes on at token {}", .0.at)]
    Stop(Stop),
    #[error("out of memory")]
    Memory(AllocError),
}
