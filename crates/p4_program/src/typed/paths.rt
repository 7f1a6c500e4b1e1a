//! Paths: a variable or a parameter, and the way to one of its parts.

use crate::typed::types::ValueType;
use sqlite_items::Items;

/// Where a path begins: a place in a frame, the parameters first.
#[derive(Clone, Copy, Debug, PartialEq, Eq)]
pub enum Root {
    /// In the frame of the control or parser.
    OfBlock(u32),
    /// In the frame of the action.
    OfAction(u32),
}

/// One step of a path.
#[derive(Clone, Copy, Debug, PartialEq, Eq)]
pub enum Step {
    /// The field of this number of a struct or header.
    Field(u32),
    /// The element of this number of a stack.
    Element(u8),
    /// The element of a stack that is filled next.
    Next,
    /// The element of a stack that was filled last.
    Last,
}

/// A path, and the type of what it leads to.
#[derive(Debug, Drop)]
pub struct Path {
    pub root: Root,
    pub steps: Items<Step>,
    pub value_type: ValueType,
}
