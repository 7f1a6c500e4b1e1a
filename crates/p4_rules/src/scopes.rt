//! What stands around a part of a source.

use crate::types::SourceType;
use p4_tree::Direction;
use sqlite_items::Items;

/// A parameter of a parser, a control or an action, with the direction that stands before it.
#[derive(Debug, Drop)]
pub struct ParameterShape {
    pub direction: Option<Direction>,
    pub type_of: SourceType,
    pub name: Items<u8>,
}

/// The functions of core.p4 and v1model.p4 that are called by their name alone.
#[derive(Clone, Copy, Debug, PartialEq, Eq)]
pub enum Function {
    Verify,
    MarkToDrop,
    VerifyChecksum,
    UpdateChecksum,
    LogMsg,
    Random,
    /// One that this profile leaves out.
    LeftOut,
}

/// Where something stands.
#[derive(Clone, Copy, Debug, PartialEq, Eq)]
pub enum Here {
    AtTop,
    InParser,
    InControl,
    InAction,
}

/// The calls that only one block of the switch may have, and whether they may stand here.
#[derive(Clone, Copy, Debug, PartialEq, Eq)]
pub struct Allowed {
    pub verify_checksum: bool,
    pub update_checksum: bool,
    pub emit: bool,
}
