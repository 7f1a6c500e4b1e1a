//! Instances of controls, their tables by name, and the blocks.
ghost use Rattle.std.specs.Str.{IsAscii};

use crate::typed::types::Text;
use sqlite_items::Items;
use tg_base::Numbers;

/// An instance of a control.
#[derive(Debug, Drop)]
pub struct Instance {
    /// The number of the control among the callables.
    pub control: u32,
    /// For each table of the control, the number that it has here among the program's tables.
    pub tables: Numbers,
    /// The numbers of the instances of the control's children.
    pub children: Numbers,
}

/// A table of an instance, as the control plane sees it: its name begins with that of the control of the block, then come
/// those of the instances on the way, and that of the table, with points between them.
#[derive(Debug, Drop)]
pub struct NamedTable {
    /// The number of the control among the callables, and of the table in it.
    pub control: u32,
    pub table: u32,
    pub name: Text,
    /// The names of the actions in the table's list.
    pub action_names: Items<Text>,
    pub ghost ascii: { IsAscii name },
}

/// The six blocks.
#[derive(Clone, Copy, Debug, PartialEq, Eq)]
pub struct Blocks {
    /// The number of the parser among the callables.
    pub parser: u32,
    /// The numbers of the instances.
    pub verify: u32,
    pub ingress: u32,
    pub egress: u32,
    pub compute: u32,
    pub deparser: u32,
}
