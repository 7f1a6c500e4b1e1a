//! Whole programs.
ghost use Rattle.p4_program.specs.Trees.Parts.{core_with};
ghost use Rattle.p4_program.specs.WellFormed.Programs.{WellFormed};

use crate::typed::callables::{Action, Callable, Control, Parser};
use crate::typed::instances::{Blocks, Instance, NamedTable};
use crate::typed::tables::Table;
use crate::typed::types::{HeaderType, StructType};
use sqlite_items::Items;
use tg_base::Span;

/// A program.
#[derive(Drop)]
pub struct Program {
    pub headers: Items<HeaderType>,
    /// The struct types. The first is that of the standard metadata.
    pub structs: Items<StructType>,
    /// How many errors there are.
    pub errors: u32,
    /// The actions, parsers and controls in the order of the source, an action of a control before it. The first is
    /// `NoAction`.
    pub callables: Items<Callable>,
    /// The instances, each behind its children.
    pub instances: Items<Instance>,
    /// The tables of the instances of the blocks: in the order of their declarations, and those of one declaration in the
    /// order of the instances.
    pub tables: Items<NamedTable>,
    pub blocks: Blocks,
    /// The place of the declaration of `main`.
    pub main: Span,
    ghost well_formed: { ∥ WellFormed (core_with headers structs errors callables instances tables blocks main) ∥₁ },
}

impl Program {
    ghost use Rattle.std.specs.Prelude.{◌≡◌, option_map};
    ghost use Rattle.std.specs.Option.{option_copied};
    ghost use Rattle.p4_program.specs.Syntax.Lookup.{table_at, action_at, control_at};
    ghost use Rattle.p4_program.specs.Trees.Callables.{table_of, action_of, control_of, parser_of};
    ghost use Rattle.p4_program.specs.Trees.Programs.{core_of};
    ghost use Rattle.p4_program.specs.WellFormed.Programs.{parser_at, control_of_instance};

    /// The table of this number among the tables of the program, where it has one.
    pub fn table(&self, number: u32) -> Option<&Table>
        ensures { option_map table_of (option_copied result) ≡ table_at (core_of self.now) number }
    {
        let named = self.tables.get(number as usize)?;
        match self.callables.get(named.control as usize)? {
            Callable::OfControl(control) => control.tables.get(named.table as usize),
            Callable::OfAction(_) | Callable::OfParser(_) => None,
        }
    }

    /// The action of this number among the callables, where one has it.
    pub fn action(&self, number: u32) -> Option<&Action>
        ensures { option_map action_of (option_copied result)
            ≡ action_at (core_of self.now) number }
    {
        match self.callables.get(number as usize)? {
            Callable::OfAction(action) => Some(action),
            Callable::OfControl(_) | Callable::OfParser(_) => None,
        }
    }

    /// The control of this number among the callables, where one has it.
    pub fn control(&self, number: u32) -> Option<&Control>
        ensures { option_map control_of (option_copied result)
            ≡ control_at (core_of self.now) number }
    {
        match self.callables.get(number as usize)? {
            Callable::OfControl(control) => Some(control),
            Callable::OfAction(_) | Callable::OfParser(_) => None,
        }
    }

    /// The parser of this number among the callables, where one has it.
    pub fn parser(&self, number: u32) -> Option<&Parser>
        ensures { option_map parser_of (option_copied result)
            ≡ parser_at (core_of self.now) number }
    {
        match self.callables.get(number as usize)? {
            Callable::OfParser(parser) => Some(parser),
            Callable::OfAction(_) | Callable::OfControl(_) => None,
        }
    }

    /// The number of the control of which this instance is one, where there is the instance.
    pub fn control_of(&self, instance: u32) -> Option<u32>
        ensures { result ≡ control_of_instance (core_of self.now) instance }
    {
        Some(self.instances.get(instance as usize)?.control)
    }
}
