//! What a table takes, without its program.
ghost use Rattle.std.specs.Prelude.{◌≡◌, IfOk, map};
ghost use Rattle.p4_program.specs.Shapes.{argument_width, widths_of, argument_widths, key_shape, shape_of};
ghost use Rattle.p4_program.specs.Trees.Callables.{key_of, table_of};
ghost use Rattle.p4_program.specs.Trees.Programs.{core_of};

use crate::typed::callables::Parameter;
use crate::typed::program::Program;
use crate::typed::tables::{ListedAction, MatchKind, Table, TableKey};
use crate::typed::types::{Scalar, ValueType, Widths};
use sqlite_items::Items;
use std::alloc::{AllocError, Global};

/// How many bits the number of a member has.
const MEMBER_WIDTH: u8 = 8;

/// How a key is matched, and how many bits it has.
#[derive(Clone, Copy, Debug, PartialEq, Eq)]
pub struct KeyShape {
    pub kind: MatchKind,
    pub width: u8,
}

/// The keys of a table, and the widths of the arguments of each action that it lists.
#[derive(Debug, Drop)]
pub struct TableShape {
    /// A key is ternary, so that priorities decide.
    pub ordered: bool,
    /// The table has constant entries.
    pub constant: bool,
    pub keys: Items<KeyShape>,
    pub actions: Items<Widths>,
}

/// What a table of the program takes.
pub fn shape_of(alloc: Global, program: &Program, table: &Table) -> Result<TableShape, AllocError>
    ensures { IfOk result (λ shape. shape ≡ shape_of (core_of program.now) (table_of table.now)) }
{
    Ok(TableShape {
        ordered: table.is_ordered(),
        constant: table.entries.is_some(),
        keys: key_shapes(alloc, table.keys.as_slice())?,
        actions: widths_listed(alloc, program, table.actions.as_slice())?,
    })
}

fn key_shapes(alloc: Global, keys: &[TableKey]) -> Result<Items<KeyShape>, AllocError>
    ensures { IfOk result (λ shapes. shapes ≡ map (λ k. key_shape (key_of k)) keys.now) }
{
    let mut shapes = Items::new(alloc);
    for key in keys {
        shapes.push(key_shape(key))?;
    }
    Ok(shapes)
}

fn key_shape(key: &TableKey) -> KeyShape
    ensures { result ≡ key_shape (key_of key.now) }
{
    KeyShape {
        kind: key.match_kind,
        width: key.width,
    }
}

/// The widths of the arguments of each action of a list.
fn widths_listed(
    alloc: Global,
    program: &Program,
    actions: &[ListedAction],
) -> Result<Items<Widths>, AllocError>
    ensures { IfOk result (λ widths. widths
        ≡ map (λ listed. argument_widths (core_of program.now) listed.action) actions.now) }
{
    let mut widths = Items::new(alloc);
    for listed in actions {
        widths.push(argument_widths(alloc, program, listed.action)?)?;
    }
    Ok(widths)
}

fn argument_widths(alloc: Global, program: &Program, action: u32) -> Result<Widths, AllocError>
    ensures { IfOk result (λ widths. widths ≡ argument_widths (core_of program.now) action) }
{
    match program.action(action) {
        Some(action) => parameter_widths(alloc, action.parameters.as_slice()),
        None => Ok(Items::new(alloc)),
    }
}

fn parameter_widths(alloc: Global, parameters: &[Parameter]) -> Result<Widths, AllocError>
    ensures { IfOk result (λ widths. widths ≡ widths_of parameters.now) }
{
    let widths = parameters.iter().map(parameter_width).collect(alloc)?;
    Ok(Items::from_vec(widths))
}

fn parameter_width(parameter: &Parameter) -> u8
    ensures { result ≡ argument_width parameter.now.value_type }
{
    match parameter.value_type {
        ValueType::Simple(Scalar::Sized(width)) => width,
        ValueType::Simple(Scalar::Members(_)) => MEMBER_WIDTH,
        ValueType::Header(_) | ValueType::Stack(_, _) | ValueType::Struct(_) => 0,
    }
}
