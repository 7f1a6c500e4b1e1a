//! What names stand for.

use crate::constants::Constant;
use crate::integer::Integer;
use p4_program::typed::Root;
use p4_rules::{Function, Object, SourceType};

/// What a name stands for.
#[derive(Clone, Copy, Debug)]
pub enum Meaning {
    /// A type, an extern, a parser, a control or the package.
    TypeOf(SourceType),
    /// A compile-time integer.
    IntegerOf(Integer),
    ConstantOf(Constant),
    /// A variable or a parameter, whether it may be assigned to, and its place.
    VariableOf(SourceType, bool, Root),
    /// A packet, or an instance of an extern.
    ObjectOf(Object),
    /// An action, by its number among the callables.
    ActionOf(u32),
    /// A table of the control by its number there.
    TableOf(u32),
    /// An instance of a control by its number there, with the number of the control.
    InstanceOf(u32, u32),
    FunctionOf(Function),
    /// A state of the parser, by its number.
    StateOf(u32),
}
