//! The typed program: a small core of P4-16, in which every name is resolved.
//!
//! What is declared is named by its number: structs and headers, callables (actions, parsers and controls in the order of
//! the source), states, tables, instances. A variable or a parameter is named by its place in the frame of its callable.
//! Implicit casts are written out and constants stand as their values, so a value is a number of bits, or a member of an
//! error or of an enum. Blocks are laid into the statements around them, typedefs and constants are gone, and so are the
//! packet parameters. `specs/Syntax` has the same program without pointers, and what holds of every program.

mod bounded_input;
mod built_program;
mod built_statements;
mod callables;
mod entries;
mod expressions;
mod input;
mod instances;
mod key_equality;
pub mod laws;
mod limits;
mod numbered_places;
mod opening_input;
mod paths;
mod program;
mod shapes;
mod statements;
mod table_names;
mod tables;
mod types;
mod unnumbered;

pub use bounded_input::bounded;
pub use built_program::built;
pub use callables::{
    Action, Callable, Control, Direction, Parameter, Parser, SelectCase, State, Target, Transition,
};
pub use expressions::{Expression, Operation, Operator};
pub use input::{Entries, Entry, Input, MAX_PRIORITY, Patterns};
pub use instances::{Blocks, Instance, NamedTable};
pub use limits::{
    MAX_ACTIONS, MAX_CALL_DEPTH, MAX_CONSTANT_ENTRIES, MAX_KEYS, MAX_MEMBERS, MAX_PARSER_NODES,
    MAX_PATHS, MAX_SOURCE_BYTES, MAX_STACK_SIZE, MAX_STATES, MAX_TABLES, MAX_TOKENS,
    MAX_UNFOLDED_STATEMENTS,
};
pub use numbered_places::{Places, statement_places};
pub use opening_input::opening;
pub use paths::{Path, Root, Step};
pub use program::Program;
pub use shapes::{KeyShape, TableShape, shape_of};
pub use statements::{Algorithm, Argument, Label, Statement, SwitchCase, Work};
pub use table_names::table_name;
pub use tables::{ConstantEntry, ListedAction, MatchKind, Pattern, Table, TableKey};
pub use types::{HeaderType, Scalar, StructType, Text, ValueType, Widths};
