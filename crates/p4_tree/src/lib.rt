//! The tree of a source, as it is written: what is declared, with types, expressions and statements, and the place of each.
//!
//! It keeps parentheses, spellings and annotations, and forms that only a later pass refuses. What stands in a row is one
//! list: declarations, statements, the operands of operators of one level, the parts behind an operand. So a tree is only as
//! deep as brackets, operands and branches are nested. Anyone can build one: a name is a list of bytes, also one that no
//! source can spell. It knows nothing of tokens and of rows; `p4_grammar` says which tree a list of tokens has.
#![tactic(auto)]

mod controls;
mod declarations;
mod expressions;
mod keys;
mod names;
mod parsers;
mod statements;
mod tables;

pub use controls::{Control, ControlPart, Instance, InstanceArgument, InstanceArgumentKind, Local};
pub use declarations::{
    Action, Constant, Declaration, DeclarationKind, Direction, Enumeration, Field, Member,
    Parameter, Source, TopPart, Typedef, Variable,
};
pub use expressions::{
    BaseType, Expression, ExpressionKind, Operation, Operator, PostfixKind, PostfixPart, SimpleKey,
    SimpleKeyKind, TypeForm, UnaryOperator, Width, WidthKind,
};
pub use keys::{KeySet, KeySetKind};
pub use names::{Annotation, AnnotationKind, Name, Text};
pub use parsers::{
    Parser, ParserPart, ParserPartKind, SelectCase, State, Transition, TransitionKind,
};
pub use statements::{
    Block, BlockPart, BlockPartKind, Statement, StatementKind, SwitchCase, SwitchLabel,
};
pub use tables::{Entry, ListedAction, Property, PropertyKind, Table, TableKey};
