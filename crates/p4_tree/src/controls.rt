//! Controls, and instances of what has a constructor.

use crate::declarations::{Action, Constant, Parameter, Variable};
use crate::expressions::{Expression, TypeForm};
use crate::names::{Annotation, Name};
use crate::statements::Block;
use crate::tables::Table;
use sqlite_items::Items;
use tg_base::Span;

#[derive(Drop)]
pub struct Control {
    pub name: Name,
    pub parameters: Items<Parameter>,
    pub parts: Items<ControlPart>,
    pub body: Block,
    pub span: Span,
}

#[derive(Drop)]
pub struct ControlPart {
    pub annotations: Items<Annotation>,
    pub local: Local,
}

/// What a control declares.
#[derive(Drop)]
pub enum Local {
    Constant(Constant),
    Variable(Variable),
    Action(Action),
    Table(Table),
    Instance(Instance),
}

/// `type(arguments) name;`.
#[derive(Drop)]
pub struct Instance {
    pub type_form: TypeForm,
    pub arguments: Items<InstanceArgument>,
    pub name: Name,
    pub span: Span,
}

#[derive(Drop)]
pub struct InstanceArgument {
    pub kind: InstanceArgumentKind,
    pub span: Span,
}

#[derive(Drop)]
pub enum InstanceArgumentKind {
    /// `type()`.
    Constructed(Name),
    Value(Expression),
}
