//! A source, and declarations that stand at its top.

use crate::controls::{Control, Instance};
use crate::expressions::{Expression, TypeForm, Width};
use crate::names::{Annotation, Name};
use crate::parsers::Parser;
use crate::statements::Block;
use sqlite_items::Items;
use tg_base::Span;

/// A whole source, and the place behind its last byte.
#[derive(Drop)]
pub struct Source {
    pub parts: Items<TopPart>,
    pub end: Span,
}

/// What stands at the top of a source.
#[derive(Drop)]
pub enum TopPart {
    /// `;`, with its place.
    Empty(Span),
    Declaration(Declaration),
}

#[derive(Drop)]
pub struct Declaration {
    pub annotations: Items<Annotation>,
    pub kind: DeclarationKind,
    pub span: Span,
}

#[derive(Drop)]
pub enum DeclarationKind {
    Constant(Constant),
    Typedef(Typedef),
    Struct(Name, Items<Field>),
    Header(Name, Items<Field>),
    Enumeration(Enumeration),
    Errors(Items<Member>),
    Action(Action),
    Parser(Parser),
    Control(Control),
    Instance(Instance),
}

/// `typedef type name;`.
#[derive(Drop)]
pub struct Typedef {
    pub type_form: TypeForm,
    pub name: Name,
}

/// A field of a struct or a header.
#[derive(Drop)]
pub struct Field {
    pub annotations: Items<Annotation>,
    pub type_form: TypeForm,
    pub name: Name,
    pub span: Span,
}

#[derive(Drop)]
pub struct Enumeration {
    /// The width of the bits that stand for a member.
    pub width: Option<Width>,
    pub name: Name,
    pub members: Items<Member>,
}

/// A member of an enumeration or of the errors.
#[derive(Drop)]
pub struct Member {
    pub name: Name,
    pub value: Option<Expression>,
    pub span: Span,
}

/// `const type name = value;`.
#[derive(Drop)]
pub struct Constant {
    pub type_form: TypeForm,
    pub name: Name,
    pub value: Expression,
    pub span: Span,
}

/// `type name;`, or `type name = value;`.
#[derive(Drop)]
pub struct Variable {
    pub type_form: TypeForm,
    pub name: Name,
    pub value: Option<Expression>,
    pub span: Span,
}

#[derive(Drop)]
pub struct Action {
    pub name: Name,
    pub parameters: Items<Parameter>,
    pub body: Block,
    pub span: Span,
}

/// A parameter of an action, a parser or a control.
#[derive(Drop)]
pub struct Parameter {
    pub annotations: Items<Annotation>,
    pub direction: Option<Direction>,
    pub type_form: TypeForm,
    pub name: Name,
    pub span: Span,
}

#[derive(Clone, Copy, Debug, PartialEq, Eq)]
pub enum Direction {
    In,
    Out,
    InOut,
}
