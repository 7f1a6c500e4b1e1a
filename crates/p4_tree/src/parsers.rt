//! Parsers and their states.

use crate::declarations::{Constant, Parameter, Variable};
use crate::expressions::Expression;
use crate::keys::KeySet;
use crate::names::{Annotation, Name};
use crate::statements::BlockPart;
use sqlite_items::Items;
use tg_base::Span;

#[derive(Drop)]
pub struct Parser {
    pub name: Name,
    pub parameters: Items<Parameter>,
    pub parts: Items<ParserPart>,
    pub span: Span,
}

#[derive(Drop)]
pub struct ParserPart {
    pub annotations: Items<Annotation>,
    pub kind: ParserPartKind,
}

#[derive(Drop)]
pub enum ParserPartKind {
    Constant(Constant),
    Variable(Variable),
    State(State),
}

#[derive(Drop)]
pub struct State {
    pub name: Name,
    pub parts: Items<BlockPart>,
    pub transition: Option<Transition>,
    pub span: Span,
}

#[derive(Drop)]
pub struct Transition {
    pub kind: TransitionKind,
    pub span: Span,
}

#[derive(Drop)]
pub enum TransitionKind {
    To(Name),
    /// The values that are matched, and the cases in order.
    Select(Items<Expression>, Items<SelectCase>),
}

/// A key set, and the state that it leads to.
#[derive(Drop)]
pub struct SelectCase {
    pub key_set: KeySet,
    pub target: Name,
    pub span: Span,
}
