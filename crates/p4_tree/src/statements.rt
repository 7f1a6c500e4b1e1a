//! Statements and blocks.

use crate::declarations::{Constant, Variable};
use crate::expressions::Expression;
use crate::names::{Annotation, Name};
use sqlite_items::{Boxed, Items};
use tg_base::Span;

/// `{ .. }`.
#[cycle(statement)]
#[derive(Drop)]
pub struct Block {
    pub parts: Items<BlockPart>,
    pub span: Span,
}

/// What stands in a block or in a state.
#[cycle(statement)]
#[derive(Drop)]
pub struct BlockPart {
    pub annotations: Items<Annotation>,
    pub kind: BlockPartKind,
}

#[cycle(statement)]
#[derive(Drop)]
pub enum BlockPartKind {
    Statement(Statement),
    Constant(Constant),
    Variable(Variable),
}

#[cycle(statement)]
#[derive(Drop)]
pub struct Statement {
    pub kind: StatementKind,
    pub span: Span,
}

#[cycle(statement)]
#[derive(Drop)]
pub enum StatementKind {
    /// `;`.
    Empty,
    Block(Block),
    Exit,
    Return,
    /// The condition, the branch that it guards, and the branch behind `else`.
    If(Expression, Boxed<Statement>, Option<Boxed<Statement>>),
    Switch(Expression, Items<SwitchCase>),
    /// The target, and the value that it takes.
    Assign(Expression, Expression),
    /// A path alone, which a call is.
    Call(Expression),
}

#[cycle(statement)]
#[derive(Drop)]
pub struct SwitchCase {
    pub label: SwitchLabel,
    /// A label without a body shares the next one.
    pub body: Option<Block>,
    pub span: Span,
}

#[derive(Debug, Drop)]
pub enum SwitchLabel {
    Action(Name),
    Default,
}
