//! Statements.

use crate::typed::expressions::Expression;
use crate::typed::paths::{Path, Root};
use crate::typed::types::ValueType;
use sqlite_items::Items;
use tg_base::Span;

/// How a checksum is computed.
#[derive(Clone, Copy, Debug, PartialEq, Eq)]
pub enum Algorithm {
    Csum16,
    Xor16,
}

/// What is passed for a parameter, by the direction.
#[derive(Drop)]
pub enum Argument {
    In(Expression),
    Out(Path),
    InOut(Path),
}

/// What a numbered statement does.
#[derive(Drop)]
pub enum Work {
    Assign(Path, Expression),
    /// The path, the high and the low bit of the slice, and the value.
    AssignSlice(Path, u8, u8, Expression),
    Return,
    Exit,
    /// The number of the action among the callables.
    CallAction(u32, Items<Argument>),
    /// The number of the table in the control.
    ApplyTable(u32),
    /// The number of the instance in the control.
    ApplyControl(u32, Items<Argument>),
    SetValid(Path),
    SetInvalid(Path),
    PushFront(Path, u128),
    PopFront(Path, u128),
    Extract(Path),
    /// By this many bits.
    Advance(u128),
    /// The condition, and the error where it does not hold.
    Verify(Expression, Expression),
    Emit(Expression),
    /// A call that evaluates its arguments and changes nothing, as those of counters and `log_msg`.
    Evaluate(Items<Expression>),
    /// On standard metadata.
    MarkToDrop(Path),
    /// The condition, the data, the sum that is expected, and how it is computed.
    VerifyChecksum(Expression, Items<Expression>, Expression, Algorithm),
    /// The condition, the data, the path that takes the sum, and how it is computed.
    UpdateChecksum(Expression, Items<Expression>, Path, Algorithm),
    /// The path that takes the number, and the ends of its range.
    Random(Path, Expression, Expression),
    /// The index, and the path that takes the colour.
    ExecuteMeter(Expression, Path),
}

/// A label of a `switch` on what a table did.
#[derive(Clone, Copy, Debug, PartialEq, Eq)]
pub enum Label {
    /// The place of an action in the table's list.
    Listed(u32),
    Default,
}

/// A statement. Blocks are laid into the statements around them.
#[cycle(statement)]
#[derive(Drop)]
pub enum Statement {
    /// A numbered statement, at the place of its first token.
    Numbered(u32, Span, Work),
    /// The declaration of a variable, with the value that it takes.
    Declare(Root, ValueType, Option<Expression>),
    /// The place of `if`, the condition, and the statements where it holds and where it does not.
    If(Span, Expression, Vec<Statement>, Vec<Statement>),
    /// The number of the table that is applied, and the cases in order.
    Switch(u32, Vec<SwitchCase>),
}

/// The labels that share a body, and the body.
#[cycle(statement)]
#[derive(Drop)]
pub struct SwitchCase {
    pub labels: Items<Label>,
    pub body: Vec<Statement>,
}
