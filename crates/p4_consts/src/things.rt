//! What an expression stands for: a value, or something that has none by itself, as a method before its arguments.

use crate::meanings::Meaning;
use crate::operands::{Operand, Placed};
use p4_program::typed::{Path, Work};
use p4_rules::{Fault, SourceType};
use sqlite_items::Items;
use tg_base::Span;

/// What may be called behind a `.`.
#[derive(Drop)]
pub enum Method {
    /// Of a header, and of a stack with its element.
    IsValid(Operand),
    SetValid(Operand),
    SetInvalid(Operand),
    PushFront(Operand),
    PopFront(Operand),
    /// Of a packet that is read, and of one that is written.
    Extract,
    Advance,
    Lookahead(SourceType),
    Emit,
    /// Of externs.
    Count,
    CountDirect,
    ExecuteMeter,
    /// Of a table, and of an instance of a control.
    ApplyTable(u32),
    ApplyControl(u32, u32),
}

/// What an expression stands for.
#[derive(Drop)]
pub enum Thing {
    Value(Operand),
    /// A type's name before a `.`, and `error` there.
    TypeName(SourceType),
    Errors,
    /// A name that has no value.
    Named(Meaning),
    MethodOf(Method),
    /// The element of a stack that is filled next, and whether it may be assigned to.
    NextOf(SourceType, bool, Path),
    /// `t.apply()`, and the action that it ran.
    Applied(u32),
    ActionRun(u32),
    /// A call that is a statement.
    WorkOf(Work),
    Text,
    /// A list in braces: the value of each part, or why it has none.
    Braced(Items<Result<Placed, Fault>>),
}

/// What an expression stands for, and its first token within all parentheses.
#[derive(Drop)]
pub struct Judged {
    pub thing: Thing,
    pub place: Span,
}
