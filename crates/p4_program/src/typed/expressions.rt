//! Expressions.

use crate::typed::paths::{Path, Step};
use crate::typed::types::Scalar;
use bits_core::Op;

/// What stands between two operands.
#[derive(Clone, Copy, Debug, PartialEq, Eq)]
pub enum Operator {
    /// An operator on bits, which has the signedness of its operands in its name.
    Plain(Op),
    NotEqual,
    GreaterU,
    GreaterS,
    AtLeastU,
    AtLeastS,
    /// `&&`, whose right side is evaluated only where the left one holds.
    LogicalAnd,
    /// `||`, whose right side is evaluated only where the left one does not hold.
    LogicalOr,
}

/// An expression. A `bool` is one bit.
#[cycle(expression)]
#[derive(Drop)]
pub enum Expression {
    /// A number of bits, or the number of a member.
    Constant(Scalar, u128),
    Read(Path),
    /// `isValid()` of a header.
    IsValid(Path),
    /// `lookahead` of this many bits.
    Lookahead(u8),
    /// An operator of one operand.
    Unary(Op, Box<Expression>),
    /// The first operand, and operators of one level with the operands behind them, from left to right.
    Operations(Box<Expression>, Vec<Operation>),
    /// The bits of a value from the high one down to the low one.
    Slice(Box<Expression>, u8, u8),
    /// A value widened or cut to this many bits, by copies of the sign where the flag holds.
    Resize(bool, u8, Box<Expression>),
    /// The condition, and the values where it holds and where it does not.
    Choice(Box<Expression>, Box<Expression>, Box<Expression>),
    /// The part, one step further, of a value to which no path leads.
    PartOf(Box<Expression>, Step),
    /// `isValid()` of a header to which no path leads.
    ValidityOf(Box<Expression>),
    /// `apply().hit` of the table of this number of the control.
    Hit(u32),
}

/// An operator, and the operand behind it.
#[cycle(expression)]
#[derive(Drop)]
pub struct Operation {
    pub operator: Operator,
    pub operand: Expression,
}
