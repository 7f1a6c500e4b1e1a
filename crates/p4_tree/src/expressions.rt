//! Types and expressions, which lead to one another: a cast has a type, and a width or a size is an expression. The keys
//! that may stand in parentheses are among them.

use crate::names::{Name, Text};
use sqlite_items::{Boxed, Items};
use tg_base::{Literal, Span};

/// A type as it is written.
#[cycle(expression)]
#[derive(Drop)]
pub struct TypeForm {
    pub base: BaseType,
    /// The size of a stack, in brackets.
    pub size: Option<Boxed<Expression>>,
    pub span: Span,
}

/// A type without brackets behind it.
#[cycle(expression)]
#[derive(Drop)]
pub enum BaseType {
    /// `bit`, or `bit<width>`.
    Bit(Option<Width>),
    /// `int`, or `int<width>`.
    Int(Option<Width>),
    Bool,
    Error,
    /// The name of a type, and the type between `<` and `>` behind it.
    Named(Name, Option<Boxed<TypeForm>>),
}

/// What stands between the `<` and the `>` of `bit` or `int`.
#[cycle(expression)]
#[derive(Drop)]
pub struct Width {
    pub kind: WidthKind,
    pub span: Span,
}

#[cycle(expression)]
#[derive(Drop)]
pub enum WidthKind {
    Literal(Literal),
    Name(Name),
    Parenthesized(Boxed<Expression>),
}

#[derive(Clone, Copy, Debug, PartialEq, Eq)]
pub enum UnaryOperator {
    Not,
    Complement,
    Minus,
}

/// The operators between two operands. Those of one level stand together, the tightest first.
#[derive(Clone, Copy, Debug, PartialEq, Eq)]
pub enum Operator {
    Times,
    Divide,
    Remainder,
    Plus,
    Minus,
    SaturatingPlus,
    SaturatingMinus,
    Concat,
    ShiftLeft,
    ShiftRight,
    BitAnd,
    BitXor,
    BitOr,
    Less,
    AtMost,
    Greater,
    AtLeast,
    Equal,
    NotEqual,
    And,
    Or,
}

/// An expression, and the place of its first token.
#[cycle(expression)]
#[derive(Drop)]
pub struct Expression {
    pub kind: ExpressionKind,
    pub span: Span,
}

#[cycle(expression)]
#[derive(Drop)]
pub enum ExpressionKind {
    Literal(Literal),
    Text(Text),
    Bool(bool),
    Name(Name),
    /// The name of a type, or `error`, before a `.`.
    Base(Name),
    /// `{ .. }`.
    List(Items<Expression>),
    Parenthesized(Boxed<Expression>),
    /// Parentheses in a key set that hold a mask, a range, `_` or `default`.
    ParenthesizedKey(Boxed<SimpleKey>),
    /// An operand with at least one part behind it.
    Postfix(Boxed<Expression>, Items<PostfixPart>),
    Unary(UnaryOperator, Boxed<Expression>),
    Cast(Boxed<TypeForm>, Boxed<Expression>),
    /// The first operand, and at least one operator of one level with the operand behind it.
    Operations(Boxed<Expression>, Items<Operation>),
    /// `condition ? yes : no`.
    Choice(Boxed<Expression>, Boxed<Expression>, Boxed<Expression>),
}

/// An operator, its place, and the operand behind it.
#[cycle(expression)]
#[derive(Drop)]
pub struct Operation {
    pub operator: Operator,
    pub operand: Expression,
    pub span: Span,
}

/// What stands behind an operand, and the place of its first token.
#[cycle(expression)]
#[derive(Drop)]
pub struct PostfixPart {
    pub kind: PostfixKind,
    pub span: Span,
}

#[cycle(expression)]
#[derive(Drop)]
pub enum PostfixKind {
    /// `.name`.
    Member(Name),
    /// `.lookahead<type>`.
    Lookahead(TypeForm),
    /// `[index]`.
    Index(Expression),
    /// `[high : low]`.
    Slice(Expression, Expression),
    /// `(arguments)`.
    Call(Items<Expression>),
}

/// One key of a key set.
#[cycle(expression)]
#[derive(Drop)]
pub struct SimpleKey {
    pub kind: SimpleKeyKind,
    pub span: Span,
}

#[cycle(expression)]
#[derive(Drop)]
pub enum SimpleKeyKind {
    Default,
    /// `_`.
    Any,
    Value(Expression),
    /// `value &&& mask`.
    Mask(Expression, Expression),
    /// `low .. high`.
    Range(Expression, Expression),
}
