//! What types and expressions are made of: words of one token, and nodes of given parts.

ghost use Rattle.std.specs.Prelude.{◌≡◌, Some, IfOk, IsTrue};
ghost use Rattle.p4_tree.specs.declared.expressions.Expression.{Expression};
ghost use Rattle.p4_tree.specs.declared.expressions.ExpressionKind.TheVariants as kind;
ghost use Rattle.p4_tree.specs.declared.expressions.Width.{roll-Width};
ghost use Rattle.p4_grammar.specs.declared.symbols.TheConstants.{INT_LITERAL, UNARY_OPERATOR};
ghost use Rattle.p4_grammar.specs.Words.{terminal_of};
ghost use Rattle.p4_grammar.specs.Ahead.{Begins, below, after};
ghost use Rattle.p4_grammar.specs.Parses.{both, option_map};
ghost use Rattle.p4_grammar.specs.Expressions.{atom_at, base_at, choice_of, expression_at, index_at, is_atom, is_base, is_sized, is_unary_operator, run, sized_at, span_of, unary_operator_of, width_at, with_operator, with_parts};

use crate::cursor::Cursor;
use p4_lexer::{Keyword, Sign, Token, Word};
use p4_tree::{
    BaseType, Expression, ExpressionKind, Name, Operation, PostfixKind, PostfixPart, Text,
    TypeForm, UnaryOperator, Width, WidthKind,
};
use sqlite_items::{Boxed, Items};
use std::alloc::{AllocError, Global};
use tg_base::{Literal, Span};

/// The place of an expression.
pub(crate) fn span_of(e: &Expression) -> Span
    ensures { result ≡ span_of e.now }
{
    e.span
}

/// The expression of this kind that stands there.
pub(crate) fn expression_at(span: Span, kind: ExpressionKind) -> Expression
    ensures { result ≡ expression_at span kind }
{
    Expression { kind, span }
}

/// Operators of one level behind an operand.
pub(crate) fn run(
    alloc: Global,
    first: Expression,
    operations: Items<Operation>,
) -> Result<Expression, AllocError>
    ensures { IfOk result (λ e. e ≡ run first operations) }
{
    if operations.is_empty() {
        return Ok(first);
    }
    let span = first.span;
    let kind = ExpressionKind::Operations(Boxed::new(alloc, first)?, operations);
    Ok(expression_at(span, kind))
}

/// An operand with the parts behind it.
pub(crate) fn with_parts(
    alloc: Global,
    operand: Expression,
    parts: Items<PostfixPart>,
) -> Result<Expression, AllocError>
    ensures { IfOk result (λ e. e ≡ with_parts operand parts) }
{
    if parts.is_empty() {
        return Ok(operand);
    }
    let span = operand.span;
    let kind = ExpressionKind::Postfix(Boxed::new(alloc, operand)?, parts);
    Ok(expression_at(span, kind))
}

/// An operator before an operand.
pub(crate) fn unary_at(
    alloc: Global,
    span: Span,
    operator: UnaryOperator,
    operand: Expression,
) -> Result<Expression, AllocError>
    ensures { IfOk result (λ e. e ≡ expression_at span (kind.Unary operator operand)) }
{
    let kind = ExpressionKind::Unary(operator, Boxed::new(alloc, operand)?);
    Ok(expression_at(span, kind))
}

pub(crate) fn cast_at(
    alloc: Global,
    span: Span,
    type_form: TypeForm,
    operand: Expression,
) -> Result<Expression, AllocError>
    ensures { IfOk result (λ e. e ≡ expression_at span (kind.Cast type_form operand)) }
{
    let type_form = Boxed::new(alloc, type_form)?;
    let kind = ExpressionKind::Cast(type_form, Boxed::new(alloc, operand)?);
    Ok(expression_at(span, kind))
}

pub(crate) fn parenthesized_at(
    alloc: Global,
    span: Span,
    inner: Expression,
) -> Result<Expression, AllocError>
    ensures { IfOk result (λ e. e ≡ expression_at span (kind.Parenthesized inner)) }
{
    let kind = ExpressionKind::Parenthesized(Boxed::new(alloc, inner)?);
    Ok(expression_at(span, kind))
}

pub(crate) fn choice_of(
    alloc: Global,
    condition: Expression,
    second: Expression,
    third: Expression,
) -> Result<Expression, AllocError>
    ensures { IfOk result (λ e. e ≡ choice_of condition second third) }
{
    let span = condition.span;
    let condition = Boxed::new(alloc, condition)?;
    let second = Boxed::new(alloc, second)?;
    let kind = ExpressionKind::Choice(condition, second, Boxed::new(alloc, third)?);
    Ok(expression_at(span, kind))
}

/// An index, or a slice where there is a low end.
pub(crate) fn index_at(span: Span, index: Expression, low: Option<Expression>) -> PostfixPart
    ensures { result ≡ index_at span index low }
{
    match low {
        Some(low) => PostfixPart {
            kind: PostfixKind::Slice(index, low),
            span,
        },
        None => PostfixPart {
            kind: PostfixKind::Index(index),
            span,
        },
    }
}

/// UNARY_OPERATOR.
#[tactic(auto, using(crate::proofs::ExpressionRows::unary_operator_row, crate::proofs::RowsOfForms::symbol_is))]
pub(crate) fn unary_operator(cursor: &mut Cursor) -> (UnaryOperator, Span)
    requires { Begins UNARY_OPERATOR cursor.old }
    ensures value { (e : Expression) → with_operator (below cursor.old) (Some e)
        ≡ Some (expression_at result.1 (kind.Unary result.0 e)) }
    ensures rest { cursor.new ≡ after cursor.old }
{
    cursor.enter();
    let token = cursor.take();
    (unary_operator_of(&token.word), token.span)
}

fn unary_operator_of(word: &Word) -> UnaryOperator
    requires { IsTrue (is_unary_operator (terminal_of word.now)) }
    ensures { unary_operator_of word.now ≡ Some result }
{
    match word {
        Word::Sign(Sign::Not) => UnaryOperator::Not,
        Word::Sign(Sign::Tilde) => UnaryOperator::Complement,
        Word::Sign(Sign::Minus) => UnaryOperator::Minus,
        _ => unreachable!(),
    }
}

/// An atom of one word.
pub(crate) fn atom_at(alloc: Global, token: &Token) -> Result<Expression, AllocError>
    requires { IsTrue (is_atom (terminal_of token.now.word)) }
    ensures { IfOk result (λ e. option_map (λ kind. expression_at token.now.span kind)
        (atom_at token.now.span token.now.word) ≡ Some e) }
{
    let kind = atom_kind(alloc, token.span, &token.word)?;
    Ok(expression_at(token.span, kind))
}

fn atom_kind(alloc: Global, span: Span, word: &Word) -> Result<ExpressionKind, AllocError>
    requires { IsTrue (is_atom (terminal_of word.now)) }
    ensures { IfOk result (λ kind. atom_at span word.now ≡ Some kind) }
{
    Ok(match word {
        Word::Int(literal) => ExpressionKind::Literal(copied(alloc, literal)?),
        Word::Text(text) => ExpressionKind::Text(Text::from_slice(alloc, text.as_slice())?),
        Word::Keyword(Keyword::True) => ExpressionKind::Bool(true),
        Word::Keyword(Keyword::False) => ExpressionKind::Bool(false),
        Word::Base(text) => {
            let text = Text::from_slice(alloc, text.as_slice())?;
            ExpressionKind::Base(Name { text, span })
        }
        _ => unreachable!(),
    })
}

fn copied(alloc: Global, literal: &Literal) -> Result<Literal, AllocError>
    ensures { IfOk result (λ copy. copy ≡ literal.now) }
{
    Ok(Literal {
        int_type: literal.int_type,
        value: literal.value,
        spelling: Text::from_slice(alloc, literal.spelling.as_slice())?,
    })
}

/// A width of one word.
pub(crate) fn width_at(alloc: Global, token: &Token) -> Result<Width, AllocError>
    requires { terminal_of token.now.word ≡ INT_LITERAL }
    ensures { IfOk result (λ width. option_map
        (λ kind. roll-Width (record { kind = kind; span = token.now.span }))
        (width_at token.now.word) ≡ Some width) }
{
    let kind = width_kind(alloc, &token.word)?;
    Ok(Width {
        kind,
        span: token.span,
    })
}

fn width_kind(alloc: Global, word: &Word) -> Result<WidthKind, AllocError>
    requires { terminal_of word.now ≡ INT_LITERAL }
    ensures { IfOk result (λ kind. width_at word.now ≡ Some kind) }
{
    match word {
        Word::Int(literal) => Ok(WidthKind::Literal(copied(alloc, literal)?)),
        _ => unreachable!(),
    }
}

/// A type of one word.
pub(crate) fn base_at(word: &Word) -> BaseType
    requires { IsTrue (is_base (terminal_of word.now)) }
    ensures { base_at word.now ≡ Some result }
{
    match word {
        Word::Keyword(Keyword::Bool) => BaseType::Bool,
        Word::Keyword(Keyword::Error) => BaseType::Error,
        _ => unreachable!(),
    }
}

/// `bit` or `int`, with what stands behind it.
pub(crate) fn sized_at(word: &Word, width: Option<Width>) -> BaseType
    requires { IsTrue (is_sized (terminal_of word.now)) }
    ensures { both (λ f w. f w) (sized_at word.now) (Some width) ≡ Some result }
{
    match word {
        Word::Keyword(Keyword::Bit) => BaseType::Bit(width),
        Word::Keyword(Keyword::Int) => BaseType::Int(width),
        _ => unreachable!(),
    }
}
