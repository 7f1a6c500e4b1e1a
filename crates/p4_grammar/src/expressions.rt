//! The types and expressions of a source, along its derivation. They lead to one another: the cast of an expression has a
//! type, and the width of a type is an expression.

ghost use Rattle.std.specs.Prelude.{◌≡◌, Some, IfOk};
ghost use Rattle.tg_base.specs.declared.place.Span.{Span};
ghost use Rattle.p4_grammar.specs.declared.symbols.TheConstants.{ATOM, BASE_TYPE, CHOICE, EXPRESSION, EXPRESSIONS, MEMBER_PART, OPERATIONS, OPTIONAL_EXPRESSIONS, PARENTHESIS, POSTFIX_PARTS, SLICE_END, STACK_SIZE, TYPE_ARGUMENTS, TYPE_FORM, UNARY, WIDTH, WIDTH_ARGUMENTS};
ghost use Rattle.p4_grammar.specs.Ahead.{Begins, below, after};
ghost use Rattle.p4_grammar.specs.Expressions.{atom, base_type, choice, expression, expressions, level, member, operations, optional_expressions, parenthesis, parts, slice_end, stack_size, type_arguments, type_form, unary_of, width_arguments, width_of};
ghost use Rattle.p4_grammar.specs.Levels.{level_form, skipped, with_levels, LevelsStand};
ghost use Rattle.p4_grammar.specs.PartsAhead.{PartStands};

use crate::cursor::Cursor;
use crate::levels::{Level, all_levels, operator, tighter};
use crate::names::{name_at, word};
use crate::operands::{
    atom_at, base_at, cast_at, choice_of, expression_at, index_at, parenthesized_at, run, sized_at,
    unary_at, unary_operator, width_at, with_parts,
};
use crate::symbols;
use p4_tree::{
    BaseType, Expression, ExpressionKind, Operation, PostfixKind, PostfixPart, TypeForm, Width,
    WidthKind,
};
use sqlite_items::{Boxed, Items};
use std::alloc::{AllocError, Global};
use tg_base::Span;

/// TYPE_FORM.
#[tactic(auto, using(crate::proofs::TypeRows::type_form_row, crate::proofs::FormPlaces::base_type_seen, crate::proofs::AheadLemmas::nodes_opened, crate::proofs::AheadLemmas::nodes_after))]
#[cycle(expression)]
pub(crate) fn type_form(alloc: Global, cursor: &mut Cursor) -> Result<TypeForm, AllocError>
    requires { Begins TYPE_FORM cursor.old }
    ensures value { IfOk result (λ form. type_form (below cursor.old) ≡ Some form) }
    ensures rest { IfOk result (λ _. cursor.new ≡ after cursor.old) }
{
    cursor.enter();
    let span = cursor.place();
    let base = base_type(alloc, cursor)?;
    let size = stack_size(alloc, cursor)?;
    Ok(TypeForm { base, size, span })
}

/// STACK_SIZE.
#[tactic(auto, using(crate::proofs::TypeRows::stack_size_row, crate::proofs::AheadLemmas::nodes_opened, crate::proofs::AheadLemmas::nodes_after))]
#[cycle(expression)]
fn stack_size(alloc: Global, cursor: &mut Cursor) -> Result<Option<Boxed<Expression>>, AllocError>
    requires { Begins STACK_SIZE cursor.old }
    ensures value { IfOk result (λ size. stack_size (below cursor.old) ≡ Some size) }
    ensures rest { IfOk result (λ _. cursor.new ≡ after cursor.old) }
{
    if cursor.enter().is_none() {
        return Ok(None);
    }
    cursor.take();
    let size = expression(alloc, cursor)?;
    cursor.take();
    Ok(Some(Boxed::new(alloc, size)?))
}

/// BASE_TYPE.
#[tactic(auto, using(crate::proofs::TypeRows::base_type_row, crate::proofs::RowsOfForms::symbol_is, crate::proofs::AheadLemmas::nodes_opened, crate::proofs::AheadLemmas::nodes_after))]
#[cycle(expression)]
fn base_type(alloc: Global, cursor: &mut Cursor) -> Result<BaseType, AllocError>
    requires { Begins BASE_TYPE cursor.old }
    ensures value { IfOk result (λ base. base_type (below cursor.old) ≡ Some base) }
    ensures rest { IfOk result (λ _. cursor.new ≡ after cursor.old) }
{
    let symbol = cursor.enter();
    let token = cursor.take();
    match symbol {
        Some(symbols::KEYWORD_BIT | symbols::KEYWORD_INT) => {
            let width = width_arguments(alloc, cursor)?;
            Ok(sized_at(&token.word, width))
        }
        Some(symbols::TYPE_NAME) => {
            let name = name_at(alloc, token)?;
            let arguments = type_arguments(alloc, cursor)?;
            Ok(BaseType::Named(name, arguments))
        }
        _ => Ok(base_at(&token.word)),
    }
}

/// WIDTH_ARGUMENTS.
#[tactic(auto, using(crate::proofs::TypeRows::width_arguments_row, crate::proofs::AheadLemmas::nodes_opened, crate::proofs::AheadLemmas::nodes_after))]
#[cycle(expression)]
fn width_arguments(alloc: Global, cursor: &mut Cursor) -> Result<Option<Width>, AllocError>
    requires { Begins WIDTH_ARGUMENTS cursor.old }
    ensures value { IfOk result (λ width. width_arguments (below cursor.old) ≡ Some width) }
    ensures rest { IfOk result (λ _. cursor.new ≡ after cursor.old) }
{
    if cursor.enter().is_none() {
        return Ok(None);
    }
    cursor.take();
    let width = width_of(alloc, cursor)?;
    cursor.take();
    Ok(Some(width))
}

/// WIDTH.
#[tactic(auto, using(crate::proofs::TypeRows::width_row, crate::proofs::RowsOfForms::symbol_is, crate::proofs::FormPlaces::word_seen, crate::proofs::AheadLemmas::nodes_opened, crate::proofs::AheadLemmas::nodes_after))]
#[cycle(expression)]
pub(crate) fn width_of(alloc: Global, cursor: &mut Cursor) -> Result<Width, AllocError>
    requires { Begins WIDTH cursor.old }
    ensures value { IfOk result (λ width. width_of (below cursor.old) ≡ Some width) }
    ensures rest { IfOk result (λ _. cursor.new ≡ after cursor.old) }
{
    match cursor.enter() {
        Some(symbols::INT_LITERAL) => width_at(alloc, cursor.take()),
        Some(symbols::WORD) => {
            let span = cursor.place();
            let name = word(alloc, cursor)?;
            Ok(Width {
                kind: WidthKind::Name(name),
                span,
            })
        }
        _ => {
            let span = cursor.take().span;
            let inner = expression(alloc, cursor)?;
            cursor.take();
            let kind = WidthKind::Parenthesized(Boxed::new(alloc, inner)?);
            Ok(Width { kind, span })
        }
    }
}

/// TYPE_ARGUMENTS.
#[tactic(auto, using(crate::proofs::TypeRows::type_arguments_row, crate::proofs::AheadLemmas::nodes_opened, crate::proofs::AheadLemmas::nodes_after))]
#[cycle(expression)]
pub(crate) fn type_arguments(
    alloc: Global,
    cursor: &mut Cursor,
) -> Result<Option<Boxed<TypeForm>>, AllocError>
    requires { Begins TYPE_ARGUMENTS cursor.old }
    ensures value { IfOk result (λ form. type_arguments (below cursor.old) ≡ Some form) }
    ensures rest { IfOk result (λ _. cursor.new ≡ after cursor.old) }
{
    if cursor.enter().is_none() {
        return Ok(None);
    }
    cursor.take();
    let form = type_form(alloc, cursor)?;
    cursor.take();
    Ok(Some(Boxed::new(alloc, form)?))
}

/// EXPRESSION.
#[tactic(auto, using(crate::proofs::ExpressionRows::expression_row, crate::proofs::AheadLemmas::nodes_opened, crate::proofs::AheadLemmas::nodes_after))]
#[cycle(expression)]
pub(crate) fn expression(alloc: Global, cursor: &mut Cursor) -> Result<Expression, AllocError>
    requires { Begins EXPRESSION cursor.old }
    ensures value { IfOk result (λ e. expression (below cursor.old) ≡ Some e) }
    ensures rest { IfOk result (λ _. cursor.new ≡ after cursor.old) }
{
    cursor.enter();
    let first = unary(alloc, cursor)?;
    operations(alloc, cursor, first)
}

/// OPERATIONS, behind this operand.
#[tactic(auto, using(crate::proofs::LevelRows::operations_row, crate::proofs::AheadLemmas::nodes_opened, crate::proofs::AheadLemmas::nodes_after))]
#[cycle(expression)]
pub(crate) fn operations(
    alloc: Global,
    cursor: &mut Cursor,
    first: Expression,
) -> Result<Expression, AllocError>
    requires { Begins OPERATIONS cursor.old }
    ensures value { IfOk result (λ e. operations (Some first) (below cursor.old) ≡ Some e) }
    ensures rest { IfOk result (λ _. cursor.new ≡ after cursor.old) }
{
    cursor.enter();
    let condition = with_levels(alloc, cursor, all_levels(), first)?;
    choice(alloc, cursor, condition)
}

/// CHOICE, behind this condition.
#[tactic(auto, using(crate::proofs::ExpressionRows::choice_row, crate::proofs::AheadLemmas::nodes_opened, crate::proofs::AheadLemmas::nodes_after))]
#[cycle(expression)]
fn choice(
    alloc: Global,
    cursor: &mut Cursor,
    condition: Expression,
) -> Result<Expression, AllocError>
    requires { Begins CHOICE cursor.old }
    ensures value { IfOk result (λ e. choice (Some condition) (below cursor.old) ≡ Some e) }
    ensures rest { IfOk result (λ _. cursor.new ≡ after cursor.old) }
{
    if cursor.enter().is_none() {
        return Ok(condition);
    }
    cursor.take();
    let second = expression(alloc, cursor)?;
    cursor.take();
    let third = expression(alloc, cursor)?;
    choice_of(alloc, condition, second, third)
}

/// These levels, behind this operand.
#[cycle(expression)]
fn with_levels(
    alloc: Global,
    cursor: &mut Cursor,
    levels: &[Level],
    first: Expression,
) -> Result<Expression, AllocError>
    requires { LevelsStand levels.now cursor.old }
    ensures value { IfOk result (λ e. with_levels levels.now (Some first) cursor.old ≡ Some e) }
    ensures rest { IfOk result (λ _. cursor.new ≡ skipped levels.now cursor.old) }
{
    let mut all = first;
    let mut rest = levels;
    while let Some((next, more)) = rest.split_first() {
        let operations = level(alloc, cursor, *next)?;
        all = run(alloc, all, operations)?;
        rest = more;
    }
    Ok(all)
}

/// The form of a level.
#[tactic(auto, using(crate::proofs::ListLemmas::pushed, crate::proofs::AheadLemmas::nodes_opened, crate::proofs::AheadLemmas::nodes_after))]
#[cycle(expression)]
fn level(alloc: Global, cursor: &mut Cursor, here: Level) -> Result<Items<Operation>, AllocError>
    requires { Begins (level_form here) cursor.old }
    ensures value { IfOk result (λ all. level (below cursor.old) ≡ Some all) }
    ensures rest { IfOk result (λ _. cursor.new ≡ after cursor.old) }
{
    let mut all = Vec::new(alloc);
    while let Some((operator, span)) = operator(cursor, here) {
        let first = unary(alloc, cursor)?;
        let operand = with_levels(alloc, cursor, tighter(here), first)?;
        all.push(Operation {
            operator,
            operand,
            span,
        })?;
    }
    Ok(Items::from_vec(all))
}

/// UNARY.
#[tactic(auto, using(crate::proofs::ExpressionRows::unary_row, crate::proofs::AheadLemmas::nodes_opened, crate::proofs::AheadLemmas::nodes_after))]
#[cycle(expression)]
pub(crate) fn unary(alloc: Global, cursor: &mut Cursor) -> Result<Expression, AllocError>
    requires { Begins UNARY cursor.old }
    ensures value { IfOk result (λ e. unary_of (below cursor.old) ≡ Some e) }
    ensures rest { IfOk result (λ _. cursor.new ≡ after cursor.old) }
{
    match cursor.enter() {
        Some(symbols::UNARY_OPERATOR) => {
            let (operator, span) = unary_operator(cursor);
            let operand = unary(alloc, cursor)?;
            unary_at(alloc, span, operator, operand)
        }
        Some(symbols::ATOM) => {
            let operand = atom(alloc, cursor)?;
            let parts = parts(alloc, cursor)?;
            with_parts(alloc, operand, parts)
        }
        _ => {
            let span = cursor.take().span;
            parenthesis(alloc, cursor, span)
        }
    }
}

/// PARENTHESIS, behind a parenthesis that opens there.
#[tactic(auto, using(crate::proofs::ExpressionRows::parenthesis_row, crate::proofs::AheadLemmas::nodes_opened, crate::proofs::AheadLemmas::nodes_after))]
#[cycle(expression)]
fn parenthesis(alloc: Global, cursor: &mut Cursor, span: Span) -> Result<Expression, AllocError>
    requires { Begins PARENTHESIS cursor.old }
    ensures value { IfOk result (λ e. parenthesis span (below cursor.old) ≡ Some e) }
    ensures rest { IfOk result (λ _. cursor.new ≡ after cursor.old) }
{
    if cursor.enter() == Some(symbols::TYPE_FORM) {
        let form = type_form(alloc, cursor)?;
        cursor.take();
        let operand = unary(alloc, cursor)?;
        return cast_at(alloc, span, form, operand);
    }
    let inner = expression(alloc, cursor)?;
    cursor.take();
    let parts = parts(alloc, cursor)?;
    let operand = parenthesized_at(alloc, span, inner)?;
    with_parts(alloc, operand, parts)
}

/// ATOM.
#[tactic(auto, using(crate::proofs::ExpressionRows::atom_row, crate::proofs::RowsOfForms::symbol_is, crate::proofs::FormPlaces::word_seen, crate::proofs::AheadLemmas::nodes_opened, crate::proofs::AheadLemmas::nodes_after))]
#[cycle(expression)]
pub(crate) fn atom(alloc: Global, cursor: &mut Cursor) -> Result<Expression, AllocError>
    requires { Begins ATOM cursor.old }
    ensures value { IfOk result (λ e. atom (below cursor.old) ≡ Some e) }
    ensures rest { IfOk result (λ _. cursor.new ≡ after cursor.old) }
{
    match cursor.enter() {
        Some(symbols::WORD) => {
            let span = cursor.place();
            let name = word(alloc, cursor)?;
            Ok(expression_at(span, ExpressionKind::Name(name)))
        }
        Some(symbols::SIGN_LEFT_BRACE) => {
            let span = cursor.take().span;
            let items = optional_expressions(alloc, cursor)?;
            cursor.take();
            Ok(expression_at(span, ExpressionKind::List(items)))
        }
        _ => atom_at(alloc, cursor.take()),
    }
}

/// POSTFIX_PARTS.
#[tactic(auto, using(crate::proofs::ListLemmas::pushed, crate::proofs::AheadLemmas::nodes_opened, crate::proofs::AheadLemmas::nodes_after))]
#[cycle(expression)]
pub(crate) fn parts(alloc: Global, cursor: &mut Cursor) -> Result<Items<PostfixPart>, AllocError>
    requires { Begins POSTFIX_PARTS cursor.old }
    ensures value { IfOk result (λ all. parts (below cursor.old) ≡ Some all) }
    ensures rest { IfOk result (λ _. cursor.new ≡ after cursor.old) }
{
    let mut all = Vec::new(alloc);
    while let Some(one) = part(alloc, cursor)? {
        all.push(one)?;
    }
    Ok(Items::from_vec(all))
}

/// The first part of POSTFIX_PARTS.
#[tactic(auto, using(crate::proofs::ExpressionRows::postfix_parts_row, crate::proofs::AheadLemmas::nodes_opened, crate::proofs::AheadLemmas::nodes_after))]
#[cycle(expression)]
fn part(alloc: Global, cursor: &mut Cursor) -> Result<Option<PostfixPart>, AllocError>
    requires { Begins POSTFIX_PARTS cursor.old }
    ensures { IfOk result (λ part. PartStands part cursor.old cursor.new) }
{
    let Some(symbol) = cursor.enter() else {
        return Ok(None);
    };
    let span = cursor.take().span;
    if symbol == symbols::SIGN_DOT {
        let kind = member(alloc, cursor)?;
        return Ok(Some(PostfixPart { kind, span }));
    }
    if symbol == symbols::SIGN_LEFT_BRACKET {
        let index = expression(alloc, cursor)?;
        let low = slice_end(alloc, cursor)?;
        cursor.take();
        return Ok(Some(index_at(span, index, low)));
    }
    let arguments = optional_expressions(alloc, cursor)?;
    cursor.take();
    let kind = PostfixKind::Call(arguments);
    Ok(Some(PostfixPart { kind, span }))
}

/// MEMBER_PART.
#[tactic(auto, using(crate::proofs::ExpressionRows::member_part_row, crate::proofs::RowsOfForms::symbol_is, crate::proofs::AheadLemmas::nodes_opened, crate::proofs::AheadLemmas::nodes_after))]
#[cycle(expression)]
fn member(alloc: Global, cursor: &mut Cursor) -> Result<PostfixKind, AllocError>
    requires { Begins MEMBER_PART cursor.old }
    ensures value { IfOk result (λ kind. member (below cursor.old) ≡ Some kind) }
    ensures rest { IfOk result (λ _. cursor.new ≡ after cursor.old) }
{
    if cursor.enter() == Some(symbols::ID) {
        return Ok(PostfixKind::Member(name_at(alloc, cursor.take())?));
    }
    cursor.take();
    cursor.take();
    let form = type_form(alloc, cursor)?;
    cursor.take();
    Ok(PostfixKind::Lookahead(form))
}

/// SLICE_END.
#[tactic(auto, using(crate::proofs::ExpressionRows::slice_end_row, crate::proofs::AheadLemmas::nodes_opened, crate::proofs::AheadLemmas::nodes_after))]
#[cycle(expression)]
fn slice_end(alloc: Global, cursor: &mut Cursor) -> Result<Option<Expression>, AllocError>
    requires { Begins SLICE_END cursor.old }
    ensures value { IfOk result (λ low. slice_end (below cursor.old) ≡ Some low) }
    ensures rest { IfOk result (λ _. cursor.new ≡ after cursor.old) }
{
    if cursor.enter().is_none() {
        return Ok(None);
    }
    cursor.take();
    Ok(Some(expression(alloc, cursor)?))
}

/// OPTIONAL_EXPRESSIONS.
#[tactic(auto, using(crate::proofs::ExpressionRows::optional_expressions_row, crate::proofs::AheadLemmas::nodes_opened, crate::proofs::AheadLemmas::nodes_after))]
#[cycle(expression)]
fn optional_expressions(alloc: Global, cursor: &mut Cursor) -> Result<Items<Expression>, AllocError>
    requires { Begins OPTIONAL_EXPRESSIONS cursor.old }
    ensures value { IfOk result (λ all. optional_expressions (below cursor.old) ≡ Some all) }
    ensures rest { IfOk result (λ _. cursor.new ≡ after cursor.old) }
{
    if cursor.enter().is_none() {
        return Ok(Items::new(alloc));
    }
    expressions(alloc, cursor)
}

/// EXPRESSIONS.
#[tactic(auto, using(crate::proofs::ExpressionRows::expressions_row, crate::proofs::ExpressionRows::expressions_tail_row, crate::proofs::ListLemmas::pushed, crate::proofs::AheadLemmas::nodes_opened, crate::proofs::AheadLemmas::nodes_after))]
#[cycle(expression)]
pub(crate) fn expressions(
    alloc: Global,
    cursor: &mut Cursor,
) -> Result<Items<Expression>, AllocError>
    requires { Begins EXPRESSIONS cursor.old }
    ensures value { IfOk result (λ all. expressions (below cursor.old) ≡ Some all) }
    ensures rest { IfOk result (λ _. cursor.new ≡ after cursor.old) }
{
    cursor.enter();
    let mut all = Vec::new(alloc);
    all.push(expression(alloc, cursor)?)?;
    while cursor.enter().is_some() {
        cursor.take();
        all.push(expression(alloc, cursor)?)?;
    }
    Ok(Items::from_vec(all))
}
