//! The statements and blocks of a source, along its derivation.

ghost use Rattle.std.specs.Prelude.{◌≡◌, Some, IfOk};
ghost use Rattle.p4_grammar.specs.declared.symbols.TheConstants.{BLOCK, BLOCK_PART, BLOCK_PARTS, CONSTANT, ELSE_BRANCH, INITIAL_VALUE, NAME, STATEMENT, STATEMENT_REST, SWITCH_BODY, SWITCH_CASES, SWITCH_LABEL, VARIABLE};
ghost use Rattle.p4_grammar.specs.Ahead.{Begins, IsWord, below, after};
ghost use Rattle.p4_grammar.specs.Parses.{all_four, both};
ghost use Rattle.p4_grammar.specs.Expressions.{span_of};
ghost use Rattle.p4_grammar.specs.Names.{name_of};
ghost use Rattle.p4_grammar.specs.Statements.{block, block_part, block_parts, constant, else_branch, initial_value, statement_at, statement_of, statement_rest, switch_body, switch_cases, switch_label, variable, variable_at};
ghost use Rattle.p4_tree.specs.declared.statements.BlockPartKind.TheVariants as part;

use crate::cursor::Cursor;
use crate::expressions::{expression, parts, type_form};
use crate::names::{annotations, name, word};
use crate::operands::{span_of, with_parts};
use crate::symbols::{
    BLOCK, CONSTANT, KEYWORD_EXIT, KEYWORD_IF, KEYWORD_RETURN, KEYWORD_SWITCH, NAME, SIGN_ASSIGN,
    SIGN_SEMICOLON, STATEMENT,
};
use p4_tree::{
    Block, BlockPart, BlockPartKind, Constant, Expression, ExpressionKind, Statement,
    StatementKind, SwitchCase, SwitchLabel, TypeForm, Variable,
};
use sqlite_items::{Boxed, Items};
use std::alloc::{AllocError, Global};
use tg_base::Span;

/// INITIAL_VALUE.
#[tactic(auto, using(crate::proofs::DeclarationRows::initial_value_row, crate::proofs::RowsOfForms::symbol_is))]
pub(crate) fn initial_value(
    alloc: Global,
    cursor: &mut Cursor,
) -> Result<Option<Expression>, AllocError>
    requires { Begins INITIAL_VALUE cursor.old }
    ensures value { IfOk result (λ made. initial_value (below cursor.old) ≡ Some made) }
    ensures rest { IfOk result (λ _. cursor.new ≡ after cursor.old) }
{
    if cursor.enter().is_none() {
        return Ok(None);
    }
    cursor.take();
    Ok(Some(expression(alloc, cursor)?))
}

/// CONSTANT.
#[tactic(auto, using(crate::proofs::StatementRows::constant_row, crate::proofs::RowsOfForms::symbol_is))]
pub(crate) fn constant(alloc: Global, cursor: &mut Cursor) -> Result<Constant, AllocError>
    requires { Begins CONSTANT cursor.old }
    ensures value { IfOk result (λ made. constant (below cursor.old) ≡ Some made) }
    ensures rest { IfOk result (λ _. cursor.new ≡ after cursor.old) }
{
    cursor.enter();
    let span = cursor.take().span;
    let type_form = type_form(alloc, cursor)?;
    let name = name(alloc, cursor)?;
    cursor.take();
    let value = expression(alloc, cursor)?;
    cursor.take();
    Ok(Constant {
        type_form,
        name,
        value,
        span,
    })
}

/// The name, the value and the `;` of a variable, behind its type at this place.
pub(crate) fn variable_behind(
    alloc: Global,
    cursor: &mut Cursor,
    type_form: TypeForm,
    span: Span,
) -> Result<Variable, AllocError>
    requires name { Begins NAME cursor.old }
    requires value { Begins INITIAL_VALUE (after cursor.old) }
    requires end { IsWord (after (after cursor.old)) }
    ensures value { IfOk result (λ made. all_four variable_at (Some span) (Some type_form)
        (name_of (below cursor.old)) (initial_value (below (after cursor.old))) ≡ Some made) }
    ensures rest { IfOk result (λ _. cursor.new ≡ after (after (after cursor.old))) }
{
    let name = name(alloc, cursor)?;
    let value = initial_value(alloc, cursor)?;
    cursor.take();
    Ok(Variable {
        type_form,
        name,
        value,
        span,
    })
}

/// VARIABLE, in a block or a state.
#[tactic(auto, using(crate::proofs::StatementRows::variable_row))]
pub(crate) fn variable_part(alloc: Global, cursor: &mut Cursor) -> Result<BlockPartKind, AllocError>
    requires { Begins VARIABLE cursor.old }
    ensures value { IfOk result (λ made.
        variable (λ c. part.Constant c) (λ v. part.Variable v) (below cursor.old) ≡ Some made) }
    ensures rest { IfOk result (λ _. cursor.new ≡ after cursor.old) }
{
    if cursor.enter() == Some(CONSTANT) {
        return Ok(BlockPartKind::Constant(constant(alloc, cursor)?));
    }
    let span = cursor.place();
    let form = type_form(alloc, cursor)?;
    Ok(BlockPartKind::Variable(variable_behind(alloc, cursor, form, span)?))
}

/// BLOCK.
#[cycle(statement)]
#[tactic(auto, using(crate::proofs::StatementRows::block_row, crate::proofs::RowsOfForms::symbol_is, crate::proofs::AheadLemmas::nodes_opened, crate::proofs::AheadLemmas::nodes_after, crate::proofs::AheadLemmas::nodes_passed))]
pub(crate) fn block(alloc: Global, cursor: &mut Cursor) -> Result<Block, AllocError>
    requires { Begins BLOCK cursor.old }
    ensures value { IfOk result (λ made. block (below cursor.old) ≡ Some made) }
    ensures rest { IfOk result (λ _. cursor.new ≡ after cursor.old) }
{
    cursor.enter();
    let span = cursor.take().span;
    let parts = block_parts(alloc, cursor)?;
    cursor.take();
    Ok(Block { parts, span })
}

/// BLOCK_PARTS.
#[cycle(statement)]
#[tactic(auto, using(crate::proofs::StatementRows::block_parts_row, crate::proofs::RowsOfForms::symbol_is, crate::proofs::ListLemmas::pushed, crate::proofs::ListLemmas::behind_none, crate::proofs::ListLemmas::gathered, crate::proofs::AheadLemmas::nodes_opened, crate::proofs::AheadLemmas::nodes_after, crate::proofs::AheadLemmas::nodes_passed))]
fn block_parts(alloc: Global, cursor: &mut Cursor) -> Result<Items<BlockPart>, AllocError>
    requires { Begins BLOCK_PARTS cursor.old }
    ensures value { IfOk result (λ made. block_parts (below cursor.old) ≡ Some made) }
    ensures rest { IfOk result (λ _. cursor.new ≡ after cursor.old) }
{
    let mut all = Vec::new(alloc);
    while cursor.enter().is_some() {
        let annotations = annotations(alloc, cursor)?;
        let kind = block_part(alloc, cursor)?;
        all.push(BlockPart { annotations, kind })?;
    }
    Ok(Items::from_vec(all))
}

/// BLOCK_PART.
#[cycle(statement)]
#[tactic(auto, using(crate::proofs::StatementRows::block_part_row, crate::proofs::RowsOfForms::symbol_is, crate::proofs::AheadLemmas::nodes_opened, crate::proofs::AheadLemmas::nodes_after, crate::proofs::AheadLemmas::nodes_passed))]
fn block_part(alloc: Global, cursor: &mut Cursor) -> Result<BlockPartKind, AllocError>
    requires { Begins BLOCK_PART cursor.old }
    ensures value { IfOk result (λ made. block_part (below cursor.old) ≡ Some made) }
    ensures rest { IfOk result (λ _. cursor.new ≡ after cursor.old) }
{
    if cursor.enter() == Some(STATEMENT) {
        return Ok(BlockPartKind::Statement(statement(alloc, cursor)?));
    }
    variable_part(alloc, cursor)
}

/// STATEMENT.
#[cycle(statement)]
#[tactic(auto, using(crate::proofs::StatementRows::statement_row, crate::proofs::RowsOfForms::symbol_is, crate::proofs::AheadLemmas::nodes_opened, crate::proofs::AheadLemmas::nodes_after, crate::proofs::AheadLemmas::nodes_passed))]
pub(crate) fn statement(alloc: Global, cursor: &mut Cursor) -> Result<Statement, AllocError>
    requires { Begins STATEMENT cursor.old }
    ensures value { IfOk result (λ made. statement_of (below cursor.old) ≡ Some made) }
    ensures rest { IfOk result (λ _. cursor.new ≡ after cursor.old) }
{
    match cursor.enter() {
        Some(SIGN_SEMICOLON) => {
            let span = cursor.take().span;
            let kind = StatementKind::Empty;
            Ok(Statement { kind, span })
        }
        Some(KEYWORD_EXIT) => {
            let span = cursor.take().span;
            cursor.take();
            let kind = StatementKind::Exit;
            Ok(Statement { kind, span })
        }
        Some(KEYWORD_RETURN) => {
            let span = cursor.take().span;
            cursor.take();
            let kind = StatementKind::Return;
            Ok(Statement { kind, span })
        }
        Some(BLOCK) => {
            let span = cursor.place();
            let kind = StatementKind::Block(block(alloc, cursor)?);
            Ok(Statement { kind, span })
        }
        Some(KEYWORD_IF) => {
            let span = cursor.take().span;
            cursor.take();
            let condition = expression(alloc, cursor)?;
            cursor.take();
            let branch = Boxed::new(alloc, statement(alloc, cursor)?)?;
            let other = else_branch(alloc, cursor)?;
            let kind = StatementKind::If(condition, branch, other);
            Ok(Statement { kind, span })
        }
        Some(KEYWORD_SWITCH) => {
            let span = cursor.take().span;
            cursor.take();
            let value = expression(alloc, cursor)?;
            cursor.take();
            cursor.take();
            let cases = switch_cases(alloc, cursor)?;
            cursor.take();
            let kind = StatementKind::Switch(value, cases);
            Ok(Statement { kind, span })
        }
        _ => {
            let span = cursor.place();
            let kind = ExpressionKind::Name(word(alloc, cursor)?);
            let parts = parts(alloc, cursor)?;
            let path = with_parts(alloc, Expression { kind, span }, parts)?;
            statement_rest(alloc, cursor, path)
        }
    }
}

/// ELSE_BRANCH.
#[cycle(statement)]
#[tactic(auto, using(crate::proofs::StatementRows::else_branch_row, crate::proofs::RowsOfForms::symbol_is, crate::proofs::AheadLemmas::nodes_opened, crate::proofs::AheadLemmas::nodes_after, crate::proofs::AheadLemmas::nodes_passed))]
fn else_branch(alloc: Global, cursor: &mut Cursor) -> Result<Option<Boxed<Statement>>, AllocError>
    requires { Begins ELSE_BRANCH cursor.old }
    ensures value { IfOk result (λ made. else_branch (below cursor.old) ≡ Some made) }
    ensures rest { IfOk result (λ _. cursor.new ≡ after cursor.old) }
{
    if cursor.enter().is_none() {
        return Ok(None);
    }
    cursor.take();
    Ok(Some(Boxed::new(alloc, statement(alloc, cursor)?)?))
}

/// SWITCH_CASES.
#[cycle(statement)]
#[tactic(auto, using(crate::proofs::StatementRows::switch_cases_row, crate::proofs::RowsOfForms::symbol_is, crate::proofs::ListLemmas::pushed, crate::proofs::ListLemmas::behind_none, crate::proofs::ListLemmas::gathered, crate::proofs::AheadLemmas::nodes_opened, crate::proofs::AheadLemmas::nodes_after, crate::proofs::AheadLemmas::nodes_passed))]
fn switch_cases(alloc: Global, cursor: &mut Cursor) -> Result<Items<SwitchCase>, AllocError>
    requires { Begins SWITCH_CASES cursor.old }
    ensures value { IfOk result (λ made. switch_cases (below cursor.old) ≡ Some made) }
    ensures rest { IfOk result (λ _. cursor.new ≡ after cursor.old) }
{
    let mut all = Vec::new(alloc);
    while cursor.enter().is_some() {
        let span = cursor.place();
        let label = switch_label(alloc, cursor)?;
        cursor.take();
        let body = switch_body(alloc, cursor)?;
        all.push(SwitchCase { label, body, span })?;
    }
    Ok(Items::from_vec(all))
}

/// SWITCH_LABEL.
#[tactic(auto, using(crate::proofs::StatementRows::switch_label_row, crate::proofs::RowsOfForms::symbol_is))]
fn switch_label(alloc: Global, cursor: &mut Cursor) -> Result<SwitchLabel, AllocError>
    requires { Begins SWITCH_LABEL cursor.old }
    ensures value { IfOk result (λ made. switch_label (below cursor.old) ≡ Some made) }
    ensures rest { IfOk result (λ _. cursor.new ≡ after cursor.old) }
{
    if cursor.enter() == Some(NAME) {
        return Ok(SwitchLabel::Action(name(alloc, cursor)?));
    }
    cursor.take();
    Ok(SwitchLabel::Default)
}

/// SWITCH_BODY.
#[cycle(statement)]
#[tactic(auto, using(crate::proofs::StatementRows::switch_body_row, crate::proofs::RowsOfForms::symbol_is, crate::proofs::AheadLemmas::nodes_opened, crate::proofs::AheadLemmas::nodes_after, crate::proofs::AheadLemmas::nodes_passed))]
fn switch_body(alloc: Global, cursor: &mut Cursor) -> Result<Option<Block>, AllocError>
    requires { Begins SWITCH_BODY cursor.old }
    ensures value { IfOk result (λ made. switch_body (below cursor.old) ≡ Some made) }
    ensures rest { IfOk result (λ _. cursor.new ≡ after cursor.old) }
{
    if cursor.enter().is_none() {
        return Ok(None);
    }
    Ok(Some(block(alloc, cursor)?))
}

/// STATEMENT_REST, behind a path.
#[tactic(auto, using(crate::proofs::StatementRows::statement_rest_row))]
fn statement_rest(
    alloc: Global,
    cursor: &mut Cursor,
    path: Expression,
) -> Result<Statement, AllocError>
    requires { Begins STATEMENT_REST cursor.old }
    ensures value { IfOk result (λ made. both (λ path kind. statement_at (span_of path) (kind path))
        (Some path) (statement_rest (below cursor.old)) ≡ Some made) }
    ensures rest { IfOk result (λ _. cursor.new ≡ after cursor.old) }
{
    let span = span_of(&path);
    if cursor.enter() == Some(SIGN_ASSIGN) {
        cursor.take();
        let value = expression(alloc, cursor)?;
        cursor.take();
        let kind = StatementKind::Assign(path, value);
        return Ok(Statement { kind, span });
    }
    cursor.take();
    let kind = StatementKind::Call(path);
    Ok(Statement { kind, span })
}
