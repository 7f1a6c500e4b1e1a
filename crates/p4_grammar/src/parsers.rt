//! The parsers of a source with their states, and the parameters that several kinds of declarations share, along its
//! derivation.

ghost use Rattle.std.specs.Prelude.{◌≡◌, Some, IfOk, ◌⊎◌};
ghost use Rattle.p4_grammar.specs.declared.symbols.TheConstants.{DIRECTION, KEYWORD_IN, KEYWORD_INOUT, KEYWORD_OUT, PARAMETER, PARAMETERS, PARAMETERS_LIST, PARSER, PARSER_PART, PARSER_PARTS, SELECT_CASES, STATE, STATE_END, STATE_PART, STATE_PARTS, TRANSITION, TRANSITION_TARGET, VARIABLE};
ghost use Rattle.p4_grammar.specs.Ahead.{Begins, below, after};
ghost use Rattle.p4_grammar.specs.Words.{terminal_of};
ghost use Rattle.p4_grammar.specs.Statements.{block_part, block_parts, variable};
ghost use Rattle.p4_grammar.specs.Parsers.{direction_at, direction_of, parameter, parameters, parameters_list, parser, parser_part, parser_parts, select_cases, state, state_end, transition, transition_target};
ghost use Rattle.p4_tree.specs.declared.parsers.ParserPartKind.TheVariants as part;

use crate::cursor::Cursor;
use crate::expressions::{expressions, type_form};
use crate::keys::key_set;
use crate::names::{annotations, name};
use crate::statements::{constant, statement, variable_behind, variable_part};
use crate::symbols::{CONSTANT, NAME, STATEMENT, VARIABLE};
use p4_lexer::{Keyword, Word};
use p4_tree::{
    BlockPart, BlockPartKind, Direction, Parameter, Parser, ParserPart, ParserPartKind, SelectCase,
    State, Transition, TransitionKind,
};
use sqlite_items::Items;
use std::alloc::{AllocError, Global};

/// PARSER.
#[tactic(auto, using(crate::proofs::ParserRows::parser_row, crate::proofs::RowsOfForms::symbol_is))]
pub(crate) fn parser(alloc: Global, cursor: &mut Cursor) -> Result<Parser, AllocError>
    requires { Begins PARSER cursor.old }
    ensures value { IfOk result (λ made. parser (below cursor.old) ≡ Some made) }
    ensures rest { IfOk result (λ _. cursor.new ≡ after cursor.old) }
{
    cursor.enter();
    let span = cursor.take().span;
    let name = name(alloc, cursor)?;
    let parameters = parameters(alloc, cursor)?;
    cursor.take();
    let parts = parser_parts(alloc, cursor)?;
    cursor.take();
    Ok(Parser {
        name,
        parameters,
        parts,
        span,
    })
}

/// PARAMETERS.
#[tactic(auto, using(crate::proofs::ParserRows::parameters_row, crate::proofs::RowsOfForms::symbol_is))]
pub(crate) fn parameters(alloc: Global, cursor: &mut Cursor) -> Result<Items<Parameter>, AllocError>
    requires { Begins PARAMETERS cursor.old }
    ensures value { IfOk result (λ made. parameters (below cursor.old) ≡ Some made) }
    ensures rest { IfOk result (λ _. cursor.new ≡ after cursor.old) }
{
    cursor.enter();
    cursor.take();
    let all = parameters_list(alloc, cursor)?;
    cursor.take();
    Ok(all)
}

/// PARAMETERS_LIST.
#[tactic(auto, using(crate::proofs::ParserRows::parameters_list_row, crate::proofs::RowsOfForms::symbol_is, crate::proofs::ParserRows::parameters_tail_row, crate::proofs::ListLemmas::pushed, crate::proofs::ListLemmas::behind_none, crate::proofs::ListLemmas::gathered, crate::proofs::AheadLemmas::nodes_opened, crate::proofs::AheadLemmas::nodes_after))]
fn parameters_list(alloc: Global, cursor: &mut Cursor) -> Result<Items<Parameter>, AllocError>
    requires { Begins PARAMETERS_LIST cursor.old }
    ensures value { IfOk result (λ made. parameters_list (below cursor.old) ≡ Some made) }
    ensures rest { IfOk result (λ _. cursor.new ≡ after cursor.old) }
{
    let mut all = Vec::new(alloc);
    if cursor.enter().is_none() {
        return Ok(Items::from_vec(all));
    }
    all.push(parameter(alloc, cursor)?)?;
    while cursor.enter().is_some() {
        cursor.take();
        all.push(parameter(alloc, cursor)?)?;
    }
    Ok(Items::from_vec(all))
}

/// PARAMETER.
#[tactic(auto, using(crate::proofs::ParserRows::parameter_row, crate::proofs::RowsOfForms::symbol_is))]
fn parameter(alloc: Global, cursor: &mut Cursor) -> Result<Parameter, AllocError>
    requires { Begins PARAMETER cursor.old }
    ensures value { IfOk result (λ made. parameter (below cursor.old) ≡ Some made) }
    ensures rest { IfOk result (λ _. cursor.new ≡ after cursor.old) }
{
    cursor.enter();
    let annotations = annotations(alloc, cursor)?;
    let span = cursor.place();
    let direction = direction(cursor);
    let type_form = type_form(alloc, cursor)?;
    let name = name(alloc, cursor)?;
    Ok(Parameter {
        annotations,
        direction,
        type_form,
        name,
        span,
    })
}

/// DIRECTION.
#[tactic(auto, using(crate::proofs::ParserRows::direction_row, crate::proofs::RowsOfForms::symbol_is))]
fn direction(cursor: &mut Cursor) -> Option<Direction>
    requires { Begins DIRECTION cursor.old }
    ensures value { direction_of (below cursor.old) ≡ Some result }
    ensures rest { cursor.new ≡ after cursor.old }
{
    if cursor.enter().is_none() {
        return None;
    }
    Some(direction_at(&cursor.take().word))
}

/// The direction that a word is.
fn direction_at(word: &Word) -> Direction
    requires { (terminal_of word.now ≡ KEYWORD_IN) ⊎ (terminal_of word.now ≡ KEYWORD_OUT)
        ⊎ (terminal_of word.now ≡ KEYWORD_INOUT) }
    ensures { direction_at word.now ≡ Some result }
{
    match word {
        Word::Keyword(Keyword::In) => Direction::In,
        Word::Keyword(Keyword::Out) => Direction::Out,
        Word::Keyword(Keyword::Inout) => Direction::InOut,
        _ => unreachable!(),
    }
}

/// PARSER_PARTS.
#[tactic(auto, using(crate::proofs::ParserRows::parser_parts_row, crate::proofs::RowsOfForms::symbol_is, crate::proofs::ListLemmas::pushed, crate::proofs::ListLemmas::behind_none, crate::proofs::ListLemmas::gathered, crate::proofs::AheadLemmas::nodes_opened, crate::proofs::AheadLemmas::nodes_after))]
fn parser_parts(alloc: Global, cursor: &mut Cursor) -> Result<Items<ParserPart>, AllocError>
    requires { Begins PARSER_PARTS cursor.old }
    ensures value { IfOk result (λ made. parser_parts (below cursor.old) ≡ Some made) }
    ensures rest { IfOk result (λ _. cursor.new ≡ after cursor.old) }
{
    let mut all = Vec::new(alloc);
    while cursor.enter().is_some() {
        let annotations = annotations(alloc, cursor)?;
        let kind = parser_part(alloc, cursor)?;
        all.push(ParserPart { annotations, kind })?;
    }
    Ok(Items::from_vec(all))
}

/// PARSER_PART.
#[tactic(auto, using(crate::proofs::ParserRows::parser_part_row, crate::proofs::RowsOfForms::symbol_is))]
fn parser_part(alloc: Global, cursor: &mut Cursor) -> Result<ParserPartKind, AllocError>
    requires { Begins PARSER_PART cursor.old }
    ensures value { IfOk result (λ made. parser_part (below cursor.old) ≡ Some made) }
    ensures rest { IfOk result (λ _. cursor.new ≡ after cursor.old) }
{
    if cursor.enter() == Some(VARIABLE) {
        return parser_variable(alloc, cursor);
    }
    Ok(ParserPartKind::State(state(alloc, cursor)?))
}

/// VARIABLE, in a parser.
#[tactic(auto, using(crate::proofs::ParserRows::variable_row))]
fn parser_variable(alloc: Global, cursor: &mut Cursor) -> Result<ParserPartKind, AllocError>
    requires { Begins VARIABLE cursor.old }
    ensures value { IfOk result (λ made.
        variable (λ c. part.Constant c) (λ v. part.Variable v) (below cursor.old) ≡ Some made) }
    ensures rest { IfOk result (λ _. cursor.new ≡ after cursor.old) }
{
    if cursor.enter() == Some(CONSTANT) {
        return Ok(ParserPartKind::Constant(constant(alloc, cursor)?));
    }
    let span = cursor.place();
    let form = type_form(alloc, cursor)?;
    Ok(ParserPartKind::Variable(variable_behind(alloc, cursor, form, span)?))
}

/// STATE.
#[tactic(auto, using(crate::proofs::ParserRows::state_row, crate::proofs::RowsOfForms::symbol_is))]
fn state(alloc: Global, cursor: &mut Cursor) -> Result<State, AllocError>
    requires { Begins STATE cursor.old }
    ensures value { IfOk result (λ made. state (below cursor.old) ≡ Some made) }
    ensures rest { IfOk result (λ _. cursor.new ≡ after cursor.old) }
{
    cursor.enter();
    let span = cursor.take().span;
    let name = name(alloc, cursor)?;
    cursor.take();
    let parts = state_parts(alloc, cursor)?;
    let transition = state_end(alloc, cursor)?;
    cursor.take();
    Ok(State {
        name,
        parts,
        transition,
        span,
    })
}

/// STATE_PARTS.
#[tactic(auto, using(crate::proofs::StatementRows::state_parts_row, crate::proofs::RowsOfForms::symbol_is, crate::proofs::ListLemmas::pushed, crate::proofs::ListLemmas::behind_none, crate::proofs::ListLemmas::gathered, crate::proofs::AheadLemmas::nodes_opened, crate::proofs::AheadLemmas::nodes_after))]
fn state_parts(alloc: Global, cursor: &mut Cursor) -> Result<Items<BlockPart>, AllocError>
    requires { Begins STATE_PARTS cursor.old }
    ensures value { IfOk result (λ made. block_parts (below cursor.old) ≡ Some made) }
    ensures rest { IfOk result (λ _. cursor.new ≡ after cursor.old) }
{
    let mut all = Vec::new(alloc);
    while cursor.enter().is_some() {
        let annotations = annotations(alloc, cursor)?;
        let kind = state_part(alloc, cursor)?;
        all.push(BlockPart { annotations, kind })?;
    }
    Ok(Items::from_vec(all))
}

/// STATE_PART.
#[tactic(auto, using(crate::proofs::StatementRows::state_part_row, crate::proofs::RowsOfForms::symbol_is))]
fn state_part(alloc: Global, cursor: &mut Cursor) -> Result<BlockPartKind, AllocError>
    requires { Begins STATE_PART cursor.old }
    ensures value { IfOk result (λ made. block_part (below cursor.old) ≡ Some made) }
    ensures rest { IfOk result (λ _. cursor.new ≡ after cursor.old) }
{
    if cursor.enter() == Some(STATEMENT) {
        return Ok(BlockPartKind::Statement(statement(alloc, cursor)?));
    }
    variable_part(alloc, cursor)
}

/// STATE_END.
#[tactic(auto, using(crate::proofs::ParserRows::state_end_row, crate::proofs::RowsOfForms::symbol_is))]
fn state_end(alloc: Global, cursor: &mut Cursor) -> Result<Option<Transition>, AllocError>
    requires { Begins STATE_END cursor.old }
    ensures value { IfOk result (λ made. state_end (below cursor.old) ≡ Some made) }
    ensures rest { IfOk result (λ _. cursor.new ≡ after cursor.old) }
{
    if cursor.enter().is_none() {
        return Ok(None);
    }
    Ok(Some(transition(alloc, cursor)?))
}

/// TRANSITION.
#[tactic(auto, using(crate::proofs::ParserRows::transition_row, crate::proofs::RowsOfForms::symbol_is))]
fn transition(alloc: Global, cursor: &mut Cursor) -> Result<Transition, AllocError>
    requires { Begins TRANSITION cursor.old }
    ensures value { IfOk result (λ made. transition (below cursor.old) ≡ Some made) }
    ensures rest { IfOk result (λ _. cursor.new ≡ after cursor.old) }
{
    cursor.enter();
    let span = cursor.take().span;
    let kind = transition_target(alloc, cursor)?;
    Ok(Transition { kind, span })
}

/// TRANSITION_TARGET.
#[tactic(auto, using(crate::proofs::ParserRows::transition_target_row, crate::proofs::RowsOfForms::symbol_is))]
fn transition_target(alloc: Global, cursor: &mut Cursor) -> Result<TransitionKind, AllocError>
    requires { Begins TRANSITION_TARGET cursor.old }
    ensures value { IfOk result (λ made. transition_target (below cursor.old) ≡ Some made) }
    ensures rest { IfOk result (λ _. cursor.new ≡ after cursor.old) }
{
    if cursor.enter() == Some(NAME) {
        let name = name(alloc, cursor)?;
        cursor.take();
        return Ok(TransitionKind::To(name));
    }
    cursor.take();
    cursor.take();
    let values = expressions(alloc, cursor)?;
    cursor.take();
    cursor.take();
    let cases = select_cases(alloc, cursor)?;
    cursor.take();
    Ok(TransitionKind::Select(values, cases))
}

/// SELECT_CASES.
#[tactic(auto, using(crate::proofs::ParserRows::select_cases_row, crate::proofs::RowsOfForms::symbol_is, crate::proofs::ListLemmas::pushed, crate::proofs::ListLemmas::behind_none, crate::proofs::ListLemmas::gathered, crate::proofs::AheadLemmas::nodes_opened, crate::proofs::AheadLemmas::nodes_after))]
fn select_cases(alloc: Global, cursor: &mut Cursor) -> Result<Items<SelectCase>, AllocError>
    requires { Begins SELECT_CASES cursor.old }
    ensures value { IfOk result (λ made. select_cases (below cursor.old) ≡ Some made) }
    ensures rest { IfOk result (λ _. cursor.new ≡ after cursor.old) }
{
    let mut all = Vec::new(alloc);
    while cursor.enter().is_some() {
        let span = cursor.place();
        let key_set = key_set(alloc, cursor)?;
        cursor.take();
        let target = name(alloc, cursor)?;
        cursor.take();
        all.push(SelectCase {
            key_set,
            target,
            span,
        })?;
    }
    Ok(Items::from_vec(all))
}
