//! The declarations at the top of a source, along its derivation, and the tree of a list of tokens.

ghost use Rattle.std.specs.Prelude.{◌≡◌, ◌++◌, Some, IfOk};
ghost use Rattle.p4_grammar.specs.declared.symbols.TheConstants.{DECLARATION, ENUMERATION, ENUMERATION_WIDTH, FIELDS, FIELDS_LIST, MEMBER, MEMBERS, MEMBERS_TAIL, PROGRAM};
ghost use Rattle.p4_grammar.specs.Ahead.{Begins, below, after};
ghost use Rattle.p4_grammar.specs.Derivation.{AreRowsOf};
ghost use Rattle.p4_grammar.specs.Sources.{IsSourceOf, declaration, enumeration, enumeration_width, fields, fields_list, member, members, members_tail, program};
ghost use Rattle.p4_grammar.specs.Parses.{option_map};

use crate::controls::{action, control, instance_arguments};
use crate::cursor::Cursor;
use crate::expressions::{type_arguments, type_form, width_of};
use crate::names::{annotations, name, name_at};
use crate::parsers::parser;
use crate::rows::grammar_rows;
use crate::statements::{constant, initial_value};
use crate::symbols::{
    ACTION, CONSTANT, CONTROL, ENUMERATION, KEYWORD_ERROR, KEYWORD_HEADER, KEYWORD_STRUCT,
    KEYWORD_TYPEDEF, PARSER, SIGN_SEMICOLON,
};
use p4_lexer::Tokens;
use p4_tree::{
    BaseType, Declaration, DeclarationKind, Enumeration, Field, Instance, Member, Source, TopPart,
    TypeForm, Typedef, Width,
};
use sqlite_items::Items;
use std::alloc::{AllocError, Global};

/// The tree of the tokens, read along the rows of their derivation.
#[tactic(auto, using(crate::proofs::SourceLemmas::begins_program, crate::proofs::SourceLemmas::is_source))]
pub(crate) fn source_of(
    alloc: Global,
    rows: &[usize],
    tokens: &Tokens,
) -> Result<Source, AllocError>
    requires { AreRowsOf rows.now tokens.now.tokens }
    ensures { IfOk result (λ source. IsSourceOf source tokens.now) }
{
    let grammar = grammar_rows(alloc)?;
    let mut cursor = Cursor::new(grammar.as_slice(), rows, tokens.tokens.as_slice());
    let parts = program(alloc, &mut cursor)?;
    Ok(Source {
        parts,
        end: tokens.end,
    })
}

/// PROGRAM.
#[tactic(auto, using(crate::proofs::DeclarationRows::program_row, crate::proofs::RowsOfForms::symbol_is, crate::proofs::ListLemmas::pushed, crate::proofs::ListLemmas::behind_none, crate::proofs::ListLemmas::gathered, crate::proofs::AheadLemmas::nodes_opened, crate::proofs::AheadLemmas::nodes_after))]
fn program(alloc: Global, cursor: &mut Cursor) -> Result<Items<TopPart>, AllocError>
    requires { Begins PROGRAM cursor.old }
    ensures value { IfOk result (λ made. program (below cursor.old) ≡ Some made) }
    ensures rest { IfOk result (λ _. cursor.new ≡ after cursor.old) }
{
    let mut all = Vec::new(alloc);
    while let Some(first) = cursor.enter() {
        if first == SIGN_SEMICOLON {
            all.push(TopPart::Empty(cursor.take().span))?;
            continue;
        }
        let annotations = annotations(alloc, cursor)?;
        let span = cursor.place();
        let kind = declaration(alloc, cursor)?;
        all.push(TopPart::Declaration(Declaration {
            annotations,
            kind,
            span,
        }))?;
    }
    Ok(Items::from_vec(all))
}

/// DECLARATION.
#[tactic(auto, using(crate::proofs::DeclarationRows::declaration_row, crate::proofs::RowsOfForms::symbol_is))]
fn declaration(alloc: Global, cursor: &mut Cursor) -> Result<DeclarationKind, AllocError>
    requires { Begins DECLARATION cursor.old }
    ensures value { IfOk result (λ made. declaration (below cursor.old) ≡ Some made) }
    ensures rest { IfOk result (λ _. cursor.new ≡ after cursor.old) }
{
    match cursor.enter() {
        Some(CONSTANT) => Ok(DeclarationKind::Constant(constant(alloc, cursor)?)),
        Some(ENUMERATION) => Ok(DeclarationKind::Enumeration(enumeration(alloc, cursor)?)),
        Some(ACTION) => Ok(DeclarationKind::Action(action(alloc, cursor)?)),
        Some(PARSER) => Ok(DeclarationKind::Parser(parser(alloc, cursor)?)),
        Some(CONTROL) => Ok(DeclarationKind::Control(control(alloc, cursor)?)),
        Some(KEYWORD_TYPEDEF) => {
            cursor.take();
            let type_form = type_form(alloc, cursor)?;
            let name = name(alloc, cursor)?;
            cursor.take();
            Ok(DeclarationKind::Typedef(Typedef { type_form, name }))
        }
        Some(KEYWORD_STRUCT) => {
            cursor.take();
            let name = name(alloc, cursor)?;
            Ok(DeclarationKind::Struct(name, fields(alloc, cursor)?))
        }
        Some(KEYWORD_HEADER) => {
            cursor.take();
            let name = name(alloc, cursor)?;
            Ok(DeclarationKind::Header(name, fields(alloc, cursor)?))
        }
        Some(KEYWORD_ERROR) => {
            cursor.take();
            Ok(DeclarationKind::Errors(members(alloc, cursor)?))
        }
        _ => {
            let name_of_type = name_at(alloc, cursor.take())?;
            let span = name_of_type.span;
            let arguments_of_type = type_arguments(alloc, cursor)?;
            let type_form = TypeForm {
                base: BaseType::Named(name_of_type, arguments_of_type),
                size: None,
                span,
            };
            let arguments = instance_arguments(alloc, cursor)?;
            let name = name(alloc, cursor)?;
            cursor.take();
            Ok(DeclarationKind::Instance(Instance {
                type_form,
                arguments,
                name,
                span,
            }))
        }
    }
}

/// FIELDS.
#[tactic(auto, using(crate::proofs::DeclarationRows::fields_row, crate::proofs::RowsOfForms::symbol_is))]
fn fields(alloc: Global, cursor: &mut Cursor) -> Result<Items<Field>, AllocError>
    requires { Begins FIELDS cursor.old }
    ensures value { IfOk result (λ made. fields (below cursor.old) ≡ Some made) }
    ensures rest { IfOk result (λ _. cursor.new ≡ after cursor.old) }
{
    cursor.enter();
    cursor.take();
    let all = fields_list(alloc, cursor)?;
    cursor.take();
    Ok(all)
}

/// FIELDS_LIST.
#[tactic(auto, using(crate::proofs::DeclarationRows::fields_list_row, crate::proofs::RowsOfForms::symbol_is, crate::proofs::ListLemmas::pushed, crate::proofs::ListLemmas::behind_none, crate::proofs::ListLemmas::gathered, crate::proofs::AheadLemmas::nodes_opened, crate::proofs::AheadLemmas::nodes_after))]
fn fields_list(alloc: Global, cursor: &mut Cursor) -> Result<Items<Field>, AllocError>
    requires { Begins FIELDS_LIST cursor.old }
    ensures value { IfOk result (λ made. fields_list (below cursor.old) ≡ Some made) }
    ensures rest { IfOk result (λ _. cursor.new ≡ after cursor.old) }
{
    let mut all = Vec::new(alloc);
    while cursor.enter().is_some() {
        let annotations = annotations(alloc, cursor)?;
        let span = cursor.place();
        let type_form = type_form(alloc, cursor)?;
        let name = name(alloc, cursor)?;
        cursor.take();
        all.push(Field {
            annotations,
            type_form,
            name,
            span,
        })?;
    }
    Ok(Items::from_vec(all))
}

/// ENUMERATION.
#[tactic(auto, using(crate::proofs::DeclarationRows::enumeration_row, crate::proofs::RowsOfForms::symbol_is))]
fn enumeration(alloc: Global, cursor: &mut Cursor) -> Result<Enumeration, AllocError>
    requires { Begins ENUMERATION cursor.old }
    ensures value { IfOk result (λ made. enumeration (below cursor.old) ≡ Some made) }
    ensures rest { IfOk result (λ _. cursor.new ≡ after cursor.old) }
{
    cursor.enter();
    cursor.take();
    let width = enumeration_width(alloc, cursor)?;
    let name = name(alloc, cursor)?;
    let members = members(alloc, cursor)?;
    Ok(Enumeration {
        width,
        name,
        members,
    })
}

/// ENUMERATION_WIDTH.
#[tactic(auto, using(crate::proofs::DeclarationRows::enumeration_width_row, crate::proofs::RowsOfForms::symbol_is))]
fn enumeration_width(alloc: Global, cursor: &mut Cursor) -> Result<Option<Width>, AllocError>
    requires { Begins ENUMERATION_WIDTH cursor.old }
    ensures value { IfOk result (λ made. enumeration_width (below cursor.old) ≡ Some made) }
    ensures rest { IfOk result (λ _. cursor.new ≡ after cursor.old) }
{
    if cursor.enter().is_none() {
        return Ok(None);
    }
    cursor.take();
    cursor.take();
    let width = width_of(alloc, cursor)?;
    cursor.take();
    Ok(Some(width))
}

/// MEMBERS.
#[tactic(auto, using(crate::proofs::DeclarationRows::members_row, crate::proofs::RowsOfForms::symbol_is, crate::proofs::ListLemmas::pushed, crate::proofs::ListLemmas::behind_none))]
fn members(alloc: Global, cursor: &mut Cursor) -> Result<Items<Member>, AllocError>
    requires { Begins MEMBERS cursor.old }
    ensures value { IfOk result (λ made. members (below cursor.old) ≡ Some made) }
    ensures rest { IfOk result (λ _. cursor.new ≡ after cursor.old) }
{
    cursor.enter();
    cursor.take();
    let mut all = Vec::new(alloc);
    all.push(member(alloc, cursor)?)?;
    let all = members_tail(alloc, cursor, all)?;
    cursor.take();
    Ok(all)
}

/// MEMBERS_TAIL, behind these members.
#[tactic(auto, using(crate::proofs::DeclarationRows::members_tail_row, crate::proofs::DeclarationRows::members_more_row, crate::proofs::ListLemmas::pushed, crate::proofs::ListLemmas::behind_none, crate::proofs::AheadLemmas::nodes_opened, crate::proofs::AheadLemmas::nodes_after))]
fn members_tail(
    alloc: Global,
    cursor: &mut Cursor,
    before: Vec<Member>,
) -> Result<Items<Member>, AllocError>
    requires { Begins MEMBERS_TAIL cursor.old }
    ensures value { IfOk result (λ made.
        option_map (λ more. before.items ++ more) (members_tail (below cursor.old)) ≡ Some made) }
    ensures rest { IfOk result (λ _. cursor.new ≡ after cursor.old) }
{
    let mut all = before;
    while cursor.enter().is_some() {
        cursor.take();
        if cursor.enter().is_none() {
            return Ok(Items::from_vec(all));
        }
        all.push(member(alloc, cursor)?)?;
    }
    Ok(Items::from_vec(all))
}

/// MEMBER.
#[tactic(auto, using(crate::proofs::DeclarationRows::member_row, crate::proofs::RowsOfForms::symbol_is))]
fn member(alloc: Global, cursor: &mut Cursor) -> Result<Member, AllocError>
    requires { Begins MEMBER cursor.old }
    ensures value { IfOk result (λ made. member (below cursor.old) ≡ Some made) }
    ensures rest { IfOk result (λ _. cursor.new ≡ after cursor.old) }
{
    cursor.enter();
    let span = cursor.place();
    let name = name(alloc, cursor)?;
    let value = initial_value(alloc, cursor)?;
    Ok(Member { name, value, span })
}
