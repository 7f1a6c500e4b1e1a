//! The program of a source, where it is built, and why it is refused otherwise.
ghost use Rattle.std.specs.Prelude.{◌≡◌, ◌+◌, ◌≤◌, IfOk, All, length, map, MatchOption, MatchResult, count_by};
ghost use Rattle.std.specs.List.{AllByRecursion};
ghost use Rattle.p4_program.specs.Placed.{IsPlaced};
ghost use Rattle.testgen_engine.specs.declared.skeleton.TheConstants.{MOST_STATEMENTS};
ghost use Rattle.testgen_engine.specs.Written.{is_blank};
ghost use Rattle.testgen_engine.specs.Skeleton.{head_text, statement_text, place_of, placed_from, words_in, at_start, FitsNineBits, AreBuiltAs, AreRefused, IsProgramOf, IsNoProgram, StandsFor, IsRefused};

use crate::skeleton::{assignment, drop_call, end_of_assignment, head, kinds_in};
use crate::source::MAX_BYTES;
use crate::written::written;
use p4_grammar::read;
use p4_lexer::{Tokens, scan};
use p4_program::{Program, Statement, StatementKind};
use sqlite_items::Items;
use std::alloc::{AllocError, Global};
use tg_base::{Code, Fault, Refusal, Span};

/// A program, or why its source is refused.
pub type Built = Result<Program, Refusal>;

/// The program of a source, where it is built.
pub fn program_of(alloc: Global, source: &[u8]) -> Result<Built, AllocError>
    ensures { IfOk result (λ built. MatchResult built
        (λ program. StandsFor source.now program) (λ refusal. IsRefused source.now refusal)) }
{
    if source.len() > MAX_BYTES {
        return Ok(Err(at_start(Code::Limit)));
    }
    match scan(alloc, source) {
        Ok(tokens) => built_of(alloc, &tokens),
        Err(Fault::Refused(refusal)) => Ok(Err(refusal)),
        Err(Fault::Memory(error)) => Err(error),
    }
}

/// The program of the tokens, where they have a tree and it is built.
fn built_of(alloc: Global, tokens: &Tokens) -> Result<Built, AllocError>
    ensures { IfOk result (λ built. MatchResult built
        (λ program. AreBuiltAs tokens.now program) (λ refusal. AreRefused tokens.now refusal)) }
{
    match read(alloc, tokens) {
        Ok(_) => match program_in(alloc, tokens)? {
            Some(program) => Ok(Ok(program)),
            None => Ok(Err(at_start(Code::NotBuilt))),
        },
        Err(Fault::Refused(refusal)) => Ok(Err(refusal)),
        Err(Fault::Memory(error)) => Err(error),
    }
}

/// The refusal of a source as a whole.
fn at_start(code: Code) -> Refusal
    ensures { result ≡ at_start code }
{
    Refusal {
        code,
        line: 1,
        column: 1,
    }
}

/// The program that the tokens are, where it is built.
fn program_in(alloc: Global, tokens: &Tokens) -> Result<Option<Program>, AllocError>
    ensures { IfOk result (λ found. MatchOption found (IsNoProgram tokens.now)
        (λ program. IsProgramOf tokens.now program)) }
{
    let text = written(alloc, tokens.tokens.as_slice())?;
    let Some(kinds) = kinds_in(alloc, text.as_slice())? else {
        return Ok(None);
    };
    let statements = placed(alloc, tokens, kinds.as_slice())?;
    Ok(Some(Program { statements }))
}

/// Statements with their numbers, each at its first token.
fn placed(
    alloc: Global,
    tokens: &Tokens,
    kinds: &[StatementKind],
) -> Result<Items<Statement>, AllocError>
    requires few { length kinds.now ≤ MOST_STATEMENTS }
    requires fit { AllByRecursion FitsNineBits kinds.now }
    ensures are { IfOk result
        (λ statements. statements ≡ placed_from tokens.now 1 (words_in head_text) kinds.now) }
    ensures placed { IfOk result (λ statements. All IsPlaced statements) }
{
    let mut statements = Items::new(alloc);
    let mut number = 1;
    let mut at = words_in(head());
    for kind in kinds {
        statements.push(Statement {
            number,
            place: place_of(tokens, at),
            kind: *kind,
        })?;
        number += 1;
        at += statement_words(kind);
    }
    Ok(statements)
}

/// The place of a token, or of the end.
fn place_of(tokens: &Tokens, at: usize) -> Span
    ensures { result ≡ place_of tokens.now at }
{
    match tokens.tokens.get(at) {
        Some(token) => token.span,
        None => tokens.end,
    }
}

/// How many words a statement has.
#[tactic(auto, using(crate::proofs::PlacedLemmas::assignment_words))]
fn statement_words(kind: &StatementKind) -> usize
    requires { FitsNineBits kind.now }
    ensures { result ≡ words_in (statement_text kind.now) }
{
    match kind {
        StatementKind::AssignEgressSpec(_) => {
            words_in(assignment()) + words_in(end_of_assignment())
        }
        StatementKind::MarkToDrop => words_in(drop_call()),
    }
}

/// How many words such a text has: as many as blanks.
fn words_in(text: &[u8]) -> usize
    ensures { result ≡ words_in text.now }
{
    text.iter().filter(|byte| **byte == b' ').count()
}
