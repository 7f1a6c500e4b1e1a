//! The derivation of a list of tokens, as the rows of its nodes.

ghost use Rattle.std.specs.Prelude.{◌≡◌, Err, IfOk};
ghost use Rattle.tg_base.specs.declared.fault.Fault.{Fault};
ghost use Rattle.tg_base.specs.declared.place.Refusal.{Refusal};
ghost use Rattle.ll1_engine.specs.declared.fault.Stop.{Stop};
ghost use Rattle.ll1_engine.specs.Parse.{StopsAt};
ghost use Rattle.p4_grammar.specs.Rows.{grammar_rows};
ghost use Rattle.p4_grammar.specs.Words.{terminals_of};
ghost use Rattle.p4_grammar.specs.Derivation.{AreRowsOf, IsPlaceOf, IsSyntaxFault};
ghost use Rattle.p4_grammar.specs.Descent.{TellTokens};

use crate::table::{Table, language_table};
use crate::words::terminal_of;
use ll1_engine::{ParseFault, Symbols, Tree, parse};
use p4_lexer::{Token, Tokens};
use std::alloc::{AllocError, Global};
use tg_base::{Code, Fault, Refusal, Span};

/// The rows of the one derivation of the tokens, in preorder.
pub fn derivation_of(alloc: Global, tokens: &Tokens) -> Result<Tree, Fault>
    ensures rows { IfOk result (λ rows. AreRowsOf rows tokens.now.tokens) }
    ensures syntax { (refusal : Refusal) → result ≡ Err (Fault.Refused refusal) →
        IsSyntaxFault tokens.now refusal }
{
    let Ok(table) = language_table(alloc) else {
        return Err(Fault::Memory(AllocError));
    };
    match parsed(alloc, &table, tokens.tokens.as_slice()) {
        Ok(rows) => Ok(rows),
        Err(ParseFault::Stop(stop)) => Err(Fault::Refused(syntax_fault(tokens, stop.at))),
        Err(ParseFault::Memory(error)) => Err(Fault::Memory(error)),
    }
}

/// The rows of the one derivation of the tokens, or where they stop, with the rows up to there.
pub(crate) fn parsed(alloc: Global, table: &Table, tokens: &[Token]) -> Result<Tree, ParseFault>
    requires { table.now ≡ grammar_rows }
    ensures rows { IfOk result (λ rows. AreRowsOf rows tokens.now) }
    ensures stop { (stop : Stop) → result ≡ Err (ParseFault.Stop stop) →
        StopsAt grammar_rows (terminals_of tokens.now) stop.at }
    ensures told { (stop : Stop) → result ≡ Err (ParseFault.Stop stop) →
        TellTokens stop.rows tokens.now stop.at }
{
    let Ok(symbols) = terminals(alloc, tokens) else {
        return Err(ParseFault::Memory(AllocError));
    };
    parse(alloc, table, symbols.as_slice())
}

/// The symbols of the tokens.
fn terminals(alloc: Global, tokens: &[Token]) -> Result<Symbols, AllocError>
    ensures { IfOk result (λ symbols. symbols ≡ terminals_of tokens.now) }
{
    let mut symbols = Vec::new(alloc);
    for token in tokens {
        symbols.push(terminal_of(&token.word))?;
    }
    Ok(Symbols::from_vec(symbols))
}

/// The refusal of tokens that stop there.
pub(crate) fn syntax_fault(tokens: &Tokens, at: usize) -> Refusal
    requires { StopsAt grammar_rows (terminals_of tokens.now.tokens) at }
    ensures { IsSyntaxFault tokens.now result }
{
    let Span { line, column } = place_of(tokens, at);
    Refusal {
        code: Code::Syntax,
        line,
        column,
    }
}

/// The place of a token, or of the end.
pub(crate) fn place_of(tokens: &Tokens, at: usize) -> Span
    ensures { IsPlaceOf tokens.now at result }
{
    match tokens.tokens.get(at) {
        Some(token) => token.span,
        None => tokens.end,
    }
}
