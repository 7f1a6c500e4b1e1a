//! The reading of a list of tokens: its tree, or the refusal that decides.

ghost use Rattle.std.specs.Prelude.{◌≡◌, Err, IfOk};
ghost use Rattle.tg_base.specs.declared.fault.Fault.{Fault};
ghost use Rattle.tg_base.specs.declared.place.Refusal.{Refusal};
ghost use Rattle.ll1_engine.specs.Parse.{StopsAt};
ghost use Rattle.p4_grammar.specs.Rows.{grammar_rows};
ghost use Rattle.p4_grammar.specs.Words.{terminals_of};
ghost use Rattle.p4_grammar.specs.Derivation.{AreRowsOf};
ghost use Rattle.p4_grammar.specs.Depth.{IsFirstDeep, IsDepthFault, IsShallow};
ghost use Rattle.p4_grammar.specs.Descent.{TellTokens};
ghost use Rattle.p4_grammar.specs.Sources.{IsSourceOf};
ghost use Rattle.p4_grammar.specs.Reading.{IsReading, IsReadFault};

use crate::depth::first_deep;
use crate::derivation::{parsed, place_of, syntax_fault};
use crate::sources::source_of;
use crate::table::{Table, language_table};
use ll1_engine::{ParseFault, Stop, Tree};
use p4_lexer::Tokens;
use p4_tree::Source;
use std::alloc::{AllocError, Global};
use tg_base::{Code, Fault, Refusal, Span};

/// The tree of the tokens. Refused are tokens of which one has more than `MAX_DEPTH` forms open around it, and tokens that
/// have no derivation.
pub fn read(alloc: Global, tokens: &Tokens) -> Result<Source, Fault>
    ensures tree { IfOk result (λ source. IsReading source tokens.now) }
    ensures refused { (refusal : Refusal) → result ≡ Err (Fault.Refused refusal) →
        IsReadFault tokens.now refusal }
{
    match shallow_derivation_of(alloc, tokens) {
        Ok(rows) => whole_source(alloc, rows.as_slice(), tokens),
        Err(fault) => Err(fault),
    }
}

/// The tree of tokens that have these rows.
fn whole_source(alloc: Global, rows: &[usize], tokens: &Tokens) -> Result<Source, Fault>
    requires { AreRowsOf rows.now tokens.now.tokens }
    ensures tree { IfOk result (λ source. IsSourceOf source tokens.now) }
    ensures never { (refusal : Refusal) → ¬ (result ≡ Err (Fault.Refused refusal)) }
{
    match source_of(alloc, rows, tokens) {
        Ok(source) => Ok(source),
        Err(error) => Err(Fault::Memory(error)),
    }
}

/// The rows of the one derivation of the tokens, in preorder. Refused are tokens of which one has more than `MAX_DEPTH`
/// forms open around it, and tokens that have no derivation.
pub fn shallow_derivation_of(alloc: Global, tokens: &Tokens) -> Result<Tree, Fault>
    ensures rows { IfOk result (λ rows. AreRowsOf rows tokens.now.tokens) }
    ensures shallow { IfOk result (λ _. IsShallow tokens.now.tokens) }
    ensures refused { (refusal : Refusal) → result ≡ Err (Fault.Refused refusal) →
        IsReadFault tokens.now refusal }
{
    let Ok(table) = language_table(alloc) else {
        return Err(Fault::Memory(AllocError));
    };
    match parsed(alloc, &table, tokens.tokens.as_slice()) {
        Ok(rows) => derived(alloc, &table, rows, tokens),
        Err(ParseFault::Stop(stop)) => Err(stopped(alloc, &table, &stop, tokens)),
        Err(ParseFault::Memory(error)) => Err(Fault::Memory(error)),
    }
}

/// The rows of a derivation, where no token is too deep.
fn derived(alloc: Global, table: &Table, rows: Tree, tokens: &Tokens) -> Result<Tree, Fault>
    requires table { table.now ≡ grammar_rows }
    requires rows { AreRowsOf rows tokens.now.tokens }
    ensures same { IfOk result (λ same. same ≡ rows) }
    ensures shallow { IfOk result (λ _. IsShallow tokens.now.tokens) }
    ensures refused { (refusal : Refusal) → result ≡ Err (Fault.Refused refusal) →
        IsReadFault tokens.now refusal }
{
    let all = tokens.tokens.as_slice();
    match first_deep(alloc, table.rows(), rows.as_slice(), all, all.len()) {
        Ok(Some(at)) => Err(Fault::Refused(depth_fault(tokens, at))),
        Ok(None) => Ok(rows),
        Err(error) => Err(Fault::Memory(error)),
    }
}

/// The fault of tokens that stop: only those before the place of Syntax have a depth.
fn stopped(alloc: Global, table: &Table, stop: &Stop, tokens: &Tokens) -> Fault
    requires table { table.now ≡ grammar_rows }
    requires stops { StopsAt grammar_rows (terminals_of tokens.now.tokens) stop.now.at }
    requires told { TellTokens stop.now.rows tokens.now.tokens stop.now.at }
    ensures { (refusal : Refusal) → result ≡ Fault.Refused refusal →
        IsReadFault tokens.now refusal }
{
    let all = tokens.tokens.as_slice();
    match first_deep(alloc, table.rows(), stop.rows.as_slice(), all, stop.at) {
        Ok(Some(at)) => Fault::Refused(depth_fault(tokens, at)),
        Ok(None) => Fault::Refused(syntax_fault(tokens, stop.at)),
        Err(error) => Fault::Memory(error),
    }
}

/// The refusal of tokens of which this is the first that has too many forms open around it.
fn depth_fault(tokens: &Tokens, at: usize) -> Refusal
    requires { IsFirstDeep tokens.now.tokens at }
    ensures { IsDepthFault tokens.now result }
{
    let Span { line, column } = place_of(tokens, at);
    Refusal {
        code: Code::TooDeep,
        line,
        column,
    }
}
