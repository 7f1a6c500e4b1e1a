//! The judgement of a table: the five conditions of a row, in their order, and the first row that breaks one.

ghost use Rattle.std.specs.Prelude.{◌≡◌, ◌≢◌, ℕ, ◌<◌, ◌≤◌, ◌↔◌, length, slice_index, Some, None, Err, IsTrue, IfOk, IfSome, OnOk, MatchOption, MatchBool, if◌then◌else◌, ◌==◌};
ghost use Rattle.ll1_engine.specs.declared.grammar.Row.{Row};
ghost use Rattle.ll1_engine.specs.declared.fault.Break.{Break};
ghost use Rattle.ll1_engine.specs.declared.fault.TableFault.{TableFault};
ghost use Rattle.ll1_engine.specs.Table.{IsRow};
ghost use Rattle.ll1_engine.specs.Conditions.{IsOther, StandsOnlyFirstIn, MayRank, SharesFirst, Meets, Breaks, place_of, IsGood, IsFirstBreak};
ghost use Rattle.ll1_engine.specs.Analysis.{AreBelow, MarksTokens, AreAllTokenSets, IsAnalysis, OtherMarked, HasPlainTwin, BeginsAndFollows};

use crate::analysis::{AllTokenSets, Analysis, analyze};
use crate::checked::Checked;
use crate::fault::{Break, CheckFault, TableFault};
use crate::grammar::{Grammar, Row, Symbol, Token};
use std::alloc::Global;

/// The table with its prediction, where each row meets the five conditions; else the first row that breaks one.
pub fn check_table<const S: usize, const R: usize>(
    alloc: Global,
    grammar: &Grammar<S, R>,
) -> Result<Checked<S, R>, CheckFault>
    ensures good { OnOk result (IsGood grammar.now) }
    ensures same { IfOk result (λ checked. checked ≡ grammar.now) }
    ensures fault { (fault : TableFault) → result ≡ Err (CheckFault.Table fault) →
        IsFirstBreak grammar.now fault.row fault.breaks }
{
    let rows = grammar.rows();
    let analysis = analyze(alloc, S, rows).map_err(CheckFault::Memory)?;
    if let Some(fault) = first_break(S, rows, &analysis) {
        return Err(CheckFault::Table(fault));
    }
    Checked::new(alloc, rows, analysis).map_err(CheckFault::Memory)
}

/// The first broken condition of the table, row by row.
fn first_break(size: usize, rows: &[Row], analysis: &Analysis) -> Option<TableFault>
    requires below { AreBelow size rows.now }
    requires analysis { IsAnalysis size rows.now analysis.now }
    ensures { MatchOption result (IsGood rows.now)
        (λ fault. IsFirstBreak rows.now fault.row fault.breaks) }
{
    for row in 0..rows.len() {
        if let Some(breaks) = break_of(size, rows, analysis, row) {
            return Some(TableFault { row, breaks });
        }
    }
    None
}

/// The first condition that row `k` breaks.
fn break_of(size: usize, rows: &[Row], analysis: &Analysis, k: usize) -> Option<Break>
    requires below { AreBelow size rows.now }
    requires analysis { IsAnalysis size rows.now analysis.now }
    requires row { k < length rows.now }
    ensures { (r : Row) → IsRow rows.now k r → MatchOption result
        ((b : Break) → Meets rows.now k r b)
        (λ b. Breaks rows.now k r b ×
        ((a : Break) → place_of a < place_of b → Meets rows.now k r a)) }
{
    if breaks_barren(size, rows, analysis, k) {
        return Some(Break::Barren);
    }
    if breaks_rank(size, rows, analysis, k) {
        return Some(Break::Rank);
    }
    if breaks_nullable(size, rows, analysis, k) {
        return Some(Break::Nullable);
    }
    if breaks_first(size, rows, analysis, k) {
        return Some(Break::First);
    }
    if breaks_follow(size, rows, analysis, k) {
        return Some(Break::Follow);
    }
    None
}

/// Whether the left symbol of row `k` derives no list of tokens.
fn breaks_barren(size: usize, rows: &[Row], analysis: &Analysis, k: usize) -> bool
    requires below { AreBelow size rows.now }
    requires analysis { IsAnalysis size rows.now analysis.now }
    requires row { k < length rows.now }
    ensures { (r : Row) → IsRow rows.now k r →
        MatchBool result (Breaks rows.now k r Break.Barren) (Meets rows.now k r Break.Barren) }
{
    !analysis.productive[rows[k].left]
}

/// Whether row `k` has a rank above 0 that it may not have.
fn breaks_rank(size: usize, rows: &[Row], analysis: &Analysis, k: usize) -> bool
    requires below { AreBelow size rows.now }
    requires analysis { IsAnalysis size rows.now analysis.now }
    requires row { k < length rows.now }
    ensures { (r : Row) → IsRow rows.now k r →
        MatchBool result (Breaks rows.now k r Break.Rank) (Meets rows.now k r Break.Rank) }
{
    if rows[k].rank == 0 {
        return false;
    }
    !may_rank(rows, analysis.tokens.as_slice(), k)
}

/// Whether row `k` and another row of its symbol derive the empty list.
fn breaks_nullable(size: usize, rows: &[Row], analysis: &Analysis, k: usize) -> bool
    requires below { AreBelow size rows.now }
    requires analysis { IsAnalysis size rows.now analysis.now }
    requires row { k < length rows.now }
    ensures { (r : Row) → IsRow rows.now k r →
        MatchBool result (Breaks rows.now k r Break.Nullable) (Meets rows.now k r Break.Nullable) }
{
    if !analysis.nullable_rows[k] {
        return false;
    }
    other_marked(rows, k, analysis.nullable_rows.as_slice())
}

/// Whether a token is in FIRST of row `k` and of another row of its symbol.
fn breaks_first(size: usize, rows: &[Row], analysis: &Analysis, k: usize) -> bool
    requires below { AreBelow size rows.now }
    requires analysis { IsAnalysis size rows.now analysis.now }
    requires row { k < length rows.now }
    ensures { (r : Row) → IsRow rows.now k r →
        MatchBool result (Breaks rows.now k r Break.First) (Meets rows.now k r Break.First) }
{
    shares_first(size, rows, &analysis.token_sets, k)
}

/// Whether row `k` has rank 0, another row of its symbol derives the empty list, and a token is in FIRST of row `k`
/// and in FOLLOW of its symbol.
fn breaks_follow(size: usize, rows: &[Row], analysis: &Analysis, k: usize) -> bool
    requires below { AreBelow size rows.now }
    requires analysis { IsAnalysis size rows.now analysis.now }
    requires row { k < length rows.now }
    ensures { (r : Row) → IsRow rows.now k r →
        MatchBool result (Breaks rows.now k r Break.Follow) (Meets rows.now k r Break.Follow) }
{
    if rows[k].rank != 0 {
        return false;
    }
    if !other_marked(rows, k, analysis.nullable_rows.as_slice()) {
        return false;
    }
    begins_and_follows(size, rows, &analysis.token_sets, k)
}

/// Whether row `k` may have a rank above 0.
fn may_rank(rows: &[Row], tokens: &[bool], k: usize) -> bool
    requires below { AreBelow (length tokens.now) rows.now }
    requires tokens { MarksTokens (length tokens.now) rows.now tokens.now }
    requires row { k < length rows.now }
    ensures { (r : Row) → IsRow rows.now k r → IsTrue result ↔ MayRank rows.now k r }
{
    let right = rows[k].right.as_slice();
    if right.is_empty() {
        return false;
    }
    let token = right[0];
    if !tokens[token] {
        return false;
    }
    if !stands_only_first_in(rows, token, k) {
        return false;
    }
    has_plain_twin(rows, k)
}

/// Whether the token stands nowhere in the table but, it may be, at the first place of row `k`.
fn stands_only_first_in(rows: &[Row], token: Token, k: usize) -> bool
    ensures { IsTrue result ↔ StandsOnlyFirstIn rows.now token k }
{
    for j in 0..rows.len() {
        if !lacks_from(rows[j].right.as_slice(), token, places_free(j, k)) {
            return false;
        }
    }
    true
}

/// How many places of row `j` may hold the first token of row `k`.
fn places_free(j: usize, k: usize) -> usize
    ensures { result ≡ (if j == k then 1 else 0) }
{
    if j == k { 1 } else { 0 }
}

/// Whether no symbol from a place on is the token.
fn lacks_from(symbols: &[Symbol], token: Token, from: usize) -> bool
    ensures { IsTrue result ↔
        ((i : ℕ) → from ≤ i → i < length symbols.now → slice_index symbols.now i ≢ token) }
{
    for i in from..symbols.len() {
        if symbols[i] == token {
            return false;
        }
    }
    true
}

/// Whether the symbol of row `k` has one other row, the empty row with rank 0.
fn has_plain_twin(rows: &[Row], k: usize) -> bool
    requires { k < length rows.now }
    ensures { (r : Row) → IsRow rows.now k r → IsTrue result ↔ HasPlainTwin rows.now k r }
{
    let Some(j) = first_other(rows, k) else {
        return false;
    };
    let twin = &rows[j];
    if twin.rank != 0 {
        return false;
    }
    if !twin.right.as_slice().is_empty() {
        return false;
    }
    is_only_other(rows, k, j)
}

/// Another row of the symbol of row `k`.
fn first_other(rows: &[Row], k: usize) -> Option<usize>
    requires { k < length rows.now }
    ensures within { IfSome result (λ j. j < length rows.now) }
    ensures other { (r : Row) → IsRow rows.now k r → MatchOption result
        ((j : ℕ) (s : Row) → ¬ IsOther rows.now k r j s)
        (λ j. (s : Row) × IsOther rows.now k r j s) }
{
    for j in 0..rows.len() {
        if is_other(rows, k, j) {
            return Some(j);
        }
    }
    None
}

/// Whether row `j` is the only other row of the symbol of row `k`.
fn is_only_other(rows: &[Row], k: usize, j: usize) -> bool
    requires { k < length rows.now }
    ensures { (r : Row) → IsRow rows.now k r →
        IsTrue result ↔ ((i : ℕ) (q : Row) → IsOther rows.now k r i q → i ≡ j) }
{
    for i in 0..rows.len() {
        if i == j {
            continue;
        }
        if is_other(rows, k, i) {
            return false;
        }
    }
    true
}

/// Whether another row of the symbol of row `k` is marked.
fn other_marked(rows: &[Row], k: usize, marks: &[bool]) -> bool
    requires row { k < length rows.now }
    requires size { length marks.now ≡ length rows.now }
    ensures { (r : Row) → IsRow rows.now k r → IsTrue result ↔ OtherMarked rows.now k r marks.now }
{
    for j in 0..rows.len() {
        if !marks[j] {
            continue;
        }
        if is_other(rows, k, j) {
            return true;
        }
    }
    false
}

/// Whether row `j` is another row of the symbol of row `k`.
fn is_other(rows: &[Row], k: usize, j: usize) -> bool
    requires row { k < length rows.now }
    requires other { j < length rows.now }
    ensures { (r s : Row) → IsRow rows.now k r → IsRow rows.now j s →
        IsTrue result ↔ IsOther rows.now k r j s }
{
    j != k && rows[j].left == rows[k].left
}

/// Whether a token is in FIRST of row `k` and of another row of its symbol.
fn shares_first(size: usize, rows: &[Row], token_sets: &AllTokenSets, k: usize) -> bool
    requires below { AreBelow size rows.now }
    requires token_sets { AreAllTokenSets size rows.now token_sets.now }
    requires row { k < length rows.now }
    ensures { (r : Row) → IsRow rows.now k r → IsTrue result ↔ SharesFirst rows.now k r }
{
    for token in 0..size {
        let first_rows = token_sets.first_rows[token].as_slice();
        if !first_rows[k] {
            continue;
        }
        if other_marked(rows, k, first_rows) {
            return true;
        }
    }
    false
}

/// Whether a token is in FIRST of row `k` and in FOLLOW of its symbol.
fn begins_and_follows(size: usize, rows: &[Row], token_sets: &AllTokenSets, k: usize) -> bool
    requires below { AreBelow size rows.now }
    requires token_sets { AreAllTokenSets size rows.now token_sets.now }
    requires row { k < length rows.now }
    ensures { (r : Row) → IsRow rows.now k r → IsTrue result ↔ BeginsAndFollows rows.now r }
{
    for token in 0..size {
        let first_rows = token_sets.first_rows[token].as_slice();
        let follow = token_sets.follows[token].as_slice();
        if !first_rows[k] {
            continue;
        }
        if follow[rows[k].left] {
            return true;
        }
    }
    false
}
