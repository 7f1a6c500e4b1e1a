//! What is found out of a table before its rows are judged: tokens, symbols that derive something or the empty
//! list, FIRST and FOLLOW for each token, and the row that each token predicts for a symbol.

ghost use Rattle.std.specs.Prelude.{◌≡◌, ℕ, ◌<◌, ◌↔◌, length, slice_index_or, None, IfOk};
ghost use Rattle.ll1_engine.specs.declared.grammar.Row.{Row};
ghost use Rattle.ll1_engine.specs.Table.{IsRow};
ghost use Rattle.ll1_engine.specs.Marks.{marked, Has, all_in, begins_in};
ghost use Rattle.ll1_engine.specs.Relations.{BeginsDirectly, Represents};
ghost use Rattle.ll1_engine.specs.Analysis.{AreBelow, MarksTokens, MarksProductive, MarksNullable, MarksFirst, MarksFollow, AreRelations, HasRowWithin, PredictsMarked, AreTokenSets, AreAllTokenSets, IsAnalysis};

use crate::checked::Predictions;
use crate::grammar::{Row, Token};
use crate::relations::{Relations, relations_of};
use crate::sets::{all_marked, begins, close_under};
use sqlite_items::Items;
use std::alloc::{AllocError, Global};

/// A mark for each symbol, or for each row.
type Marks = Items<bool>;

/// What is found out for one token: the rows that have it in their FIRST, the symbols that have it in their
/// FOLLOW, and for each symbol its row that has it in its FIRST.
#[derive(Debug, Drop)]
struct TokenSets {
    first_rows: Marks,
    follow: Marks,
    first_predictions: Predictions,
}

/// The same for each token, in the order of the symbols.
#[derive(Debug, Drop)]
pub(crate) struct AllTokenSets {
    pub(crate) first_rows: Vec<Marks>,
    pub(crate) follows: Vec<Marks>,
    pub(crate) first_predictions: Vec<Predictions>,
}

/// What is found out of a table: its tokens, the symbols that derive something, the rows that derive the empty
/// list, for each symbol such a row, and what is found out for each token.
#[derive(Debug, Drop)]
pub(crate) struct Analysis {
    pub(crate) tokens: Vec<bool>,
    pub(crate) productive: Vec<bool>,
    pub(crate) nullable_rows: Vec<bool>,
    pub(crate) nullable_predictions: Predictions,
    pub(crate) token_sets: AllTokenSets,
}

/// What is found out of a table of `size` symbols.
pub(crate) fn analyze(alloc: Global, size: usize, rows: &[Row]) -> Result<Analysis, AllocError>
    requires { AreBelow size rows.now }
    ensures { IfOk result (λ s. IsAnalysis size rows.now s) }
{
    let tokens = token_marks(alloc, size, rows)?;
    let productive = productive_marks(alloc, rows, tokens.as_slice())?;
    let nullable = nullable_marks(alloc, size, rows)?;
    let nullable_rows = nullable_row_marks(alloc, rows, nullable.as_slice())?;
    let predictions = predictions_of(alloc, size, rows, nullable_rows.as_slice())?;
    let token_sets = sets_of_tokens(alloc, rows, tokens.as_slice(), nullable.as_slice())?;
    Ok(Analysis {
        tokens,
        productive,
        nullable_rows,
        nullable_predictions: Predictions::from_vec(predictions),
        token_sets,
    })
}

/// The symbols for which there is no row.
fn token_marks(alloc: Global, size: usize, rows: &[Row]) -> Result<Vec<bool>, AllocError>
    requires { AreBelow size rows.now }
    ensures size { IfOk result (λ marks. length marks.items ≡ size) }
    ensures exact { IfOk result (λ marks. MarksTokens size rows.now marks.items) }
{
    let mut marks = vec![in alloc; true; size]?;
    for row in rows {
        marks[row.left] = false;
    }
    Ok(marks)
}

/// The symbols that derive some list of tokens.
fn productive_marks(alloc: Global, rows: &[Row], tokens: &[bool]) -> Result<Vec<bool>, AllocError>
    requires below { AreBelow (length tokens.now) rows.now }
    requires tokens { MarksTokens (length tokens.now) rows.now tokens.now }
    ensures size { IfOk result (λ marks. length marks.items ≡ length tokens.now) }
    ensures exact { IfOk result
        (λ marks. MarksProductive (length tokens.now) rows.now marks.items) }
{
    let mut marks = Vec::from_slice(alloc, tokens)?;
    close_under(rows, marks.as_mut_slice());
    Ok(marks)
}

/// The symbols that derive the empty list.
fn nullable_marks(alloc: Global, size: usize, rows: &[Row]) -> Result<Vec<bool>, AllocError>
    requires { AreBelow size rows.now }
    ensures size { IfOk result (λ marks. length marks.items ≡ size) }
    ensures exact { IfOk result (λ marks. MarksNullable rows.now marks.items) }
{
    let mut marks = vec![in alloc; false; size]?;
    close_under(rows, marks.as_mut_slice());
    Ok(marks)
}

/// The rows whose right sides derive the empty list.
fn nullable_row_marks(
    alloc: Global,
    rows: &[Row],
    nullable: &[bool],
) -> Result<Vec<bool>, AllocError>
    requires { AreBelow (length nullable.now) rows.now }
    ensures size { IfOk result (λ marks. length marks.items ≡ length rows.now) }
    ensures exact { IfOk result (λ marks. (k : ℕ) (r : Row) → IsRow rows.now k r →
        marked marks.items k ≡ all_in (marked nullable.now) r.right) }
{
    let mut marks = Vec::new(alloc);
    for row in rows {
        marks.push(all_marked(nullable, row.right.as_slice()))?;
    }
    Ok(marks)
}

/// What is found out for each token.
fn sets_of_tokens(
    alloc: Global,
    rows: &[Row],
    tokens: &[bool],
    nullable: &[bool],
) -> Result<AllTokenSets, AllocError>
    requires below { AreBelow (length tokens.now) rows.now }
    requires sizes { length nullable.now ≡ length tokens.now }
    requires tokens { MarksTokens (length tokens.now) rows.now tokens.now }
    requires nullable { MarksNullable rows.now nullable.now }
    ensures { IfOk result (λ s. AreAllTokenSets (length tokens.now) rows.now s) }
{
    let relations = relations_of(alloc, rows, nullable)?;
    let mut first_rows = Vec::new(alloc);
    let mut follows = Vec::new(alloc);
    let mut first_predictions = Vec::new(alloc);
    for token in 0..tokens.len() {
        let sets = sets_of_token(alloc, rows, tokens, nullable, &relations, token)?;
        first_rows.push(sets.first_rows)?;
        follows.push(sets.follow)?;
        first_predictions.push(sets.first_predictions)?;
    }
    Ok(AllTokenSets {
        first_rows,
        follows,
        first_predictions,
    })
}

/// What is found out for one token.
fn sets_of_token(
    alloc: Global,
    rows: &[Row],
    tokens: &[bool],
    nullable: &[bool],
    relations: &Relations,
    token: Token,
) -> Result<TokenSets, AllocError>
    requires below { AreBelow (length tokens.now) rows.now }
    requires sizes { length nullable.now ≡ length tokens.now }
    requires tokens { MarksTokens (length tokens.now) rows.now tokens.now }
    requires nullable { MarksNullable rows.now nullable.now }
    requires relations { AreRelations (length tokens.now) rows.now relations.now }
    requires token { token < length tokens.now }
    ensures { IfOk result (λ s.
        AreTokenSets (length tokens.now) rows.now token s.first_rows s.follow s.first_predictions) }
{
    let first = first_marks(alloc, rows, tokens, relations.begins.as_slice(), token)?;
    let follow = follow_marks(alloc, rows, first.as_slice(), relations)?;
    let first_rows = first_row_marks(alloc, rows, first.as_slice(), nullable)?;
    let predictions = predictions_of(alloc, tokens.len(), rows, first_rows.as_slice())?;
    Ok(TokenSets {
        first_rows: Marks::from_vec(first_rows),
        follow: Marks::from_vec(follow),
        first_predictions: Predictions::from_vec(predictions),
    })
}

/// The symbols that have the token in their FIRST.
fn first_marks(
    alloc: Global,
    rows: &[Row],
    tokens: &[bool],
    begins: &[Row],
    token: Token,
) -> Result<Vec<bool>, AllocError>
    requires tokens { MarksTokens (length tokens.now) rows.now tokens.now }
    requires below { AreBelow (length tokens.now) begins.now }
    requires begins { Represents begins.now (BeginsDirectly rows.now) }
    requires token { token < length tokens.now }
    ensures size { IfOk result (λ marks. length marks.items ≡ length tokens.now) }
    ensures exact { IfOk result (λ marks. MarksFirst rows.now token marks.items) }
{
    let mut marks = vec![in alloc; false; tokens.len()]?;
    marks[token] = tokens[token];
    close_under(begins, marks.as_mut_slice());
    Ok(marks)
}

/// The symbols that have the token of `first` in their FOLLOW.
fn follow_marks(
    alloc: Global,
    rows: &[Row],
    first: &[bool],
    relations: &Relations,
) -> Result<Vec<bool>, AllocError>
    requires { AreRelations (length first.now) rows.now relations.now }
    ensures size { IfOk result (λ marks. length marks.items ≡ length first.now) }
    ensures exact { IfOk result (λ marks. (token : ℕ) →
        MarksFirst rows.now token first.now → MarksFollow rows.now token marks.items) }
{
    let mut marks = left_marks(alloc, relations.next.as_slice(), first)?;
    close_under(relations.ends.as_slice(), marks.as_mut_slice());
    Ok(marks)
}

/// The left symbols of the rows whose right sides are in the set.
fn left_marks(alloc: Global, rows: &[Row], set: &[bool]) -> Result<Vec<bool>, AllocError>
    requires { AreBelow (length set.now) rows.now }
    ensures size { IfOk result (λ marks. length marks.items ≡ length set.now) }
    ensures exact { IfOk result
        (λ marks. (x : ℕ) → Has marks.items x ↔ HasRowWithin rows.now set.now x) }
{
    let mut marks = vec![in alloc; false; set.len()]?;
    for row in rows {
        if all_marked(set, row.right.as_slice()) {
            marks[row.left] = true;
        }
    }
    Ok(marks)
}

/// The rows that have the token of `first` in their FIRST.
fn first_row_marks(
    alloc: Global,
    rows: &[Row],
    first: &[bool],
    nullable: &[bool],
) -> Result<Vec<bool>, AllocError>
    requires below { AreBelow (length first.now) rows.now }
    requires sizes { length nullable.now ≡ length first.now }
    ensures size { IfOk result (λ marks. length marks.items ≡ length rows.now) }
    ensures exact { IfOk result (λ marks. (k : ℕ) (r : Row) → IsRow rows.now k r →
        marked marks.items k ≡ begins_in (marked first.now) (marked nullable.now) r.right) }
{
    let mut marks = Vec::new(alloc);
    for row in rows {
        marks.push(begins(first, nullable, row.right.as_slice()))?;
    }
    Ok(marks)
}

/// For each symbol a marked row of it, or none.
fn predictions_of(
    alloc: Global,
    size: usize,
    rows: &[Row],
    marks: &[bool],
) -> Result<Vec<Option<usize>>, AllocError>
    requires below { AreBelow size rows.now }
    requires sizes { length marks.now ≡ length rows.now }
    ensures size { IfOk result (λ predictions. length predictions.items ≡ size) }
    ensures exact { IfOk result (λ predictions. (x : ℕ) → x < size →
        PredictsMarked rows.now marks.now x (slice_index_or predictions.items x None)) }
{
    let mut predictions = vec![in alloc; None; size]?;
    for k in 0..rows.len() {
        if marks[k] {
            predictions[rows[k].left] = Some(k);
        }
    }
    Ok(predictions)
}
