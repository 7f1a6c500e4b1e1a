//! The grammar as data: symbols, rows and the table of all rows.

ghost use Rattle.std.specs.Prelude.{◌≡◌, ℕ, ◌<◌, ◌↔◌, IsSome, IfSome, IfOk, IsTrue};
ghost use Rattle.std.specs.List.{AllByRecursion};
ghost use Rattle.ll1_engine.specs.declared.grammar.Row.{Row};
ghost use Rattle.ll1_engine.specs.Table.{IsRow, RowIsBelow, FitsIn};

use sqlite_items::Items;
use std::alloc::{AllocError, Global};
use std::marker::Model;

/// A symbol's number. The start symbol is 0.
pub type Symbol = usize;

/// A symbol for which there is no row.
pub type Token = Symbol;

/// A list of symbols.
pub type Symbols = Items<Symbol>;

/// A row of a grammar: its left symbol stands for the symbols of its right side, in order. A rank above 0
/// lets the row be taken wherever its first token stands next.
#[derive(Debug, Drop)]
pub struct Row {
    pub left: Symbol,
    pub right: Symbols,
    pub rank: u32,
}

/// A list of rows. A row is named by its place, from 0 on.
pub type Rows = Items<Row>;

/// A copy of the rows.
pub(crate) fn copied(alloc: Global, rows: &[Row]) -> Result<Rows, AllocError>
    ensures { IfOk result (λ r. r ≡ rows.now) }
{
    let mut items = Vec::new(alloc);
    for row in rows {
        let right = Symbols::from_slice(alloc, row.right.as_slice())?;
        items.push(Row {
            left: row.left,
            right,
            rank: row.rank,
        })?;
    }
    Ok(Rows::from_vec(items))
}

fn all_below(n: usize, symbols: &[Symbol]) -> bool
    ensures { IsTrue result ↔ AllByRecursion (λ y. y < n) symbols.now }
{
    for symbol in symbols {
        if *symbol >= n {
            return false;
        }
    }
    true
}

fn row_is_below(n: usize, row: &Row) -> bool
    ensures { IsTrue result ↔ RowIsBelow n row.now }
{
    row.left < n && all_below(n, row.right.as_slice())
}

fn rows_are_below(n: usize, rows: &[Row]) -> bool
    ensures { IsTrue result ↔ ((k : ℕ) (r : Row) → IsRow rows.now k r → RowIsBelow n r) }
{
    for row in rows {
        if !row_is_below(n, row) {
            return false;
        }
    }
    true
}

fn fits(symbols: usize, count: usize, rows: &[Row]) -> bool
    ensures { IsTrue result ↔ FitsIn symbols count rows.now }
{
    symbols > 0 && rows.len() == count && rows_are_below(symbols, rows)
}

/// A grammar of `S` symbols and `R` rows.
#[derive(Debug, Drop)]
pub struct Grammar<const S: usize, const R: usize> {
    rows: Rows,
}

impl<const S: usize, const R: usize> Model for Grammar<S, R> {
    ghost use Rattle.std.specs.Prelude.{List};
    ghost use Rattle.ll1_engine.specs.declared.grammar.Row.{Row};
    ghost use Rattle.ll1_engine.specs.Table.{FitsIn};

    ghost Value = { List Row };

    ghost view = { λ g. g.rows };

    ghost invariant = { λ g. FitsIn S R g.rows };
}

impl<const S: usize, const R: usize> Grammar<S, R> {
    /// The rows as a grammar, where there are `R` of them and each symbol is below `S`.
    pub fn new(rows: Rows) -> Option<Self>
        ensures value { IfSome result (λ g. g ≡ rows) }
        ensures fits { IsSome result ↔ FitsIn S R rows }
    {
        if fits(S, R, rows.as_slice()) {
            return Some(Grammar { rows });
        }
        None
    }

    pub fn rows(&self) -> &[Row]
        ensures same { result.now ≡ self.now }
        ensures fits { FitsIn S R self.now }
    {
        let _rows = &self.rows;
        self.rows.as_slice()
    }
}
