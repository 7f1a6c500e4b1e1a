//! A table that meets the five conditions, with the prediction that a parse reads.

ghost use Rattle.std.specs.Prelude.{◌≡◌, ◌<◌, ◌↔◌, List, Some, IsTrue, IfOk};
ghost use Rattle.std.specs.List.{AllByRecursion};
ghost use Rattle.std.specs.Option.{ForSome};
ghost use Rattle.ll1_engine.specs.Table.{IsToken, FitsIn};
ghost use Rattle.ll1_engine.specs.Conditions.{IsGood};
ghost use Rattle.ll1_engine.specs.Analysis.{IsAnalysis};
ghost use Rattle.ll1_engine.specs.Prediction.{PredictsFirst, PredictsNullable, Predicts};

use crate::analysis::{AllTokenSets, Analysis};
use crate::grammar::{Row, Rows, Symbol, Token, copied};
use sqlite_items::Items;
use std::alloc::{AllocError, Global};
use std::marker::Model;

/// For each symbol a row, or none.
pub(crate) type Predictions = Items<Option<usize>>;

/// A grammar whose rows meet the five conditions.
#[derive(Debug, Drop)]
pub struct Checked<const S: usize, const R: usize> {
    rows: Rows,
    tokens: Vec<bool>,
    first_predictions: Vec<Predictions>,
    nullable_predictions: Predictions,
}

impl<const S: usize, const R: usize> Model for Checked<S, R> {
    ghost use Rattle.std.specs.Prelude.{List};
    ghost use Rattle.ll1_engine.specs.declared.grammar.Row.{Row};
    ghost use Rattle.ll1_engine.specs.Prediction.{IsPrepared};

    ghost Value = { List Row };

    ghost view = { λ c. c.rows };

    ghost invariant = { λ c.
        IsPrepared S R c.rows c.tokens.items c.first_predictions.items c.nullable_predictions };
}

impl<const S: usize, const R: usize> Checked<S, R> {
    /// A good table, with what was found out of it.
    pub(crate) fn new(alloc: Global, rows: &[Row], analysis: Analysis) -> Result<Self, AllocError>
        requires fits { FitsIn S R rows.now }
        requires good { IsGood rows.now }
        requires analysis { IsAnalysis S rows.now analysis }
        ensures { IfOk result (λ checked. checked ≡ rows.now) }
    {
        let rows = copied(alloc, rows)?;
        let Analysis {
            tokens,
            productive: _,
            nullable_rows: _,
            nullable_predictions,
            token_sets,
        } = analysis;
        let AllTokenSets {
            first_rows: _,
            follows: _,
            first_predictions,
        } = token_sets;
        Ok(Checked {
            rows,
            tokens,
            first_predictions,
            nullable_predictions,
        })
    }

    /// Whether the symbol is the left of no row.
    pub fn is_token(&self, symbol: Symbol) -> bool
        requires { symbol < S }
        ensures { IsTrue result ↔ IsToken self.now symbol }
    {
        self.tokens[symbol]
    }

    /// Whether each of the symbols is a token, as a parse asks.
    pub fn are_tokens(&self, symbols: &[Symbol]) -> bool
        ensures { IsTrue result ↔ AllByRecursion (λ t. (t < S) × IsToken self.now t) symbols.now }
    {
        for symbol in symbols {
            if !self.knows(*symbol) {
                return false;
            }
        }
        true
    }

    /// Whether the number is that of a token.
    fn knows(&self, symbol: Symbol) -> bool
        ensures { IsTrue result ↔ ((symbol < S) × IsToken self.now symbol) }
    {
        if symbol >= S {
            return false;
        }
        self.is_token(symbol)
    }

    /// The rows, as they were checked.
    pub fn rows(&self) -> &[Row]
        ensures same { result.now ≡ self.now }
        ensures good { IsGood self.now }
        ensures fits { FitsIn S R self.now }
    {
        self.rows.as_slice()
    }

    /// The row of the symbol that has the token in its FIRST.
    fn first_row(&self, symbol: Symbol, token: Token) -> Option<usize>
        requires symbol { symbol < S }
        requires token { token < S }
        ensures { PredictsFirst self.now token symbol result }
    {
        self.first_predictions[token].as_slice()[symbol]
    }

    /// The row of the symbol that derives the empty list.
    fn nullable_row(&self, symbol: Symbol) -> Option<usize>
        requires { symbol < S }
        ensures { PredictsNullable self.now symbol result }
    {
        self.nullable_predictions.as_slice()[symbol]
    }

    /// The row to take for a symbol where the token, or the end, stands next.
    pub(crate) fn predict(&self, symbol: Symbol, next: Option<Token>) -> Option<usize>
        requires below { symbol < S }
        requires next { ForSome next (λ t. t < S) }
        ensures { Predicts self.now symbol next result }
    {
        let Some(token) = next else {
            return self.nullable_row(symbol);
        };
        if let Some(row) = self.first_row(symbol, token) {
            return Some(row);
        }
        self.nullable_row(symbol)
    }
}
