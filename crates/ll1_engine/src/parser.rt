//! The parser: a stack of the symbols that are still to be derived, and one look at the table a step.

ghost use Rattle.std.specs.Prelude.{◌≡◌, ℕ, ◌<◌, ◌↔◌, ◌++◌, ◌∷◌, [], List, drop, Some, None, Err, IsTrue, IfOk, OnOk, MatchOption};
ghost use Rattle.std.specs.List.{AllByRecursion};
ghost use Rattle.ll1_engine.specs.declared.fault.Stop.{Stop};
ghost use Rattle.ll1_engine.specs.Table.{IsToken};
ghost use Rattle.ll1_engine.specs.Parse.{first_or, IsTreeOf, StopsAt};
ghost use Rattle.ll1_engine.specs.Open.{TellTrees};

use crate::checked::Checked;
use crate::fault::{ParseFault, Stop};
use crate::grammar::{Symbol, Token};
use sqlite_items::Items;
use std::alloc::{AllocError, Global};
use std::marker::Model;

/// A tree, as the rows of its nodes in preorder.
pub type Tree = Items<usize>;

/// The symbols that are still to be derived, the next one on top.
#[derive(Drop)]
struct Stack {
    symbols: Vec<Symbol>,
}

impl Model for Stack {
    ghost use Rattle.std.specs.Prelude.{List, ℕ, reverse};

    ghost Value = { List ℕ };

    ghost view = { λ s. reverse s.symbols.items };
}

impl Stack {
    fn new(alloc: Global) -> Self
        ensures { result ≡ [] }
    {
        Stack {
            symbols: Vec::new(alloc),
        }
    }

    fn pop(&mut self) -> Option<Symbol>
        ensures { MatchOption result (self.old ≡ []) (λ x. self.old ≡ x ∷ self.new) }
    {
        self.symbols.pop()
    }

    /// Puts the symbols on top, the first of them uppermost.
    fn push_all(&mut self, symbols: &[Symbol]) -> Result<(), AllocError>
        ensures { OnOk result (self.new ≡ symbols.now ++ self.old) }
    {
        for i in (0..symbols.len()).rev() {
            self.symbols.push(symbols[i])?;
        }
        Ok(())
    }
}

/// The token at a place, or none at the end.
fn token_at(tokens: &[Token], at: usize) -> Option<Token>
    ensures { result ≡ first_or (drop at tokens.now) None }
{
    tokens.get(at).copied()
}

fn stands(next: Option<Token>, symbol: Symbol) -> bool
    ensures { IsTrue result ↔ (next ≡ Some symbol) }
{
    match next {
        Some(token) => token == symbol,
        None => false,
    }
}

/// The fault of a parse that stops there, with the rows that it took.
fn stop(at: usize, rows: Vec<usize>) -> ParseFault
    ensures { result ≡ ParseFault.Stop (record { at = at; rows = rows.items }) }
{
    ParseFault::Stop(Stop {
        at,
        rows: Tree::from_vec(rows),
    })
}

/// The tree of the tokens from the start symbol, or the place where they stop.
pub fn parse<const S: usize, const R: usize>(
    alloc: Global,
    checked: &Checked<S, R>,
    tokens: &[Token],
) -> Result<Tree, ParseFault>
    requires { AllByRecursion (λ t. (t < S) × IsToken checked.now t) tokens.now }
    ensures tree { IfOk result (λ tree. IsTreeOf checked.now tree tokens.now) }
    ensures only { IfOk result
        (λ tree. (other : List ℕ) → IsTreeOf checked.now other tokens.now → other ≡ tree) }
    ensures stop { (stop : Stop) → result ≡ Err (ParseFault.Stop stop) →
        StopsAt checked.now tokens.now stop.at }
    ensures begun { (stop : Stop) → result ≡ Err (ParseFault.Stop stop) →
        TellTrees checked.now stop.rows tokens.now stop.at }
{
    let table = checked.rows();
    let mut stack = Stack::new(alloc);
    stack.push_all(&[0]).map_err(ParseFault::Memory)?;
    let mut rows = Vec::new(alloc);
    let mut at = 0;
    while let Some(symbol) = stack.pop() {
        let next = token_at(tokens, at);
        if checked.is_token(symbol) {
            if !stands(next, symbol) {
                return Err(stop(at, rows));
            }
            at += 1;
            continue;
        }
        let Some(row) = checked.predict(symbol, next) else {
            return Err(stop(at, rows));
        };
        rows.push(row).map_err(|_| ParseFault::Memory(AllocError))?;
        let right = table[row].right.as_slice();
        stack.push_all(right).map_err(ParseFault::Memory)?;
    }
    if at < tokens.len() {
        let left_over = stop(at, rows);
        return Err(left_over);
    }
    Ok(Tree::from_vec(rows))
}
