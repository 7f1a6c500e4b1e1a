//! A cursor along a derivation, of which it has the rows and the tokens.

ghost use Rattle.std.specs.Prelude.{◌≡◌, ℕ, Some, IsSome};
ghost use Rattle.p4_grammar.specs.Ahead.{Begins, IsWord, first_symbol, token_at, opened, after};
ghost use Rattle.p4_grammar.specs.Parses.{IsParseOf, place_of};
ghost use Rattle.p4_grammar.specs.Rows.{grammar_rows};
ghost use Rattle.p4_grammar.specs.Derivation.{AreRowsOf};

use ll1_engine::{Row, Symbol};
use p4_lexer::Token;
use std::marker::Model;
use tg_base::Span;

/// What is left of a derivation. Contracts see the trees themselves; the rows and the tokens from
/// the two places on are theirs.
#[derive(Drop)]
pub(crate) struct Cursor<'a> {
    grammar: &'a [Row],
    rows: &'a [usize],
    tokens: &'a [Token],
    next_row: usize,
    next_token: usize,
}

impl<'a> Model for Cursor<'a> {
    ghost use Rattle.p4_grammar.specs.Parses.{Parse};
    ghost use Rattle.p4_grammar.specs.ParseCode.{parse_code};

    ghost Value = { Parse };

    ghost coded = { parse_code };

    ghost use Rattle.p4_grammar.specs.Walk.{ahead, IsInStep};

    ghost view = { λ c. ahead c.rows.now c.tokens.now c.next_row c.next_token };

    ghost invariant = { λ c.
        IsInStep c.grammar.now c.rows.now c.tokens.now c.next_row c.next_token };
}

impl<'a> Cursor<'a> {
    /// Stands before the whole derivation of the tokens that has these rows.
    pub(crate) fn new(grammar: &'a [Row], rows: &'a [usize], tokens: &'a [Token]) -> Cursor<'a>
        requires grammar { grammar.now ≡ grammar_rows }
        requires rows { AreRowsOf rows.now tokens.now }
        ensures { IsParseOf result tokens.now }
    {
        Cursor {
            grammar,
            rows,
            tokens,
            next_row: 0,
            next_token: 0,
        }
    }

    /// Enters the first tree, and gives the first symbol of its row.
    pub(crate) fn enter(&mut self) -> Option<Symbol>
        requires { (form : ℕ) × Begins form self.old }
        ensures symbol { result ≡ first_symbol self.old }
        ensures opened { self.new ≡ opened self.old }
    {
        let row = self.rows[self.next_row];
        self.next_row += 1;
        self.grammar[row].right.as_slice().first().copied()
    }

    /// Takes the first token.
    pub(crate) fn take(&mut self) -> &'a Token
        requires { IsWord self.old }
        ensures token { token_at self.old ≡ Some result.now }
        ensures rest { self.new ≡ after self.old }
    {
        let token = &self.tokens[self.next_token];
        self.next_token += 1;
        token
    }

    /// The place of the next token.
    pub(crate) fn place(&self) -> Span
        requires { IsSome (place_of self.now) }
        ensures { place_of self.now ≡ Some result }
    {
        self.tokens[self.next_token].span
    }
}
