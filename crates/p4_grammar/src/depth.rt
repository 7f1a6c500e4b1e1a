//! How many counted forms are open around the tokens of a parse, and the first token that has too many.

ghost use Rattle.std.specs.Prelude.{◌≡◌, ℕ, ◌+◌, ◌<◌, ◌≤◌, ◌↔◌, ◌++◌, ◌∷◌, [], length, IfOk, OnOk, IsTrue, MatchOption, reverse};
ghost use Rattle.ll1_engine.specs.declared.grammar.Row.{Row};
ghost use Rattle.p4_grammar.specs.Rows.{grammar_rows};
ghost use Rattle.p4_grammar.specs.Depth.{is_opening, is_closing, counts_in, IsShallowBefore, IsFirstDeep};
ghost use Rattle.p4_grammar.specs.Descent.{TellTokens, start, part_in, parts_below, node_depths, depths_ahead, IsOnTheWay};

use crate::limits::MAX_DEPTH;
use crate::symbols::*;
use crate::words::terminal_of;
use ll1_engine::{Row, Symbol};
use p4_lexer::Token;
use std::alloc::{AllocError, Global};

/// The first of so many tokens that has more than `MAX_DEPTH` forms open around it, if any has.
pub(crate) fn first_deep(
    alloc: Global,
    grammar: &[Row],
    rows: &[usize],
    tokens: &[Token],
    count: usize,
) -> Result<Option<usize>, AllocError>
    requires grammar { grammar.now ≡ grammar_rows }
    requires within { count ≤ length tokens.now }
    requires told { TellTokens rows.now tokens.now count }
    ensures { IfOk result (λ deep. MatchOption deep
        (IsShallowBefore tokens.now count) (λ at. (at < count) × IsFirstDeep tokens.now at)) }
{
    let mut descent = Descent::new(alloc, grammar, rows)?;
    let mut opened: usize = 0;
    let mut closed: usize = 0;
    for (at, token) in tokens[..count].iter().enumerate() {
        let symbol = terminal_of(&token.word);
        closed += usize::from(is_closing(symbol));
        let Some(nodes) = descent.next_depth()? else {
            unreachable!()
        };
        if is_deep(opened.saturating_sub(closed), nodes) {
            return Ok(Some(at));
        }
        opened += usize::from(is_opening(symbol));
    }
    Ok(None)
}

/// Whether so many brackets and nodes are too many.
fn is_deep(brackets: usize, nodes: usize) -> bool
    ensures { IsTrue result ↔ (MAX_DEPTH < brackets + nodes) }
{
    nodes > MAX_DEPTH || brackets > MAX_DEPTH - nodes
}

fn is_opening(symbol: Symbol) -> bool
    ensures { result ≡ is_opening symbol }
{
    symbol == SIGN_LEFT_PAREN
        || symbol == SIGN_LEFT_BRACKET
        || symbol == SIGN_LEFT_BRACE
        || symbol == OPEN_ARGUMENTS
}

fn is_closing(symbol: Symbol) -> bool
    ensures { result ≡ is_closing symbol }
{
    symbol == SIGN_RIGHT_PAREN
        || symbol == SIGN_RIGHT_BRACKET
        || symbol == SIGN_RIGHT_BRACE
        || symbol == CLOSE_ARGUMENTS
}

/// Whether the symbol counts in a node of the form.
fn counts_in(left: Symbol, symbol: Symbol) -> bool
    ensures { result ≡ counts_in left symbol }
{
    (symbol == UNARY
        && (left == UNARY || left == KEY_SET || left == PARENTHESIS || left == KEY_PARENTHESIS))
        || (symbol == EXPRESSION && left == CHOICE)
        || (symbol == STATEMENT && (left == STATEMENT || left == ELSE_BRANCH))
}

/// A symbol that is still to be derived, inside so many nodes that count.
#[derive(Clone, Copy)]
pub(crate) struct Part {
    symbol: Symbol,
    depth: usize,
}

/// A way along the rows, with the parts that are still to be derived, the next one on top.
#[derive(Drop)]
struct Descent<'a> {
    grammar: &'a [Row],
    rows: &'a [usize],
    next_row: usize,
    parts: Vec<Part>,
}

impl<'a> Descent<'a> {
    fn new(alloc: Global, grammar: &'a [Row], rows: &'a [usize]) -> Result<Descent<'a>, AllocError>
        requires { grammar.now ≡ grammar_rows }
        ensures on_the_way { IfOk result IsOnTheWay }
        ensures told { IfOk result
            (λ descent. depths_ahead descent ≡ node_depths rows.now (start ∷ [])) }
    {
        let mut parts = Vec::new(alloc);
        parts.push(Part {
            symbol: 0,
            depth: 0,
        })?;
        Ok(Descent {
            grammar,
            rows,
            next_row: 0,
            parts,
        })
    }

    /// How many nodes that count are around the next token.
    fn next_depth(&mut self) -> Result<Option<usize>, AllocError>
        requires { IsOnTheWay self.old }
        ensures on_the_way { OnOk result (IsOnTheWay self.new) }
        ensures told { IfOk result (λ next. MatchOption next
            (depths_ahead self.old ≡ [])
            (λ depth. depths_ahead self.old ≡ depth ∷ depths_ahead self.new)) }
    {
        while let Some(part) = self.parts.pop() {
            if part.symbol >= FORM_COUNT {
                return Ok(Some(part.depth));
            }
            let Some(number) = self.rows.get(self.next_row) else {
                return Ok(None);
            };
            let Some(row) = self.grammar.get(*number) else {
                return Ok(None);
            };
            self.next_row += 1;
            push_parts(&mut self.parts, row, part.depth)?;
        }
        Ok(None)
    }
}

/// Puts the parts of a node on top, the first of them uppermost.
fn push_parts(parts: &mut Vec<Part>, row: &Row, depth: usize) -> Result<(), AllocError>
    requires { depth < usize.MAX }
    ensures { OnOk result
        (reverse parts.new.items ≡ parts_below row.now depth ++ reverse parts.old.items) }
{
    let right = row.right.as_slice();
    for i in (0..right.len()).rev() {
        parts.push(part_in(row.left, depth, right[i]))?;
    }
    Ok(())
}

/// A symbol in a node of the form.
fn part_in(left: Symbol, depth: usize, symbol: Symbol) -> Part
    requires { depth < usize.MAX }
    ensures { result ≡ part_in left depth symbol }
{
    let counted = counts_in(left, symbol);
    Part {
        symbol,
        depth: if counted { depth + 1 } else { depth },
    }
}
