//! Checked LL(1) tables and their parser: a grammar is a list of rows, `check_table` accepts it where every row meets
//! five conditions, and `parse` then finds the one tree of a list of tokens, or the place past which no list with a tree
//! goes on.
//!
//! It knows nothing of a language or of texts: symbols are numbers, and a tree is the list of its rows in preorder. What
//! is derived, what is allowed and where a list stops is said over trees, in `specs/Trees.antt` and `specs/Parse.antt`.
//!
//! The module `laws` says what holds of every table and of every good one. A proof takes the lemmas from `proofs/`:
//! `ClosedLemmas` and `ProductiveLemmas` (with which a table can be shown to be good), `HasTreeLemmas` (what is derived
//! has an allowed tree), `OneTreeLemmas` (and only one), `OpenLemmas` (what is open around a token is determined by the
//! tokens up to it), `RowsBeforeLemmas` (which rows begin before a token), and `TreesLemmas` (trees side by side).
#![tactic(auto)]

mod analysis;
mod check;
mod checked;
mod fault;
mod grammar;
pub mod laws;
mod parser;
mod relations;
mod sets;

pub use check::check_table;
pub use checked::Checked;
pub use fault::{Break, CheckFault, ParseFault, Stop, TableFault};
pub use grammar::{Grammar, Row, Rows, Symbol, Symbols, Token};
pub use parser::{Tree, parse};
