//! The grammar as a checked table.

ghost use Rattle.std.specs.Prelude.{◌≡◌, IfOk};
ghost use Rattle.p4_grammar.specs.Rows.{grammar_rows};

use crate::rows::grammar_rows;
use crate::symbols::{ROW_COUNT, SYMBOL_COUNT};
use ll1_engine::{CheckFault, Checked, Grammar, check_table};
use std::alloc::{AllocError, Global};

/// The grammar, with what a parse reads of it.
pub type Table = Checked<SYMBOL_COUNT, ROW_COUNT>;

/// The table of the language. It meets the five conditions, so that nothing but want of memory stands in the way.
#[tactic(auto, using(crate::proofs::GoodTable::table_fits, crate::proofs::GoodTable::no_fault))]
pub fn language_table(alloc: Global) -> Result<Table, AllocError>
    ensures { IfOk result (λ table. table ≡ grammar_rows) }
{
    let rows = grammar_rows(alloc)?;
    let Some(grammar) = Grammar::<SYMBOL_COUNT, ROW_COUNT>::new(rows) else {
        unreachable!()
    };
    match check_table(alloc, &grammar) {
        Ok(table) => Ok(table),
        Err(CheckFault::Memory(error)) => Err(error),
        Err(CheckFault::Table(_)) => unreachable!(),
    }
}
