//! The lines of a record, as they are written and read.

use crate::hex_value::Values;
use crate::record::{End, Kind, Truths};
use cnf_core::{Clause, Derived, Var};

/// One line of a record.
#[derive(Debug, Drop)]
pub(crate) enum Line {
    /// What is asked.
    Head(Kind),
    /// The bits of the fixed input.
    At(Truths),
    Var(Var),
    Clause(Clause),
    Derived(Derived),
    End(End),
    /// The statement whose claim an input breaks.
    Broken(u32),
    /// The reads under which the statement is executed.
    Runs(Values),
    /// The reads under which it is not.
    Breaks(Values),
}
