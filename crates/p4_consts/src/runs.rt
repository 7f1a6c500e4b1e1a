//! A row of operators of one level, as far as it has been judged.

use crate::operands::Placed;

/// The value so far; the row goes on where it has an operator already.
#[derive(Drop)]
pub(crate) struct Run {
    pub(crate) left: Placed,
    pub(crate) goes_on: bool,
}
