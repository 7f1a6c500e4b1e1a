//! What is wrong with a source, as the passes that check it say.

use tg_base::{Code, Span};

/// The passes that find these faults: declared constants, widths, values of members and sizes of stacks are folded before
/// anything else is checked.
#[derive(Clone, Copy, Debug, PartialEq, Eq)]
pub enum Pass {
    Folding,
    Checking,
}

/// A rule that fails, or a limit that is passed.
#[derive(Clone, Copy, Debug, PartialEq, Eq)]
pub struct Fault {
    pub pass: Pass,
    pub code: Code,
    pub place: Span,
}
