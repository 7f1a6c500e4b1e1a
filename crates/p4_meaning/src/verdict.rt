//! What is said of a statement.
ghost use Rattle.std.specs.Prelude.{Some};
ghost use Rattle.p4_meaning.specs.VerdictText.{verdict_text};

use std::fmt;

/// What is said of a statement.
#[derive(Clone, Copy, Debug, PartialEq, Eq)]
pub enum Verdict {
    /// The input of the test of this number is good for it.
    Covered(u32),
    /// No run of a bounded input runs it.
    Unreachable,
    /// Some run runs it, and no bounded input is good for it.
    Unsteady,
    /// Its budget was spent; nothing is said.
    Undecided,
}

impl fmt::Display for Verdict {
    ghost output = { λ verdict. Some (verdict_text verdict) };

    fn fmt<W: fmt::Write>(&self, f: &mut fmt::Formatter<W>) -> fmt::Result {
        match self {
            Verdict::Covered(test) => write!(f, "covered {test}"),
            Verdict::Unreachable => write!(f, "unreachable"),
            Verdict::Unsteady => write!(f, "unsteady"),
            Verdict::Undecided => write!(f, "undecided"),
        }
    }
}
