//! The two watched literals of a clause.

ghost use Rattle.std.specs.Prelude.{◌≡◌, ◌≢◌, ◌↔◌, false, IsTrue, IfSome, IfNone};
ghost use Rattle.unit_propagation.specs.Watching.{watches, IsOther};

use crate::lit_code::LitCode;
use cnf_core::Lit;

/// Two different literals of a clause, or one twice where none is watched.
#[derive(Clone, Copy, Debug)]
pub struct Pair {
    pub first: LitCode,
    pub second: LitCode,
}

impl Pair {
    /// Whether the two differ.
    pub fn is_watched(&self) -> bool
        ensures { IsTrue result ↔ (self.now.first ≢ self.now.second) }
    {
        self.first != self.second
    }

    /// The other watched literal, where this one is watched.
    pub fn other(self, l: Lit) -> Option<LitCode>
        ensures watched { IfSome result (λ other. IsOther self l other) }
        ensures not_watched { IfNone result (watches self l ≡ false) }
    {
        let Pair { first, second } = self;
        if first == second {
            None
        } else if first.lit() == l {
            Some(second)
        } else if second.lit() == l {
            Some(first)
        } else {
            None
        }
    }
}
