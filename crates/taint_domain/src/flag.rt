//! Truth values that a run may change.
ghost use Rattle.std.specs.Prelude.{◌≡◌, IsTrue, ◌↔◌, ◌&&◌, ◌||◌, not, false};

/// The truth in the run whose unspecified reads all give 0, and whether it may be another in some run.
#[derive(Clone, Copy, Debug, PartialEq, Eq)]
pub struct TaintFlag {
    pub truth: bool,
    pub may_differ: bool,
}

impl TaintFlag {
    ghost use Rattle.taint_domain.specs.Results.{CombinationOf};

    /// The truth value that is the same in each run.
    pub(crate) fn fixed(truth: bool) -> TaintFlag
        ensures truth { result.truth ≡ truth }
        ensures known { result.may_differ ≡ false }
    {
        TaintFlag {
            truth,
            may_differ: false,
        }
    }

    /// Whether the flag is the same in each run.
    pub fn is_known(&self) -> bool
        ensures { result ≡ not self.now.may_differ }
    {
        !self.may_differ
    }

    pub(crate) fn and(self, other: TaintFlag) -> TaintFlag
        ensures truth { result.truth ≡ (self.truth && other.truth) }
        ensures unknown { IsTrue result.may_differ
            ↔ CombinationOf (λ s t. s && t) self other (not result.truth) }
    {
        let settled = |f: TaintFlag| !f.truth && !f.may_differ;
        TaintFlag {
            truth: self.truth && other.truth,
            may_differ: (self.may_differ || other.may_differ) && !settled(self) && !settled(other),
        }
    }

    /// One of two flags holds unless neither does.
    pub(crate) fn or(self, other: TaintFlag) -> TaintFlag
        ensures truth { result.truth ≡ (self.truth || other.truth) }
        ensures unknown { IsTrue result.may_differ
            ↔ CombinationOf (λ s t. s || t) self other (not result.truth) }
    {
        self.opposite().and(other.opposite()).opposite()
    }

    pub(crate) fn opposite(self) -> TaintFlag
        ensures truth { result.truth ≡ not self.truth }
        ensures unknown { result.may_differ ≡ self.may_differ }
    {
        TaintFlag {
            truth: !self.truth,
            may_differ: self.may_differ,
        }
    }
}
