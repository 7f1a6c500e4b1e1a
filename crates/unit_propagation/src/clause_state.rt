//! What a clause says under an assignment: that it is false, that it sets one literal, or nothing.

ghost use Rattle.std.specs.Prelude.{◌∷◌, ◌<◌, []};
ghost use Rattle.unit_propagation.specs.ClauseStates.{IsState, SaysWith};
ghost use Rattle.unit_propagation.specs.Units.{IsWithin};

use crate::assignment::{Assignment, Truth};
use crate::lit_code::LitCode;
use cnf_core::Lit;

/// What a clause says under an assignment.
#[derive(Clone, Copy, Debug)]
pub enum ClauseState {
    /// Each literal is false.
    Falsified,
    /// Each literal but this one is false, and this one is open.
    Unit(Lit),
    /// A literal is true, or two are open.
    Other,
}

impl ClauseState {
    pub fn of(clause: &[LitCode], assignment: &Assignment) -> ClauseState
        requires { IsWithin assignment.now.width clause.now }
        ensures { IsState assignment.now.trail clause.now result }
    {
        let mut state = ClauseState::Falsified;
        for l in clause {
            state = state.with(l.lit(), assignment);
            if let ClauseState::Other = state {
                return ClauseState::Other;
            }
        }
        state
    }

    /// With one literal more.
    fn with(self, l: Lit, assignment: &Assignment) -> ClauseState
        requires { l.var < assignment.now.width }
        ensures { SaysWith assignment.now.trail self (l ∷ []) result }
    {
        match assignment.value(l) {
            Truth::False => self,
            Truth::True => ClauseState::Other,
            Truth::Open => match self {
                ClauseState::Falsified => ClauseState::Unit(l),
                ClauseState::Unit(k) => if k == l { self } else { ClauseState::Other },
                ClauseState::Other => self,
            },
        }
    }
}
