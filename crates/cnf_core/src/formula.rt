//! Literals, clauses and formulas, and the truth of a clause under a valuation.

ghost use Rattle.std.specs.Prelude.{◌≡◌, ◌↔◌, IsTrue};
ghost use Rattle.cnf_core.specs.Literal.{negation};
ghost use Rattle.cnf_core.specs.Truth.{HasVariables, Satisfies};

use sqlite_items::Items;
use std::ops::Not;

/// A variable, by its number from 1, or its negation where `positive` is false.
#[derive(Clone, Copy, Debug, PartialEq, Eq, PartialOrd, Ord, Hash)]
pub struct Lit {
    pub var: u32,
    pub positive: bool,
}

/// The literal of the same variable and the other sign.
impl Not for Lit {
    type Output = Lit;

    ghost not_gives = { λ l result. result ≡ negation l };

    fn not(self) -> Lit {
        Lit {
            var: self.var,
            positive: !self.positive,
        }
    }
}

/// A disjunction of literals; the empty clause is false.
pub type Clause = Items<Lit>;

/// A conjunction of clauses, which are numbered from 1.
pub type Clauses = Items<Clause>;

/// A truth value for each variable: that of variable `n` stands at place `n - 1`.
pub type Valuation = Items<bool>;

/// Whether some literal of the clause is true.
pub fn holds(c: &Clause, v: &Valuation) -> bool
    requires { HasVariables v.now c.now }
    ensures { IsTrue result ↔ Satisfies v.now c.now }
{
    let truths = v.as_slice();
    c.as_slice()
        .iter()
        .any(|l| truths[l.var as usize - 1] == l.positive)
}
