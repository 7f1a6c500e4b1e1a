//! A test for formulas that may be solved.

ghost use Rattle.std.specs.Prelude.{◌↔◌, IsTrue, All};
ghost use Rattle.refutation_checker.specs.Derivation.{IsInput};
ghost use Rattle.cnf_core.specs.Determined.{IsDetermined, AreNumbered};

use cnf_core::Clauses;
use refutation_checker::are_inputs;

/// Whether each variable of the clauses is an input, which is enough for `solve`.
pub fn all_are_inputs(clauses: &Clauses, inputs: u32) -> bool
    ensures answer { IsTrue result ↔ All (All (λ l. IsInput inputs l.var)) clauses.now }
    ensures numbered { IsTrue result → AreNumbered clauses.now }
    ensures determined { IsTrue result → IsDetermined inputs clauses.now }
{
    for clause in clauses.as_slice() {
        if !are_inputs(clause.as_slice(), inputs) {
            return false;
        }
    }
    true
}
