//! What holds of the definitions, the contract of a function that does nothing. A proof above may cite the lemmas of
//! `PropagationLaws`, `ApartLaws` and `ExtendsLaws`.
ghost use Rattle.std.specs.Prelude.{Bool, List, All};
ghost use Rattle.cnf_core.specs.Truth.{IsTrueUnder, SatisfiesAll};
ghost use Rattle.unit_propagation.specs.Propagation.{Propagation, IsSatisfiedIfTotal};
ghost use Rattle.unit_propagation.specs.Propagated.{IsTotal};

/// Where propagation met no false clause and each variable of the clauses is set, a valuation that makes the literals of
/// the trail true satisfies the clauses.
pub fn a_total_trail_satisfies()
    ensures { (p : Propagation) (valuation : List Bool) → IsSatisfiedIfTotal p
        → IsTotal p.clauses p.trail → All (IsTrueUnder valuation) p.trail
        → SatisfiesAll valuation p.clauses }
{}
