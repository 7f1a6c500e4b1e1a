//! The terms that questions share.
ghost use Rattle.std.specs.Prelude.{◌≡◌, []};

use std::alloc::Global;
use symbolic_domain::SymbolicDomain;
use term_dag::Dag;

/// What several questions are asked over. After a call that came to want of memory it is given up.
#[derive(Drop)]
pub struct Base {
    pub domain: SymbolicDomain,
}

impl Base {
    /// A base of no terms.
    pub fn new(alloc: Global) -> Base
        ensures { result.domain.dag ≡ [] }
    {
        Base {
            domain: SymbolicDomain::new(Dag::new(alloc)),
        }
    }
}
