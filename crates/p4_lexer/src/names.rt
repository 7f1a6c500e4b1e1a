//! A set of names.
ghost use Rattle.std.specs.Prelude.{◌≡◌, ℕ, List, ◌||◌, false, OnOk};
ghost use Rattle.std.specs.Str.{bytes_eq};
ghost use Rattle.p4_lexer.specs.Names.{has};

use std::alloc::{AllocError, Global};
use std::collections::BTreeSet;

/// A set of names, by their bytes.
#[derive(Drop)]
pub(crate) struct Names {
    names: BTreeSet<Vec<u8>>,
}

impl Names {
    pub(crate) fn new(alloc: Global) -> Names
        ensures { (name : List ℕ) → has result name ≡ false }
    {
        Names {
            names: BTreeSet::new(alloc),
        }
    }

    pub(crate) fn contains(&self, name: &[u8]) -> bool
        ensures { result ≡ has self.now name.now }
    {
        self.names.contains(name)
    }

    pub(crate) fn insert(&mut self, alloc: Global, name: &[u8]) -> Result<(), AllocError>
        ensures { OnOk result
            ((other : List ℕ)
            → has self.new other ≡ (bytes_eq other name.now || has self.old other)) }
    {
        let owned = Vec::from_slice(alloc, name)?;
        self.names.insert(owned)?;
        Ok(())
    }
}
