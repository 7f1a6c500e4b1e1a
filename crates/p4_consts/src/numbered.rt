//! What has a number, found by it.
ghost use Rattle.std.specs.Prelude.{◌≡◌, ◌==◌, [], ◌∷◌, OnOk, OnErr};
ghost use Rattle.std.specs.Map.{lookup};
ghost use Rattle.std.specs.Option.{option_copied};

use indexmap::IndexMap;
use std::alloc::{AllocError, Global};
use std::marker::Model;

/// Values by numbers, the newest first: of a number that stands twice the newest is found.
#[derive(Drop)]
pub struct Numbered<V> {
    entries: Vec<(u32, V)>,
    latest: IndexMap<u32, usize>,
}

impl<V> Model for Numbered<V> {
    ghost use Rattle.std.specs.Prelude.{ℕ, List, reverse, nat_eq};
    ghost use Rattle.indexmap.specs.IndexMap.{get};

    ghost Value = { List (ℕ × V) };

    ghost use Rattle.p4_consts.specs.Numbered.{IsLatest};

    ghost view = { λ n. reverse n.entries.items };

    ghost invariant = { λ n. (k : ℕ) → IsLatest n.entries.items k (get nat_eq n.latest k) };
}

impl<V> Numbered<V> {
    /// Nothing.
    pub fn new(alloc: Global) -> Self
        ensures { result ≡ [] }
    {
        Numbered {
            entries: Vec::new(alloc),
            latest: IndexMap::new(alloc),
        }
    }

    /// What has this number.
    pub fn find(&self, number: u32) -> Option<&V>
        ensures { option_copied result ≡ lookup (λ m. m == number) self.now }
    {
        let place = *self.latest.get(&number)?;
        let (_, value) = self.entries.get(place)?;
        Some(value)
    }
}

impl<V: Drop> Numbered<V> {
    /// Gives a number a value, before what it had.
    pub fn add(&mut self, number: u32, value: V) -> Result<(), AllocError>
        ensures ok { OnOk result (self.new ≡ (number, value) ∷ self.old) }
        ensures err { OnErr result (self.new ≡ self.old) }
    {
        let place = self.entries.len();
        self.entries.push((number, value))?;
        match self.latest.insert(number, place) {
            Ok(_) => Ok(()),
            Err(_) => {
                self.entries.pop();
                Err(AllocError)
            }
        }
    }
}
