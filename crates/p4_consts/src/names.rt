//! The names of one scope, found by their bytes.
ghost use Rattle.std.specs.Prelude.{◌≡◌, [], ◌∷◌, ◌++◌, length, slice_get, position, is_some, if◌then◌else◌, ◌<◌, ◌^◌, IfSome, OnOk, OnErr};
ghost use Rattle.std.specs.Map.{lookup};
ghost use Rattle.std.specs.Option.{option_map, option_copied};
ghost use Rattle.std.specs.Str.{bytes_eq};

use indexmap::IndexMap;
use std::alloc::{AllocError, Global};
use std::marker::Model;

/// Names in the order in which they were declared, each with what it stands for. None stands twice.
#[derive(Drop)]
pub struct Names<V> {
    entries: IndexMap<Vec<u8>, V>,
}

impl<V> Model for Names<V> {
    ghost use Rattle.std.specs.Prelude.{ℕ, List, map, length, ◌<◌, ◌^◌};

    ghost Value = { List (List ℕ × V) };

    ghost view = { λ n. map (λ e. (e.0.items, e.1)) n.entries.entries };

    ghost invariant = { λ n. length n.entries.entries < 2 ^ 32 };
}

impl<V> Names<V> {
    /// No names.
    pub fn new(alloc: Global) -> Self
        ensures { result ≡ [] }
    {
        Names {
            entries: IndexMap::new(alloc),
        }
    }

    /// How many names there are.
    pub fn len(&self) -> u32
        ensures { result ≡ length self.now }
    {
        self.entries.len() as u32
    }

    /// What a name stands for.
    pub fn find(&self, name: &[u8]) -> Option<&V>
        ensures { option_copied result ≡ lookup (λ other. bytes_eq other name.now) self.now }
    {
        self.entries.get(name)
    }

    /// The place of a name.
    pub fn position(&self, name: &[u8]) -> Option<u32>
        ensures { result ≡ position (λ e. bytes_eq e.0 name.now) self.now }
    {
        let place = self.place(name)?;
        Some(place as u32)
    }

    /// The place of a name among the entries.
    fn place(&self, name: &[u8]) -> Option<usize>
        ensures place { result ≡ position (λ e. bytes_eq e.0 name.now) self.now }
        ensures small { IfSome result (λ i. i < 2 ^ 32) }
    {
        self.entries.get_index_of(name)
    }

    /// What the name at a place stands for.
    pub fn at(&self, place: u32) -> Option<&V>
        ensures { option_copied result ≡ option_map (λ e. e.1) (slice_get self.now place) }
    {
        let (_, value) = self.entries.get_index(place as usize)?;
        Some(value)
    }
}

impl<V: Drop> Names<V> {
    /// One more name at the end. A name that is there already keeps what it stands for.
    pub fn declare(&mut self, alloc: Global, name: &[u8], value: V) -> Result<(), AllocError>
        ensures ok { OnOk result (self.new
            ≡ (if is_some (lookup (λ other. bytes_eq other name.now) self.old)
            then self.old else self.old ++ (name.now, value) ∷ [])) }
        ensures err { OnErr result (self.new ≡ self.old) }
    {
        if self.entries.contains_key(name) {
            return Ok(());
        }
        if self.entries.len() >= u32::MAX as usize {
            return Err(AllocError);
        }
        let key = Vec::from_slice(alloc, name)?;
        self.entries.insert(key, value)?;
        Ok(())
    }
}
