//! Tables.
ghost use Rattle.std.specs.Prelude.{◌≡◌};
ghost use Rattle.std.specs.List.{list_any};
ghost use Rattle.p4_program.specs.Syntax.Lookup.{is_ternary};

use crate::typed::expressions::Expression;
use crate::typed::types::Text;
use bits_core::{Bits, BitsList};
use sqlite_items::Items;

/// How a key is matched.
#[derive(Clone, Copy, Debug, PartialEq, Eq)]
pub enum MatchKind {
    Exact,
    Lpm,
    Ternary,
}

/// What one key is matched with.
#[derive(Clone, Copy, Debug, PartialEq, Eq)]
pub enum Pattern {
    /// This value.
    Exact(Bits),
    /// The first bits of this value, of which there are so many.
    Prefix(Bits, u8),
    /// A value, and the mask of the bits that are compared.
    Masked(Bits, Bits),
}

/// A key of a table, and its name in tests.
#[derive(Drop)]
pub struct TableKey {
    pub value: Expression,
    pub match_kind: MatchKind,
    pub width: u8,
    pub name: Text,
}

/// An action that a table lists, by its number among the callables.
#[derive(Clone, Copy, Debug, PartialEq, Eq)]
pub struct ListedAction {
    pub action: u32,
    /// `@defaultonly` stands before it, so no entry names it.
    pub default_only: bool,
}

/// An entry that the program has, with the place of its action in the list.
#[derive(Debug, Drop)]
pub struct ConstantEntry {
    pub keys: Items<Pattern>,
    pub action: u32,
    pub arguments: BitsList,
}

/// A table of a control.
#[derive(Drop)]
pub struct Table {
    pub keys: Items<TableKey>,
    pub actions: Items<ListedAction>,
    /// The action without a match, by its number among the callables, and its arguments.
    pub default_action: u32,
    pub default_arguments: BitsList,
    /// The constant entries, where the table has them.
    pub entries: Option<Items<ConstantEntry>>,
}

impl MatchKind {
    ghost use Rattle.std.specs.Prelude.{◌≡◌};
    ghost use Rattle.p4_program.specs.Syntax.Lookup.{is_ternary};

    pub fn is_ternary(self) -> bool
        ensures { result ≡ is_ternary self }
    {
        matches!(self, MatchKind::Ternary)
    }
}

impl Table {
    ghost use Rattle.std.specs.Prelude.{◌≡◌};
    ghost use Rattle.p4_program.specs.Syntax.Lookup.{is_ordered};
    ghost use Rattle.p4_program.specs.Trees.Callables.{table_of};

    /// Whether a key is ternary, so that priorities decide.
    #[tactic(auto, using(crate::proofs::EntryLemmas::ordered_keys))]
    pub fn is_ordered(&self) -> bool
        ensures { result ≡ is_ordered (table_of self.now) }
    {
        has_ternary(self.keys.as_slice())
    }
}

fn has_ternary(keys: &[TableKey]) -> bool
    ensures { result ≡ list_any (λ k. is_ternary k.match_kind) keys.now }
{
    keys.iter().any(|key| key.match_kind.is_ternary())
}
