//! Macros in the place of their names, over the events of a source.
ghost use Rattle.std.specs.Prelude.{◌≡◌, [], List, IfOk, map};
ghost use Rattle.std.specs.List.{All};
ghost use Rattle.p4_lexer.specs.Events.{IsEventIn, IsNextPlace, IsPieceOf};
ghost use Rattle.p4_lexer.specs.Extents.{IsIn, item_at, words_of};
ghost use Rattle.p4_lexer.specs.Replacement.{AreItems, Item as ReplacementItem};
ghost use Rattle.p4_lexer.specs.Stack.{word_of_item};
ghost use Rattle.p4_lexer.specs.Weight.{within};

use crate::extents::{Event, Item};
use crate::limits::MAX_WEIGHT;
use crate::macro_table::MacroTable;
use crate::replacing::Replacing;
use sqlite_items::Items;
use std::alloc::{AllocError, Global};
use tg_base::Span;

/// What comes of a source when names are replaced, up to what it may weigh.
#[derive(Drop)]
pub(crate) struct Replacement {
    pub(crate) items: Items<Item>,
    /// The place of the item behind them, where the limit of weight leaves one out.
    pub(crate) too_heavy: Option<Span>,
}

/// The items of the source whose events these are.
pub(crate) fn items_of(
    alloc: Global,
    text: &[u8],
    events: &[Event],
) -> Result<Replacement, AllocError>
    requires { All (IsEventIn text.now) events.now }
    ensures items { IfOk result (λ r. (all : List ReplacementItem)
        × AreItems (words_of text.now [] events.now) all
        × (map (item_at text.now) r.items ≡ within MAX_WEIGHT all)
        × IsNextPlace all (within MAX_WEIGHT all) r.too_heavy) }
    ensures pieces { IfOk result (λ r.
        All (λ i. IsPieceOf events.now (word_of_item i).piece) r.items) }
    ensures within { IfOk result (λ r.
        All (λ i. IsIn text.now (word_of_item i).piece.extent) r.items) }
{
    let mut table = MacroTable::new(alloc, text);
    let mut replacing = Replacing::new(alloc, MAX_WEIGHT);
    for event in events {
        match event {
            Event::Word(word) => {
                if !replacing.replace(&table, *word)? {
                    return Ok(Replacement {
                        items: replacing.into_items(),
                        too_heavy: Some(word.place),
                    });
                }
            }
            Event::Define(name, pieces) => {
                table.define(*name, pieces.as_slice())?;
                replacing.add_mark()?;
            }
            Event::Undefine(name) => table.undefine(*name),
        }
    }
    Ok(Replacement {
        items: replacing.into_items(),
        too_heavy: None,
    })
}
