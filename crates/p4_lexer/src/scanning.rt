//! The scan of a whole source, layer by layer.
ghost use Rattle.std.specs.Prelude.{◌≡◌, ◌-◌, ◌<◌, ◌^◌, Err, ℕ, List, IfOk, IfErr, OnOk, [], ◌∷◌, ◌++◌, length, map};
ghost use Rattle.tg_base.specs.declared.fault.Fault.{Fault};
ghost use Rattle.tg_base.specs.declared.place.Refusal.{Refusal};
ghost use Rattle.p4_lexer.specs.declared.limits.TheConstants.{MAX_WEIGHT};
ghost use Rattle.p4_lexer.specs.Replacement.{Item as ItemOf};
ghost use Rattle.p4_lexer.specs.Weight.{within};
ghost use Rattle.p4_lexer.specs.Events.{IsNextPlace};
ghost use Rattle.p4_lexer.specs.Extents.{entry_at};
ghost use Rattle.p4_lexer.specs.Tokens.{HasTokens, IsRefused, IsPastCount, IsPastWeight, entry_place};
ghost use Rattle.p4_lexer.specs.Scanning.{IsFirstOf, IsUnmarked, tokens_in};

use crate::annotations::entries_of;
use crate::extents::{Bare, Entry};
use crate::faults::{first_of, refusal_at};
use crate::limits::MAX_WORDS;
use crate::marks::marked;
use crate::places::place_behind;
use crate::replacement::items_of;
use crate::split::split;
use crate::token::Tokens;
use sqlite_items::Items;
use std::alloc::{AllocError, Global};
use tg_base::{Code, Fault, Refusal, Span};

/// The place of a text's first byte.
const START: Span = Span { line: 1, column: 1 };

/// A text read through all layers but the marks.
#[derive(Drop)]
struct Unmarked {
    bare: Items<Bare>,
    fault: Option<Refusal>,
}

/// The tokens of a text, or the fault that decides.
pub fn scan(alloc: Global, text: &[u8]) -> Result<Tokens, Fault>
    requires { length text.now < 2 ^ 32 - 1 }
    ensures tokens { IfOk result (HasTokens text.now) }
    ensures refused { (refusal : Refusal) → result ≡ Err (Fault.Refused refusal)
        → IsRefused text.now refusal }
{
    match tokens_or_refusal(alloc, text) {
        Ok(Ok(tokens)) => Ok(tokens),
        Ok(Err(refusal)) => Err(Fault::Refused(refusal)),
        Err(fault) => Err(Fault::Memory(fault)),
    }
}

fn tokens_or_refusal(alloc: Global, text: &[u8]) -> Result<Result<Tokens, Refusal>, AllocError>
    requires { length text.now < 2 ^ 32 - 1 }
    ensures tokens { IfOk result (λ read. IfOk read (HasTokens text.now)) }
    ensures refused { IfOk result (λ read. IfErr read (IsRefused text.now)) }
{
    let unmarked = read_unmarked(alloc, text)?;
    match unmarked.fault {
        Some(refusal) => Ok(Err(refusal)),
        None => Ok(Ok(Tokens {
            tokens: marked(alloc, text, unmarked.bare.as_slice())?,
            end: place_behind(START, text),
        })),
    }
}

/// The text read through all layers but the marks.
fn read_unmarked(alloc: Global, text: &[u8]) -> Result<Unmarked, AllocError>
    requires { length text.now < 2 ^ 32 - 1 }
    ensures { IfOk result (λ u. IsUnmarked text.now u.bare u.fault) }
{
    let split = split(alloc, text)?;
    let replacement = items_of(alloc, text, split.events.as_slice())?;
    let entries = entries_of(alloc, text, replacement.items.as_slice())?;
    let limit = first_of(
        past_count(entries.as_slice()),
        past_weight(replacement.too_heavy),
    );
    Ok(Unmarked {
        bare: tokens_among(alloc, entries.as_slice())?,
        fault: first_of(split.fault, limit),
    })
}

/// The tokens among what is counted.
fn tokens_among(alloc: Global, entries: &[Entry]) -> Result<Items<Bare>, AllocError>
    ensures { IfOk result (λ bare. bare ≡ tokens_in entries.now) }
{
    let mut bare = Items::new(alloc);
    for entry in entries {
        push_token(&mut bare, *entry)?;
    }
    Ok(bare)
}

/// Adds the token, if this is one.
fn push_token(bare: &mut Items<Bare>, entry: Entry) -> Result<(), AllocError>
    ensures { OnOk result (bare.new ≡ bare.old ++ tokens_in (entry ∷ [])) }
{
    match entry {
        Entry::Token(token) => bare.push(token),
        Entry::Name(_) => Ok(()),
    }
}

/// The fault of one token or replaced name too many.
fn past_count(entries: &[Entry]) -> Option<Refusal>
    ensures { (text : List ℕ) → IsFirstOf (IsPastCount (map (entry_at text) entries.now)) result }
{
    if entries.len() <= MAX_WORDS {
        return None;
    }
    Some(refusal_at(Code::Limit, place_of(&entries[MAX_WORDS])))
}

fn place_of(entry: &Entry) -> Span
    ensures { (text : List ℕ) → result ≡ entry_place (entry_at text entry.now) }
{
    match entry {
        Entry::Token(Bare::Plain(word)) => word.place,
        Entry::Token(Bare::Named(_, place) | Bare::DefaultOnly(place) | Bare::TableOnly(place))
        | Entry::Name(place) => *place,
    }
}

/// The fault of the word that is too heavy.
fn past_weight(too_heavy: Option<Span>) -> Option<Refusal>
    ensures { (all : List ItemOf) → IsNextPlace all (within MAX_WEIGHT all) too_heavy
        → IsFirstOf (IsPastWeight all) result }
{
    match too_heavy {
        Some(place) => Some(refusal_at(Code::Limit, place)),
        None => None,
    }
}
