//! What the items of a source leave when annotations are read: tokens before marking, and names that are counted.
ghost use Rattle.std.specs.Prelude.{◌≡◌, ◌≢◌, ◌↔◌, ◌++◌, ◌∷◌, [], ◌<◌, ℕ, List, IsTrue, IfOk, OnOk, MatchOption, None, map, slice_index_or};
ghost use Rattle.std.specs.List.{All};
ghost use Rattle.std.specs.Option.{unwrap_or};
ghost use Rattle.p4_lexer.specs.Bytes.{quotation_mark};
ghost use Rattle.p4_lexer.specs.Annotations.{IsString, Leaves, words_among};
ghost use Rattle.p4_lexer.specs.Extents.{IsIn, bytes_at, placed_at, item_at, entry_at};
ghost use Rattle.p4_lexer.specs.Groups.{IsSort, IsItemIn};
ghost use Rattle.p4_lexer.specs.Entries.{words_in, names_in, IsEntryIn, IsWordOf, HoldsString, AddsNamed, Adds};

use crate::extents::{Bare, Entry, Extent, Item, WordAt, bytes_of};
use crate::groups::group_ends;
use crate::piece::Kind;
use sqlite_items::Items;
use std::alloc::{AllocError, Global};
use tg_base::Span;

/// What a word is where annotations are read.
#[derive(Clone, Copy)]
pub(crate) enum Sort {
    /// No annotation.
    Plain,
    /// `@name`.
    AtName,
    DefaultOnly,
    TableOnly,
    /// Any other annotation.
    Other,
}

/// What the items leave: a token for each word that is no annotation and for each annotation that is one, and the
/// names that were replaced.
pub(crate) fn entries_of(
    alloc: Global,
    text: &[u8],
    items: &[Item],
) -> Result<Items<Entry>, AllocError>
    requires { All (IsItemIn text.now) items.now }
    ensures leaves { IfOk result (λ entries. Leaves (map (item_at text.now) items.now)
        (map (entry_at text.now) entries)) }
    ensures in_text { IfOk result (λ entries. All (IsEntryIn text.now) entries) }
    ensures words { IfOk result (λ entries. All (IsWordOf items.now) entries) }
{
    let ends = group_ends(alloc, text, items)?;
    let mut entries = Items::new(alloc);
    let mut at = 0;
    while at < items.len() {
        match items[at] {
            Item::Replaced(name) => {
                entries.push(Entry::Name(name.place))?;
                at += 1;
            }
            Item::Word(word) => {
                let end = end_of(ends.as_slice(), at + 1);
                at += 1 + push_word(alloc, text, word, &items[at + 1..end], &mut entries)?;
            }
        }
    }
    Ok(entries)
}

/// Where the group at an index ends, and the index itself where none is.
fn end_of(ends: &[Option<usize>], at: usize) -> usize
    ensures { result ≡ unwrap_or (slice_index_or ends.now at None) at }
{
    match ends.get(at) {
        Some(Some(end)) => *end,
        _ => at,
    }
}

/// Adds what a word leaves, and says how many items of the group behind it are taken with it.
fn push_word(
    alloc: Global,
    text: &[u8],
    word: WordAt,
    group: &[Item],
    entries: &mut Items<Entry>,
) -> Result<usize, AllocError>
    requires word { IsIn text.now word.piece.extent }
    requires group { All (IsItemIn text.now) group.now }
    ensures { IfOk result (λ taken. Adds text.now word group.now taken entries.old entries.new) }
{
    match sort_of(text, word) {
        Sort::Plain => {
            entries.push(Entry::Token(Bare::Plain(word)))?;
            Ok(0)
        }
        Sort::DefaultOnly => {
            entries.push(Entry::Token(Bare::DefaultOnly(word.place)))?;
            Ok(0)
        }
        Sort::TableOnly => {
            entries.push(Entry::Token(Bare::TableOnly(word.place)))?;
            Ok(0)
        }
        Sort::AtName => {
            push_named(alloc, text, word.place, group, entries)?;
            Ok(group.len())
        }
        Sort::Other => {
            push_names(group, entries)?;
            Ok(group.len())
        }
    }
}

/// Adds `@name` at a place and the group behind it.
fn push_named(
    alloc: Global,
    text: &[u8],
    place: Span,
    group: &[Item],
    entries: &mut Items<Entry>,
) -> Result<(), AllocError>
    requires { All (IsItemIn text.now) group.now }
    ensures { OnOk result (AddsNamed text.now place group.now entries.old entries.new) }
{
    let Some(string) = string_in(alloc, text, group)? else {
        return push_names(group, entries);
    };
    entries.push(Entry::Token(Bare::Named(string, place)))?;
    push_names(group, entries)
}

/// The text of the string that stands alone between the first word and the last.
fn string_in(alloc: Global, text: &[u8], group: &[Item]) -> Result<Option<Extent>, AllocError>
    requires { All (IsItemIn text.now) group.now }
    ensures { let words = words_among (map (item_at text.now) group.now) in
        IfOk result (λ string. MatchOption string ((t : List ℕ) → HoldsString words t → ⊥)
        (λ e. IsIn text.now e × HoldsString words (bytes_at text.now e))) }
{
    let words = words_in(alloc, group)?;
    match words.as_slice() {
        [_, word, _] => Ok(text_of(text, *word)),
        _ => Ok(None),
    }
}

fn sort_of(text: &[u8], word: WordAt) -> Sort
    requires { IsIn text.now word.piece.extent }
    ensures { IsSort result (placed_at text.now word) }
{
    if word.piece.kind != Kind::Annotation {
        return Sort::Plain;
    }
    match bytes_of(text, word.piece.extent) {
        b"@name" => Sort::AtName,
        b"@defaultonly" => Sort::DefaultOnly,
        b"@tableonly" => Sort::TableOnly,
        _ => Sort::Other,
    }
}

/// The text of a string, without its quotation marks.
fn text_of(text: &[u8], word: WordAt) -> Option<Extent>
    requires { IsIn text.now word.piece.extent }
    ensures { MatchOption result ((t : List ℕ) → IsString (placed_at text.now word ∷ []) t → ⊥)
        (λ e. IsIn text.now e × IsString (placed_at text.now word ∷ []) (bytes_at text.now e)) }
{
    let extent = word.piece.extent;
    if word.piece.kind == Kind::Text && is_quoted(bytes_of(text, extent)) {
        Some(Extent {
            at: extent.at + 1,
            len: extent.len - 2,
        })
    } else {
        None
    }
}

fn is_quoted(bytes: &[u8]) -> bool
    ensures { IsTrue result
        ↔ ((t : List ℕ) × (bytes.now ≡ quotation_mark ∷ t ++ quotation_mark ∷ [])) }
{
    matches!(bytes, [b'"', .., b'"'])
}

fn words_in(alloc: Global, items: &[Item]) -> Result<Items<WordAt>, AllocError>
    ensures { IfOk result (λ words. words ≡ words_in items.now) }
{
    let mut words = Items::new(alloc);
    for item in items {
        if let Item::Word(word) = item {
            words.push(*word)?;
        }
    }
    Ok(words)
}

fn push_names(items: &[Item], entries: &mut Items<Entry>) -> Result<(), AllocError>
    ensures { OnOk result (entries.new ≡ entries.old ++ names_in items.now) }
{
    for item in items {
        if let Item::Replaced(name) = item {
            entries.push(Entry::Name(name.place))?;
        }
    }
    Ok(())
}
