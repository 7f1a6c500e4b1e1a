//! The macros in force by their names, and the words that are put in their places.
ghost use Rattle.std.specs.Prelude.{◌≡◌, ◌++◌, ◌∷◌, [], ◌<◌, ◌-◌, ◌^◌, ℕ, None, Some, List, IfOk, OnOk, OnSome, length, slice_get, if◌then◌else◌};
ghost use Rattle.std.specs.List.{filter};
ghost use Rattle.std.specs.Str.{bytes_eq};
ghost use Rattle.p4_lexer.specs.Extents.{IsIn, bytes_at};
ghost use Rattle.p4_lexer.specs.MacroTable.{number_of, words_of_number};
ghost use Rattle.p4_lexer.specs.SourceWords.{is_word};

use crate::extents::{Extent, PieceAt, bytes_of};
use crate::piece::Kind;
use sqlite_items::Items;
use std::alloc::{AllocError, Global};
use std::collections::HashMap;

/// A macro that was defined: its name, and the words that are put in its place.
#[derive(Drop)]
pub(crate) struct Definition {
    pub(crate) name: Extent,
    pub(crate) words: Items<PieceAt>,
}

/// The definitions up to a place of a source, and by their names the numbers of those that are in force.
#[derive(Drop)]
pub(crate) struct MacroTable<'a> {
    alloc: Global,
    text: &'a [u8],
    definitions: Items<Definition>,
    numbers: HashMap<&'a [u8], usize>,
}

impl<'a> MacroTable<'a> {
    /// No macros.
    pub(crate) fn new(alloc: Global, text: &'a [u8]) -> MacroTable<'a>
        ensures text { result.text ≡ text.entry }
        ensures definitions { result.definitions ≡ [] }
        ensures numbers { (q : List ℕ) → number_of result q ≡ None }
    {
        MacroTable {
            alloc,
            text,
            definitions: Items::new(alloc),
            numbers: HashMap::new(alloc),
        }
    }

    /// One more definition, which is in force for its name from here on.
    pub(crate) fn define(&mut self, name: Extent, pieces: &[PieceAt]) -> Result<(), AllocError>
        requires { IsIn self.old.text.now name }
        ensures text { self.new.text ≡ self.old.text }
        ensures definitions { OnOk result (self.new.definitions ≡ self.old.definitions
            ++ record { name = name; words = filter (λ p. is_word p.kind) pieces.now } ∷ []) }
        ensures numbers { OnOk result ((q : List ℕ) → number_of self.new q
            ≡ (if bytes_eq (bytes_at self.old.text.now name) q
            then Some (length self.old.definitions) else number_of self.old q)) }
    {
        let words = words_among(self.alloc, pieces)?;
        let number = self.definitions.len();
        let bytes = bytes_of(self.text, name);
        self.definitions.push(Definition { name, words })?;
        match self.numbers.insert(bytes, number) {
            Ok(_) => Ok(()),
            Err(_) => Err(AllocError),
        }
    }

    /// No definition is in force for the name from here on.
    pub(crate) fn undefine(&mut self, name: Extent)
        requires { IsIn self.old.text.now name }
        ensures text { self.new.text ≡ self.old.text }
        ensures definitions { self.new.definitions ≡ self.old.definitions }
        ensures numbers { (q : List ℕ) → number_of self.new q
            ≡ (if bytes_eq (bytes_at self.old.text.now name) q then None
            else number_of self.old q) }
    {
        let bytes = bytes_of(self.text, name);
        self.numbers.remove(bytes);
    }

    /// The number of the definition that is in force for the name.
    pub(crate) fn number_of(&self, name: Extent) -> Option<usize>
        requires { IsIn self.now.text.now name }
        ensures { result ≡ number_of self.now (bytes_at self.now.text.now name) }
    {
        self.numbers.get(bytes_of(self.text, name)).copied()
    }

    /// This word of the definition of this number.
    pub(crate) fn word(&self, number: usize, at: usize) -> Option<PieceAt>
        ensures word { result ≡ slice_get (words_of_number self.now number) at }
        ensures within { OnSome result (at < 2 ^ 64 - 1) }
    {
        let words = self.words(number);
        if at < words.len() {
            Some(words[at])
        } else {
            None
        }
    }

    /// The words of the definition of this number.
    fn words(&self, number: usize) -> &[PieceAt]
        ensures { result.now ≡ words_of_number self.now number }
    {
        match self.definitions.get(number) {
            Some(definition) => definition.words.as_slice(),
            None => &[],
        }
    }
}

/// The words among the pieces.
fn words_among(alloc: Global, pieces: &[PieceAt]) -> Result<Items<PieceAt>, AllocError>
    ensures { IfOk result (λ words. words ≡ filter (λ p. is_word p.kind) pieces.now) }
{
    let mut words = Items::new(alloc);
    for piece in pieces {
        if is_word(piece.kind) {
            words.push(*piece)?;
        }
    }
    Ok(words)
}

/// Whether pieces of this kind are words.
fn is_word(kind: Kind) -> bool
    ensures { result ≡ is_word kind }
{
    match kind {
        Kind::Name | Kind::Number | Kind::Text | Kind::Sign | Kind::Annotation => true,
        Kind::Blank | Kind::Comment | Kind::OpenComment | Kind::OpenText | Kind::Stray => false,
    }
}
