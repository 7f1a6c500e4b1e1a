//! Words of a source by their extents, and what each layer of a scan hands to the next.

ghost use Rattle.std.specs.Prelude.{◌≡◌};
ghost use Rattle.p4_lexer.specs.Extents.{IsIn, bytes_at};

use crate::piece::Kind;
use sqlite_items::Items;
use tg_base::{Refusal, Span};

/// Bytes of the source in a row: where the first stands, and how many they are.
#[derive(Clone, Copy)]
pub(crate) struct Extent {
    pub(crate) at: usize,
    pub(crate) len: usize,
}

/// A piece of the source, and the bytes that it has.
#[derive(Clone, Copy)]
pub(crate) struct PieceAt {
    pub(crate) kind: Kind,
    pub(crate) extent: Extent,
}

/// A word of the source with its place, or of a replacement with the place of the name.
#[derive(Clone, Copy)]
pub(crate) struct WordAt {
    pub(crate) piece: PieceAt,
    pub(crate) place: Span,
    pub(crate) replacement: bool,
}

/// What a source has, part by part where parts are taken: words, and changes of the macros.
#[derive(Drop)]
pub(crate) enum Event {
    Word(WordAt),
    /// The name, and the pieces that are put in its place.
    Define(Extent, Items<PieceAt>),
    Undefine(Extent),
}

/// What a source has where parts are taken, and the fault that decides among those of its parts.
#[derive(Drop)]
pub(crate) struct Split {
    pub(crate) events: Items<Event>,
    pub(crate) fault: Option<Refusal>,
}

/// What comes of a source when names are replaced.
#[derive(Clone, Copy)]
pub(crate) enum Item {
    Word(WordAt),
    /// A name that was replaced.
    Replaced(WordAt),
}

/// A token before it is marked.
#[derive(Clone, Copy)]
pub(crate) enum Bare {
    Plain(WordAt),
    /// The text of `@name("text")`, without its quotation marks.
    Named(Extent, Span),
    DefaultOnly(Span),
    TableOnly(Span),
}

/// What is counted.
#[derive(Clone, Copy)]
pub(crate) enum Entry {
    Token(Bare),
    /// A name that was replaced, by its place.
    Name(Span),
}

/// The bytes of an extent.
pub(crate) fn bytes_of(text: &[u8], extent: Extent) -> &[u8]
    requires { IsIn text.now extent }
    ensures { result.now ≡ bytes_at text.now extent }
{
    &text[extent.at..extent.at + extent.len]
}
