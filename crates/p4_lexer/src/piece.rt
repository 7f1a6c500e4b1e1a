//! Pieces of a text: words, blanks and comments, and what is none of them.

/// What a piece of the text is.
#[derive(Clone, Copy, Debug, PartialEq, Eq)]
pub enum Kind {
    /// One space, tab, carriage return or line feed.
    Blank,
    Comment,
    /// A name, a keyword or a reserved word.
    Name,
    /// A number, with its prefix.
    Number,
    /// A string between quotation marks.
    Text,
    Sign,
    /// `@` and the name that directly follows it.
    Annotation,
    /// A comment that goes on to the end of the text.
    OpenComment,
    /// A string that is not ended where its line or the text ends.
    OpenText,
    /// One byte at which nothing else begins.
    Stray,
}

/// A piece at the start of a text: what it is, and how many bytes it has.
#[derive(Clone, Copy, Debug, PartialEq, Eq)]
pub struct Piece {
    pub kind: Kind,
    pub len: usize,
}
