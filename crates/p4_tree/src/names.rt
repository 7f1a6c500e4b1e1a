//! Names and annotations.

use sqlite_items::Items;
use tg_base::Span;

/// The bytes of a name or a string.
pub type Text = Items<u8>;

/// A name where it stands, also a keyword that serves as one.
#[derive(Debug, Drop)]
pub struct Name {
    pub text: Text,
    pub span: Span,
}

/// What stands before a declaration, a statement or a part of one, or behind a key or an entry.
#[derive(Debug, Drop)]
pub struct Annotation {
    pub kind: AnnotationKind,
    pub span: Span,
}

#[derive(Debug, Drop)]
pub enum AnnotationKind {
    /// `@name("text")`.
    Named(Text),
    DefaultOnly,
    TableOnly,
}
