//! Key sets of `select` and of constant entries.

use crate::expressions::SimpleKey;
use sqlite_items::Items;
use tg_base::Span;

/// What a value, or several, are matched with.
#[derive(Drop)]
pub struct KeySet {
    pub kind: KeySetKind,
    pub span: Span,
}

#[derive(Drop)]
pub enum KeySetKind {
    One(SimpleKey),
    /// At least two keys in parentheses.
    Several(Items<SimpleKey>),
}
