//! Tables and their properties.

use crate::expressions::Expression;
use crate::keys::KeySet;
use crate::names::{Annotation, Name};
use sqlite_items::Items;
use tg_base::Span;

#[derive(Drop)]
pub struct Table {
    pub name: Name,
    pub properties: Items<Property>,
    pub span: Span,
}

#[derive(Drop)]
pub struct Property {
    pub annotations: Items<Annotation>,
    pub kind: PropertyKind,
    pub span: Span,
}

#[derive(Drop)]
pub enum PropertyKind {
    Key(Items<TableKey>),
    Actions(Items<ListedAction>),
    /// Whether `const` stands before it, and the entries.
    Entries(bool, Items<Entry>),
    /// Whether `const` stands before it, the property's name, and its value.
    Named(bool, Name, Expression),
}

/// What a table matches, and how.
#[derive(Drop)]
pub struct TableKey {
    pub value: Expression,
    pub match_kind: Name,
    pub annotations: Items<Annotation>,
    pub span: Span,
}

/// An action that a table may take, with or without `()` behind it.
#[derive(Drop)]
pub struct ListedAction {
    pub annotations: Items<Annotation>,
    pub name: Name,
    pub has_parentheses: bool,
    pub span: Span,
}

/// `keys : action annotations;`.
#[derive(Drop)]
pub struct Entry {
    pub key_set: KeySet,
    pub action: Expression,
    pub annotations: Items<Annotation>,
    pub span: Span,
}
