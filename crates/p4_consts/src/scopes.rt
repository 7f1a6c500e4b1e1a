//! What is known where a part of a source stands.

use crate::meanings::Meaning;
use crate::names::Names;
use crate::numbered::Numbered;
use p4_rules::{Allowed, Fault, Here, ParameterShape, SourceType};
use sqlite_items::Items;

/// The length of the longest chain of calls below a callable, and below a table and an instance of the control, by their
/// numbers.
#[derive(Drop)]
pub struct Depths {
    pub callables: Numbered<u32>,
    pub tables: Numbered<u32>,
    pub children: Numbered<u32>,
}

/// What is known where a part of a source stands.
#[derive(Drop)]
pub struct Scope {
    /// The fields of structs and of headers so far, by their numbers.
    pub structs: Vec<Names<SourceType>>,
    pub headers: Vec<Names<SourceType>>,
    /// The members of enumerations with their values, by their numbers.
    pub enumerations: Vec<Names<Meaning>>,
    /// The errors so far, and how many the whole source has.
    pub errors: Names<()>,
    pub error_count: u32,
    /// The names at the top, and those of the scopes within, the outermost first.
    pub top: Names<Result<Meaning, Fault>>,
    pub inner: Vec<Names<Result<Meaning, Fault>>>,
    /// The parameters of actions, parsers and controls, by their numbers among the callables.
    pub shapes: Numbered<Items<ParameterShape>>,
    /// The actions that each table of the control lists, with their numbers.
    pub table_actions: Vec<Names<u32>>,
    pub depths: Depths,
    pub here: Here,
    pub allowed: Allowed,
    /// The number of the next statement, the place of the next variable, the number of the next callable, and those of the
    /// next table and instance of the control.
    pub statement: u32,
    pub variable: u32,
    pub callable: u32,
    pub table: u32,
    pub child: u32,
}
