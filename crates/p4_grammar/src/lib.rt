//! The grammar of the language as a checked table, and what it says of a list of tokens: its one derivation, or the
//! refusal that decides.
//!
//! `specs/Rows.antt` has the rows, by subject. `language_table` gives them as a table of `ll1_engine`; that the table is good
//! is proved, so nothing but want of memory is refused there. `derivation_of` gives the rows of a derivation, or the place
//! of Syntax. `read` gives the tree of `p4_tree`, or the refusal that decides, TooDeep among them: how many forms are open
//! around a token is defined in `specs/Depth.antt`, and counted along the rows of the parse (`depth`). Which tree a derivation
//! has is defined form by form, up to `specs/Sources.antt`. A cursor goes along a derivation (`cursor`), and with it are read
//! names and annotations (`names`), types and expressions (`expressions`, of the parts in `levels` and `operands`), keys
//! (`keys`), statements, parsers, tables, controls and the whole source (`sources`).
//!
//! The module `laws` says what holds of every list of tokens; a proof takes the lemmas from `proofs/DepthLemmas.antt` and
//! `proofs/OneReadingLemmas.antt`.
#![tactic(auto)]

mod controls;
mod cursor;
mod depth;
mod derivation;
mod expressions;
mod keys;
pub mod laws;
mod levels;
mod limits;
mod names;
mod operands;
mod parsers;
mod reading;
mod rows;
mod sources;
mod statements;
pub mod symbols;
mod table;
mod tables;
mod words;

pub use derivation::derivation_of;
pub use limits::MAX_DEPTH;
pub use reading::{read, shallow_derivation_of};
pub use table::{Table, language_table};
pub use words::terminal_of;
