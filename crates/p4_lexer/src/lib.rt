//! The words of a P4 source: `scan` gives its tokens, each with its place, or the refusal of its deciding fault.
//!
//! `specs/` defines the tokens of a whole source in layers: pieces and places, lines and directives, words, macros,
//! annotations, marks. A function meets each: `piece_at`, `split` (the parts of a text and their fault), `items_of`
//! (macros), `entries_of` (annotations), `marked`; `scan` is these in a row. The other public calls are those of the
//! first layer. `laws` says that a text has tokens in one way, or one refusal, and not both; and that it has either.
#![tactic(auto)]

mod annotations;
mod behind;
mod classes;
mod directives;
mod extents;
mod faults;
mod groups;
pub mod laws;
mod limits;
mod line_extents;
mod lines;
mod macro_table;
mod marks;
mod names;
mod numbers;
mod obey;
mod parts;
mod piece;
mod pieces;
mod places;
mod replacement;
mod replacing;
mod scanning;
mod scope;
mod spellings;
mod split;
mod texts;
mod token;
mod values;

pub use limits::{MAX_WEIGHT, MAX_WORDS};
pub use lines::{lead_len, line_pieces, rest_of_line_len};
pub use piece::{Kind, Piece};
pub use pieces::piece_at;
pub use places::{first_bad_byte, place_behind};
pub use scanning::scan;
pub use spellings::{
    keyword_of, keyword_spelling, reserved_of, reserved_spelling, sign_of, sign_spelling,
};
pub use token::{Keyword, Reserved, Sign, Text, Token, Tokens, Word};
pub use values::literal;
