//! The line with which a text begins: its pieces, the blanks before its `#`, and where it ends.
ghost use Rattle.std.specs.Prelude.{◌≡◌, ◌↔◌, ◌<◌, ◌++◌, ℕ, List, Contains, IsTrue, IfOk, IfSome, MatchOption, length, take, drop};
ghost use Rattle.p4_lexer.specs.declared.piece.Piece.{Piece};
ghost use Rattle.p4_lexer.specs.Bytes.{hash, line_feed};
ghost use Rattle.p4_lexer.specs.Lengths.{begins_with};
ghost use Rattle.p4_lexer.specs.Lines.{AreFirstLine};
ghost use Rattle.p4_lexer.specs.Parts.{BeginsWithHash, IsRestOfLine};

use crate::classes::{Class, run_len};
use crate::piece::Piece;
use crate::pieces::piece_at;
use sqlite_items::Items;
use std::alloc::{AllocError, Global};

/// The pieces up to the first that holds a line feed, or up to the end of the text.
pub fn line_pieces(alloc: Global, text: &[u8]) -> Result<Items<Piece>, AllocError>
    ensures are { IfOk result (λ pieces. AreFirstLine text.now pieces) }
    ensures only { IfOk result (λ pieces. (others : List Piece) → AreFirstLine text.now others
        → others ≡ pieces) }
{
    let mut pieces = Items::new(alloc);
    let mut at = 0;
    while at < text.len() {
        let piece = piece_at(&text[at..]);
        pieces.push(piece)?;
        if holds_line_feed(&text[at..at + piece.len]) {
            return Ok(pieces);
        }
        at += piece.len;
    }
    Ok(pieces)
}

/// How many blanks stand before the `#` with which the line begins, where it begins with one.
pub fn lead_len(text: &[u8]) -> Option<usize>
    ensures begins { MatchOption result (¬ BeginsWithHash text.now)
        (λ len. (begins : BeginsWithHash text.now) × (length begins.lead ≡ len)) }
    ensures only { IfSome result (λ len. (begins : BeginsWithHash text.now)
        → length begins.lead ≡ len) }
{
    let len = run_len(Class::InLead, text);
    if begins_with_hash(&text[len..]) {
        Some(len)
    } else {
        None
    }
}

/// How many bytes the rest of the line has, with its line feed.
pub fn rest_of_line_len(text: &[u8]) -> usize
    requires { 0 < length text.now }
    ensures rest { IsRestOfLine (take result text.now) (drop result text.now) }
    ensures only { (bytes left : List ℕ) → text.now ≡ bytes ++ left → IsRestOfLine bytes left
        → length bytes ≡ result }
{
    let len = run_len(Class::InLine, text);
    if len < text.len() { len + 1 } else { len }
}

fn holds_line_feed(bytes: &[u8]) -> bool
    ensures { IsTrue result ↔ Contains bytes.now line_feed }
{
    bytes.contains(&b'\n')
}

fn begins_with_hash(text: &[u8]) -> bool
    ensures { result ≡ begins_with hash text.now }
{
    matches!(text, [b'#', ..])
}
