//! The piece at the start of a text.
ghost use Rattle.std.specs.Prelude.{◌≡◌, ◌<◌, ◌≤◌, ◌+◌, ◌-◌, ◌^◌, ℕ, length};
ghost use Rattle.p4_lexer.specs.declared.piece.Kind.{Kind};
ghost use Rattle.p4_lexer.specs.Pieces.{Begins};
ghost use Rattle.p4_lexer.specs.Lengths.{quoted, slashed, annotated, piece_or, closed, close_at, piece_of};

use crate::classes::{Class, Head, head_of, run_len};
use crate::numbers::number_len;
use crate::piece::{Kind, Piece};
use crate::texts::{characters_len, close_at, name_len, sign_len};

/// The piece at the start of the text: of the words, blanks and comments that begin there, the longest.
pub fn piece_at(text: &[u8]) -> Piece
    requires { 0 < length text.now }
    ensures begins { Begins text.now result.kind result.len }
    ensures only { (kind : Kind) (len : ℕ) → Begins text.now kind len
        → (kind ≡ result.kind) × (len ≡ result.len) }
{
    piece_of(text)
}

/// The piece that begins with a quotation mark, before this text.
fn quoted(text: &[u8]) -> Piece
    ensures value { result ≡ quoted text.now }
    ensures within { result.len ≤ length text.now + 1 }
{
    let len = characters_len(text);
    if text[len..].first() == Some(&b'"') {
        Piece {
            kind: Kind::Text,
            len: len + 2,
        }
    } else {
        Piece {
            kind: Kind::OpenText,
            len: len + 1,
        }
    }
}

/// The piece that begins with `/*`, before this text.
fn comment(text: &[u8]) -> Piece
    ensures value { result ≡ closed (length text.now) (close_at text.now) }
    ensures within { result.len ≤ length text.now + 2 }
{
    match close_at(text) {
        Some(at) => Piece {
            kind: Kind::Comment,
            len: at + 4,
        },
        None => Piece {
            kind: Kind::OpenComment,
            len: text.len() + 2,
        },
    }
}

/// The piece that begins with a slash, before this text.
fn slashed(text: &[u8]) -> Piece
    ensures value { result ≡ slashed text.now }
    ensures within { result.len ≤ length text.now + 1 }
{
    match text {
        [b'/', rest @ ..] => Piece {
            kind: Kind::Comment,
            len: run_len(Class::InLine, rest) + 2,
        },
        [b'*', rest @ ..] => comment(rest),
        _ => Piece {
            kind: Kind::Sign,
            len: 1,
        },
    }
}

/// The annotation whose name is so long, or a stray byte.
fn annotated(len: usize) -> Piece
    requires { len < 2 ^ 64 - 1 }
    ensures value { result ≡ annotated len }
    ensures within { result.len ≤ len + 1 }
{
    if len == 0 {
        Piece {
            kind: Kind::Stray,
            len: 1,
        }
    } else {
        Piece {
            kind: Kind::Annotation,
            len: len + 1,
        }
    }
}

/// A piece of this kind, or a single byte of the other kind where it has no bytes.
fn piece_or(kind: Kind, len: usize, other: Kind) -> Piece
    ensures value { result ≡ piece_or kind len other }
    ensures within { result.len ≤ len + 1 }
    ensures some { 0 < len → result.len ≡ len }
{
    if len == 0 {
        Piece {
            kind: other,
            len: 1,
        }
    } else {
        Piece { kind, len }
    }
}

/// The piece at the start of the text, and nothing where the text is empty.
fn piece_of(text: &[u8]) -> Piece
    ensures value { result ≡ piece_of text.now }
    ensures within { result.len ≤ length text.now }
{
    let [c, rest @ ..] = text else {
        return Piece {
            kind: Kind::Stray,
            len: 0,
        };
    };
    match head_of(*c) {
        Head::NameHead => piece_or(Kind::Name, name_len(text), Kind::Sign),
        Head::DigitHead => Piece {
            kind: Kind::Number,
            len: number_len(text),
        },
        Head::BlankHead => Piece {
            kind: Kind::Blank,
            len: 1,
        },
        Head::QuotationMark => quoted(rest),
        Head::Slash => slashed(rest),
        Head::AtSign => annotated(name_len(rest)),
        Head::OtherHead => piece_or(Kind::Sign, sign_len(text), Kind::Stray),
    }
}
