//! Faults of a text: its bytes, pieces that are bad, directives and conditions, and which of two faults decides.
ghost use Rattle.std.specs.Prelude.{◌≡◌, ◌↔◌, ◌+◌, ◌-◌, ◌<◌, ◌≤◌, ◌^◌, ◌⊎◌, ℕ, List, All, length, Some, take, drop, IsTrue, IfSome, MatchOption};
ghost use Rattle.tg_base.specs.declared.place.Span.{Span};
ghost use Rattle.tg_base.specs.declared.place.Refusal.{Refusal};
ghost use Rattle.tg_base.specs.declared.place.Code.TheVariants.{Lex, Directive as DirectiveCode};
ghost use Rattle.tg_base.specs.Deciding.{DecidesOver, IsDeciding};
ghost use Rattle.p4_lexer.specs.Places.{place_after};
ghost use Rattle.p4_lexer.specs.DirectiveExtents.{IsPieceAt};
ghost use Rattle.p4_lexer.specs.BadPieces.{AreInRow, HasBadAt};
ghost use Rattle.p4_lexer.specs.Extents.{cut_at, IsIn};
ghost use Rattle.p4_lexer.specs.Tokens.{BeginsWithLetter, IsBadPiece, refusal_at};
ghost use Rattle.p4_lexer.specs.Scanning.{IsFirstOf};
ghost use Rattle.p4_lexer.specs.PartFaults.{IsOneOf, IsBadThere, IsBadWhereTaken, IsStray, IsNoText, IsOpenAt};

use crate::extents::{PieceAt, bytes_of};
use crate::piece::Kind;
use crate::places::{first_bad_byte, place_behind};
use crate::scope::ConditionAt;
use tg_base::{Code, Refusal, Span};

/// Whether r stands first in the source, or at the place of s under a number that is not above that of s.
fn decides_over(r: Refusal, s: Refusal) -> bool
    ensures { IsTrue result ↔ DecidesOver r s }
{
    if r.line != s.line {
        return r.line < s.line;
    }
    if r.column != s.column {
        return r.column < s.column;
    }
    r.code.number() <= s.code.number()
}

/// Which decides of the fault that decided so far, if there was one, and one more.
pub(crate) fn keep(best: Option<Refusal>, fault: Refusal) -> Refusal
    ensures either { (result ≡ fault) ⊎ (best ≡ Some result) }
    ensures over { DecidesOver result fault }
    ensures first { IfSome best (DecidesOver result) }
{
    match best {
        Some(best) => {
            if decides_over(best, fault) {
                best
            } else {
                fault
            }
        }
        None => fault,
    }
}

/// Which of two faults decides.
pub(crate) fn first_of(a: Option<Refusal>, b: Option<Refusal>) -> Option<Refusal>
    ensures { IsOneOf a b result }
{
    match b {
        Some(fault) => Some(keep(a, fault)),
        None => a,
    }
}

/// The refusal with this code at a place.
pub(crate) fn refusal_at(code: Code, place: Span) -> Refusal
    ensures { result ≡ refusal_at code place }
{
    Refusal {
        code,
        line: place.line,
        column: place.column,
    }
}

fn begins_with_letter(text: &[u8]) -> bool
    ensures { IsTrue result ↔ BeginsWithLetter text.now }
{
    match text.first() {
        Some(c) => c.is_ascii_alphabetic(),
        None => false,
    }
}

/// Whether the piece is bad: no word, a comment or a string that is not ended, or a number directly before a letter.
pub(crate) fn is_bad(text: &[u8], piece: PieceAt) -> bool
    requires { IsIn text.now piece.extent }
    ensures { IsTrue result
        ↔ IsBadPiece (cut_at text.now piece) (drop (piece.extent.at + piece.extent.len) text.now) }
{
    match piece.kind {
        Kind::Stray | Kind::OpenText | Kind::OpenComment => true,
        Kind::Number => begins_with_letter(&text[piece.extent.at + piece.extent.len..]),
        _ => false,
    }
}

/// The fault that decides of those so far and of one piece, which stands at this place.
fn with_piece(best: Option<Refusal>, text: &[u8], piece: PieceAt, place: Span) -> Option<Refusal>
    requires { IsIn text.now piece.extent }
    ensures good { ¬ IsBadPiece (cut_at text.now piece)
        (drop (piece.extent.at + piece.extent.len) text.now)
        → result ≡ best }
    ensures bad { IsBadPiece (cut_at text.now piece)
        (drop (piece.extent.at + piece.extent.len) text.now)
        → (r : Refusal) × (result ≡ Some r)
        × ((r ≡ refusal_at Lex place) ⊎ (best ≡ Some r))
        × DecidesOver r (refusal_at Lex place)
        × IfSome best (DecidesOver r) }
{
    if is_bad(text, piece) {
        let fault = Refusal {
            code: Code::Lex,
            line: place.line,
            column: place.column,
        };
        Some(keep(best, fault))
    } else {
        best
    }
}

/// The bad piece that decides among these, which stand in a row, the first at this place.
pub(crate) fn bad_piece(text: &[u8], pieces: &[PieceAt], place: Span) -> Option<Refusal>
    requires few { length text.now < 2 ^ 32 - 1 }
    requires pieces { All (IsPieceAt text.now) pieces.now }
    requires row { (start : ℕ) × AreInRow start pieces.now × (start ≤ length text.now)
        × (place ≡ place_after (take start text.now)) }
    ensures { MatchOption result ((f : Refusal) → ¬ HasBadAt text.now pieces.now f)
        (IsDeciding (HasBadAt text.now pieces.now)) }
{
    let mut best = None;
    let mut here = place;
    for piece in pieces {
        best = with_piece(best, text, *piece, here);
        here = place_behind(here, bytes_of(text, piece.extent));
    }
    best
}

/// The fault of a piece at this place, if it is bad.
pub(crate) fn piece_fault(text: &[u8], piece: PieceAt, place: Span) -> Option<Refusal>
    requires { IsIn text.now piece.extent }
    ensures { IsFirstOf (IsBadThere text.now piece place) result }
{
    if is_bad(text, piece) {
        Some(refusal_at(Code::Lex, place))
    } else {
        None
    }
}

/// The bad piece that decides among those behind a `#`, the first at this place, where the part is taken.
fn taken_fault(text: &[u8], pieces: &[PieceAt], place: Span, taken: bool) -> Option<Refusal>
    requires few { length text.now < 2 ^ 32 - 1 }
    requires pieces { All (IsPieceAt text.now) pieces.now }
    requires row { (start : ℕ) × AreInRow start pieces.now × (start ≤ length text.now)
        × (place ≡ place_after (take start text.now)) }
    ensures { IsFirstOf (IsBadWhereTaken text.now pieces.now taken) result }
{
    if taken {
        bad_piece(text, pieces, place)
    } else {
        None
    }
}

/// The fault of a directive at this place that belongs to no condition.
fn stray_fault(place: Span, belongs: bool) -> Option<Refusal>
    ensures { IsFirstOf (IsStray belongs place) result }
{
    if belongs {
        None
    } else {
        Some(refusal_at(Code::Directive, place))
    }
}

/// The fault of a line that begins with `#` at this place and is no directive.
pub(crate) fn no_directive(place: Span) -> Refusal
    ensures { result ≡ refusal_at DirectiveCode place }
{
    refusal_at(Code::Directive, place)
}

/// The fault that decides in the line of a directive, whose pieces stand behind its `#`.
pub(crate) fn line_fault(
    text: &[u8],
    pieces: &[PieceAt],
    hash_place: Span,
    place: Span,
    taken: bool,
    belongs: bool,
) -> Option<Refusal>
    requires few { length text.now < 2 ^ 32 - 1 }
    requires pieces { All (IsPieceAt text.now) pieces.now }
    requires row { (start : ℕ) × AreInRow start pieces.now × (start ≤ length text.now)
        × (place ≡ place_after (take start text.now)) }
    ensures { IsFirstOf
        (λ f. IsBadWhereTaken text.now pieces.now taken f ⊎ IsStray belongs hash_place f)
        result }
{
    let bad = taken_fault(text, pieces, place, taken);
    first_of(bad, stray_fault(hash_place, belongs))
}

/// The place of a text's first byte.
const START: Span = Span { line: 1, column: 1 };

/// The fault of the first byte that is no text.
pub(crate) fn text_fault(text: &[u8]) -> Option<Refusal>
    requires { length text.now < 2 ^ 32 - 1 }
    ensures { IsFirstOf (IsNoText text.now) result }
{
    match first_bad_byte(text) {
        Some(at) => {
            let place = place_behind(START, &text[..at]);
            Some(refusal_at(Code::NotText, place))
        }
        None => None,
    }
}

/// The condition that decides among those that are not ended.
pub(crate) fn open_fault(conditions: &[ConditionAt]) -> Option<Refusal>
    ensures { IsFirstOf (IsOpenAt conditions.now) result }
{
    let mut best = None;
    for condition in conditions {
        best = Some(keep(best, refusal_at(Code::Directive, condition.place)));
    }
    best
}
