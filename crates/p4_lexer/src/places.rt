//! Places in a text, and its first byte that is no text.
ghost use Rattle.std.specs.Prelude.{◌≡◌, ◌+◌, ◌<◌, ◌^◌, ◌++◌, ℕ, List, length, MatchOption, IsUtf8};
ghost use Rattle.std.specs.Str.{IsValidUpTo};
ghost use Rattle.p4_lexer.specs.Places.{place_after, next_place};

use std::str;
use tg_base::Span;

/// The first byte that is no text in UTF-8, where there is one.
pub fn first_bad_byte(text: &[u8]) -> Option<usize>
    ensures { MatchOption result (IsUtf8 text.now) (λ at. IsValidUpTo text.now at) }
{
    match str::from_utf8(text) {
        Ok(_) => None,
        Err(fault) => Some(fault.valid_up_to()),
    }
}

/// The place behind a byte.
fn next_place(place: Span, c: u8) -> Span
    requires line { place.line + 1 < 2 ^ 32 }
    requires column { place.column + 1 < 2 ^ 32 }
    ensures { result ≡ next_place place c }
{
    if c == b'\n' {
        Span {
            line: place.line + 1,
            column: 1,
        }
    } else {
        Span {
            line: place.line,
            column: place.column + 1,
        }
    }
}

/// The place behind bytes that begin at a place.
pub fn place_behind(place: Span, bytes: &[u8]) -> Span
    requires line { place.line + length bytes.now < 2 ^ 32 }
    requires column { place.column + length bytes.now < 2 ^ 32 }
    ensures { (before : List ℕ) → place ≡ place_after before
        → result ≡ place_after (before ++ bytes.now) }
{
    let mut behind = place;
    for c in bytes {
        behind = next_place(behind, *c);
    }
    behind
}
