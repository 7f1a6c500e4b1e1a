//! How far the characters of a string go, where a comment closes, and how long a sign is.
ghost use Rattle.std.specs.Prelude.{◌≡◌, ◌≤◌, length, IfSome, ◌<◌, ◌+◌};
ghost use Rattle.p4_lexer.specs.Lengths.{character_len, characters_len, begins_close, close_at, is_sign_of_three, is_sign_of_two, is_sign_of_one, sign_len, name_len};

use crate::classes::{Class, begins_name, run_len};

/// How long the character of a string is, or 0 where none begins.
fn character_len(text: &[u8]) -> usize
    ensures value { result ≡ character_len text.now }
    ensures within { result ≤ length text.now }
{
    match text {
        [] | [b'"' | b'\n', ..] | [b'\\'] => 0,
        [b'\\', _, ..] => 2,
        [_, ..] => 1,
    }
}

/// How many bytes of characters of a string the text begins with.
pub(crate) fn characters_len(text: &[u8]) -> usize
    ensures value { result ≡ characters_len text.now }
    ensures within { result ≤ length text.now }
{
    let mut at = 0;
    while at < text.len() {
        let len = character_len(&text[at..]);
        if len == 0 {
            return at;
        }
        at += len;
    }
    at
}

fn begins_close(text: &[u8]) -> bool
    ensures { result ≡ begins_close text.now }
{
    matches!(text, [b'*', b'/', ..])
}

/// Where the first `*/` stands.
pub(crate) fn close_at(text: &[u8]) -> Option<usize>
    ensures value { result ≡ close_at text.now }
    ensures within { IfSome result (λ at. at + 1 < length text.now) }
{
    for at in 0..text.len() {
        if begins_close(&text[at..]) {
            return Some(at);
        }
    }
    None
}

fn is_sign_of_three(a: u8, b: u8, c: u8) -> bool
    ensures { result ≡ is_sign_of_three a b c }
{
    matches!((a, b, c), (b'&', b'&', b'&') | (b'|', b'+' | b'-', b'|'))
}

fn is_sign_of_two(a: u8, b: u8) -> bool
    ensures { result ≡ is_sign_of_two a b }
{
    (a == b && matches!(a, b'<' | b'>' | b'=' | b'&' | b'|' | b'+' | b'.'))
        || (b == b'=' && matches!(a, b'<' | b'>' | b'!'))
}

fn is_sign_of_one(a: u8) -> bool
    ensures { result ≡ is_sign_of_one a }
{
    b"+-*/%&|^~!<>=(){}[],;:.?_".iter().any(|s| *s == a)
}

/// How long the sign is, or 0 where none begins.
pub(crate) fn sign_len(text: &[u8]) -> usize
    ensures value { result ≡ sign_len text.now }
    ensures within { result ≤ length text.now }
{
    match text {
        [a, b, c, ..] if is_sign_of_three(*a, *b, *c) => 3,
        [a, b, ..] if is_sign_of_two(*a, *b) => 2,
        [a, ..] if is_sign_of_one(*a) => 1,
        _ => 0,
    }
}

/// How long the name is, or 0 where none begins.
pub(crate) fn name_len(text: &[u8]) -> usize
    ensures value { result ≡ name_len text.now }
    ensures within { result ≤ length text.now }
{
    let [c, rest @ ..] = text else {
        return 0;
    };
    if !begins_name(*c) {
        return 0;
    }
    let more = run_len(Class::InName, rest);
    if more == 0 && *c == b'_' { 0 } else { more + 1 }
}
