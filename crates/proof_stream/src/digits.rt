//! Words of bits, and hexadecimal values.
ghost use Rattle.std.specs.Prelude.{◌≡◌, ◌<◌, ◌≤◌, [], map, IfSome, length, IfOk};
ghost use Rattle.proof_stream.specs.declared.hex_value.TheConstants.{MAX_DIGITS};
ghost use Rattle.proof_stream.specs.Reading.{bit_of, bits_onto, bits_of, hex_digit_of, hex_from, hex_of_digits, hex_of, values_onto};

use crate::hex_value::{HexValue, MAX_DIGITS, Values};
use crate::record::Truths;
use sqlite_items::Items;
use std::alloc::{AllocError, Global};

fn bit_of(c: u8) -> Option<bool>
    ensures { result ≡ bit_of c }
{
    match c {
        b'1' => Some(true),
        b'0' => Some(false),
        _ => None,
    }
}

/// The bits that a word spells.
fn bits_in(alloc: Global, word: &[u8]) -> Result<Option<Truths>, AllocError>
    ensures { IfOk result (λ bits. bits ≡ bits_onto [] word.now) }
{
    let mut bits = Items::new(alloc);
    for c in word {
        let Some(bit) = bit_of(*c) else {
            return Ok(None);
        };
        bits.push(bit)?;
    }
    Ok(Some(bits))
}

/// The bits of the one word of a line.
#[tactic(auto, unfolding(crate::specs::Reading::bits_of))]
pub(crate) fn bits_of(alloc: Global, words: &[&[u8]]) -> Result<Option<Truths>, AllocError>
    ensures { IfOk result (λ bits. bits ≡ bits_of (map (λ word. word.now) words.now)) }
{
    match words {
        [word] if !word.is_empty() => bits_in(alloc, word),
        _ => Ok(None),
    }
}

fn hex_digit_of(c: u8) -> Option<u8>
    ensures value { result ≡ hex_digit_of c }
    ensures small { IfSome result (λ digit. digit < 16) }
{
    match c {
        b'0'..=b'9' => Some(c - b'0'),
        b'a'..=b'f' => Some(c - b'a' + 10),
        _ => None,
    }
}

/// The number that hexadecimal digits give.
fn hex_from(digits: &[u8]) -> Option<u128>
    requires { length digits.now ≤ MAX_DIGITS }
    ensures { result ≡ hex_from 0 digits.now }
{
    let mut value: u128 = 0;
    for c in digits {
        value = 16 * value + hex_digit_of(*c)? as u128;
    }
    Some(value)
}

#[tactic(auto, using(crate::proofs::HexLemmas::is_hex_value), unfolding(crate::specs::Reading::hex_of_digits))]
fn hex_of_digits(digits: &[u8]) -> Option<HexValue>
    ensures { result ≡ hex_of_digits digits.now }
{
    if digits.len() > MAX_DIGITS as usize {
        return None;
    }
    let value = hex_from(digits)?;
    HexValue::new(digits.len() as u8, value)
}

/// The value that a word spells.
#[tactic(auto, unfolding(crate::specs::Reading::hex_of))]
fn hex_of(word: &[u8]) -> Option<HexValue>
    ensures { result ≡ hex_of word.now }
{
    match word {
        [b'0', b'x', digits @ ..] => hex_of_digits(digits),
        _ => None,
    }
}

/// The values that the words spell.
pub(crate) fn values_of(alloc: Global, words: &[&[u8]]) -> Result<Option<Values>, AllocError>
    ensures { IfOk result (λ values. values ≡ values_onto [] (map (λ word. word.now) words.now)) }
{
    let mut values = Items::new(alloc);
    for word in words {
        let Some(h) = hex_of(word) else {
            return Ok(None);
        };
        values.push(h)?;
    }
    Ok(Some(values))
}
