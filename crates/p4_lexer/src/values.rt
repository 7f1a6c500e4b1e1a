//! What a number stands for.
ghost use Rattle.std.specs.Prelude.{◌≡◌, ◌≤◌, ◌<◌, ◌^◌, IfOk, MatchOption};
ghost use Rattle.p4_lexer.specs.Digits.{with_digit, value_of};
ghost use Rattle.p4_lexer.specs.Numbers.{IsNumber, IsValue, StandsFor, plain_value};
ghost use Rattle.p4_lexer.specs.Lengths.{type_behind, typed, width_by, literal_type};

use crate::classes::{DECIMAL, base_of, decimal_run, digit_value};
use crate::numbers::width_len;
use crate::token::Text;
use std::alloc::{AllocError, Global};
use tg_base::{IntType, IntValue, Literal};

/// What the number stands for that is spelled so.
pub fn literal(alloc: Global, spelling: &[u8]) -> Result<Literal, AllocError>
    requires { IsNumber spelling.now }
    ensures { IfOk result (λ literal. StandsFor spelling.now literal) }
{
    let width = width_len(spelling);
    let owned = Text::from_slice(alloc, spelling)?;
    Ok(Literal {
        int_type: literal_type(spelling),
        value: plain_value(&spelling[width..]),
        spelling: owned,
    })
}

/// The type of the number.
fn literal_type(text: &[u8]) -> IntType
    ensures { result ≡ literal_type text.now }
{
    let (digits, rest) = text.split_at(decimal_run(text));
    type_behind(digits, rest)
}

/// The type that the digits give as the prefix of the rest.
fn type_behind(digits: &[u8], rest: &[u8]) -> IntType
    ensures { result ≡ type_behind digits.now rest.now }
{
    match rest {
        [b'w', ..] => typed(b'w', width_of(digits)),
        [b's', ..] => typed(b's', width_of(digits)),
        _ => IntType::Integer,
    }
}

/// The type of a number whose prefix has this letter and width.
fn typed(letter: u8, width: Option<u8>) -> IntType
    ensures { result ≡ typed letter width }
{
    match width {
        None => IntType::Integer,
        Some(width) if letter == b'w' => IntType::Unsigned(width),
        Some(width) => IntType::Signed(width),
    }
}

/// The width that the digits give, where it is one.
fn width_of(digits: &[u8]) -> Option<u8>
    ensures { result ≡ width_by (value_of 10 digits.now) }
{
    match value_of(DECIMAL, digits) {
        IntValue::Exact(value) => width_by(value),
        IntValue::TooLarge => None,
    }
}

fn width_by(value: u128) -> Option<u8>
    ensures { result ≡ width_by value }
{
    if 1 <= value && value <= 128 {
        Some(value as u8)
    } else {
        None
    }
}

/// The number with one more digit, where it has at most 128 bits.
fn with_digit(base: u8, high: u128, c: u8) -> Option<u128>
    ensures { MatchOption result (2 ^ 128 ≤ with_digit base high c)
        (λ value. value ≡ with_digit base high c) }
{
    if c == b'_' {
        return Some(high);
    }
    high.checked_mul(u128::from(base))?
        .checked_add(u128::from(digit_value(c)))
}

/// The value of digits of a base.
fn value_of(base: u8, digits: &[u8]) -> IntValue
    requires { 1 ≤ base }
    ensures { IsValue (value_of base digits.now) result }
{
    let mut value = 0;
    for c in digits {
        match with_digit(base, value, *c) {
            Some(next) => value = next,
            None => return IntValue::TooLarge,
        }
    }
    IntValue::Exact(value)
}

/// The value of a number with no prefix.
fn plain_value(text: &[u8]) -> IntValue
    ensures { IsValue (plain_value text.now) result }
{
    if let [_, letter, rest @ ..] = text {
        if let Some(base) = base_of(*letter) {
            return value_of(base, rest);
        }
    }
    value_of(DECIMAL, text)
}
