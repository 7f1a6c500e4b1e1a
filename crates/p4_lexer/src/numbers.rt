//! How long a number at the start of a text is.
ghost use Rattle.std.specs.Prelude.{◌≡◌, ◌≤◌, length};
ghost use Rattle.std.specs.List.{list_any};
ghost use Rattle.p4_lexer.specs.Digits.{is_digit_of, with_digit, value_of};
ghost use Rattle.p4_lexer.specs.Numbers.{widest};
ghost use Rattle.p4_lexer.specs.Lengths.{digits_len, decimal_len, based_len, plain_len, begins_sort, is_width, width_len, number_len};

use crate::classes::{Class, DECIMAL, base_of, decimal_run, digit_value, is_digit_of, run_len};

/// The greatest width of a type.
const WIDEST: u32 = 128;

fn has_digit(base: u8, text: &[u8]) -> bool
    ensures { result ≡ list_any (is_digit_of base) text.now }
{
    text.iter().any(|c| is_digit_of(base, *c))
}

fn digits_len(base: u8, text: &[u8]) -> usize
    ensures value { result ≡ digits_len base text.now }
    ensures within { result ≤ length text.now }
{
    let len = run_len(Class::InDigits(base), text);
    if has_digit(base, &text[..len]) {
        len
    } else {
        0
    }
}

fn decimal_len(text: &[u8]) -> usize
    ensures value { result ≡ decimal_len text.now }
    ensures within { result ≤ length text.now }
{
    match text {
        [c, rest @ ..] if is_digit_of(DECIMAL, *c) => run_len(Class::InDigits(DECIMAL), rest) + 1,
        _ => 0,
    }
}

fn based_len(text: &[u8]) -> usize
    ensures value { result ≡ based_len text.now }
    ensures within { result ≤ length text.now }
{
    let [zero, letter, rest @ ..] = text else {
        return 0;
    };
    let Some(base) = base_of(*letter) else {
        return 0;
    };
    let len = digits_len(base, rest);
    if *zero == b'0' && len > 0 { len + 2 } else { 0 }
}

fn plain_len(text: &[u8]) -> usize
    ensures value { result ≡ plain_len text.now }
    ensures within { result ≤ length text.now }
{
    let based = based_len(text);
    if based > 0 { based } else { decimal_len(text) }
}

/// The number with one more decimal digit.
fn with_digit(high: u32, c: u8) -> u32
    requires { high ≤ widest }
    ensures { result ≡ with_digit 10 high c }
{
    if c == b'_' {
        high
    } else {
        high * u32::from(DECIMAL) + u32::from(digit_value(c))
    }
}

/// Whether the digits give the width of a type.
fn is_width(digits: &[u8]) -> bool
    ensures { result ≡ is_width (value_of 10 digits.now) }
{
    let mut value = 0u32;
    for c in digits {
        value = with_digit(value, *c);
        if value > WIDEST {
            return false;
        }
    }
    value >= 1
}

fn begins_sort(text: &[u8]) -> bool
    ensures { result ≡ begins_sort text.now }
{
    match text {
        [c, ..] => *c == b'w' || *c == b's',
        [] => false,
    }
}

/// How long the prefix of the number is, or 0 where it has none.
pub(crate) fn width_len(text: &[u8]) -> usize
    ensures value { result ≡ width_len text.now }
    ensures within { result ≤ length text.now }
{
    let len = decimal_run(text);
    let (digits, rest) = text.split_at(len);
    if begins_sort(rest) && is_width(digits) {
        len + 1
    } else {
        0
    }
}

/// How long the number is, or 0 where none begins.
pub(crate) fn number_len(text: &[u8]) -> usize
    ensures value { result ≡ number_len text.now }
    ensures within { result ≤ length text.now }
{
    let width = width_len(text);
    let plain = plain_len(&text[width..]);
    if width > 0 && plain > 0 {
        width + plain
    } else {
        plain_len(text)
    }
}
