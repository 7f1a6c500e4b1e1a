//! Classes of bytes, and runs of bytes of one class.
ghost use Rattle.std.specs.Prelude.{IfSome, ◌≡◌, ◌≤◌, length};
ghost use Rattle.std.specs.List.{prefix_len};
ghost use Rattle.p4_lexer.specs.Bytes.{is_blank, begins_name, is_in_name};
ghost use Rattle.p4_lexer.specs.Digits.{digit_value, is_digit_of, is_in_digits, base_of};
ghost use Rattle.p4_lexer.specs.Lengths.{has, head_of};

/// The bytes of which a run may consist.
#[derive(Clone, Copy)]
pub(crate) enum Class {
    /// Letters, digits and `_`.
    InName,
    /// Digits of a base, and `_`.
    InDigits(u8),
    /// All but the line feed.
    InLine,
    /// Blanks but the line feed.
    InLead,
}

/// What begins with a byte.
#[derive(Clone, Copy)]
pub(crate) enum Head {
    NameHead,
    DigitHead,
    BlankHead,
    QuotationMark,
    Slash,
    AtSign,
    OtherHead,
}

pub(crate) const DECIMAL: u8 = 10;

fn is_blank(c: u8) -> bool
    ensures { result ≡ is_blank c }
{
    c == b' ' || c == b'\t' || c == b'\r' || c == b'\n'
}

pub(crate) fn begins_name(c: u8) -> bool
    ensures { result ≡ begins_name c }
{
    c.is_ascii_alphabetic() || c == b'_'
}

fn is_in_name(c: u8) -> bool
    ensures { result ≡ is_in_name c }
{
    begins_name(c) || c.is_ascii_digit()
}

pub(crate) fn digit_value(c: u8) -> u8
    ensures { result ≡ digit_value c }
{
    if c.is_ascii_digit() {
        c.saturating_sub(b'0')
    } else if c.is_ascii_lowercase() {
        c.saturating_sub(b'a' - 10)
    } else {
        c.saturating_sub(b'A' - 10)
    }
}

pub(crate) fn is_digit_of(base: u8, c: u8) -> bool
    ensures { result ≡ is_digit_of base c }
{
    c.is_ascii_hexdigit() && digit_value(c) < base
}

fn is_in_digits(base: u8, c: u8) -> bool
    ensures { result ≡ is_in_digits base c }
{
    is_digit_of(base, c) || c == b'_'
}

/// The base that the letter behind a first `0` gives.
pub(crate) fn base_of(c: u8) -> Option<u8>
    ensures value { result ≡ base_of c }
    ensures some { IfSome result (λ base. 1 ≤ base) }
{
    match c {
        b'x' | b'X' => Some(16),
        b'd' | b'D' => Some(DECIMAL),
        b'o' | b'O' => Some(8),
        b'b' | b'B' => Some(2),
        _ => None,
    }
}

fn has(class: Class, c: u8) -> bool
    ensures { result ≡ has class c }
{
    match class {
        Class::InName => is_in_name(c),
        Class::InDigits(base) => is_in_digits(base, c),
        Class::InLine => c != b'\n',
        Class::InLead => is_blank(c) && c != b'\n',
    }
}

/// How many bytes of the class the text begins with.
pub(crate) fn run_len(class: Class, text: &[u8]) -> usize
    ensures value { result ≡ prefix_len (has class) text.now }
    ensures within { result ≤ length text.now }
{
    for (i, c) in text.iter().enumerate() {
        if !has(class, *c) {
            return i;
        }
    }
    text.len()
}

/// How many decimal digits the text begins with.
pub(crate) fn decimal_run(text: &[u8]) -> usize
    ensures value { result ≡ prefix_len (is_digit_of 10) text.now }
    ensures within { result ≤ length text.now }
{
    for (i, c) in text.iter().enumerate() {
        if !is_digit_of(DECIMAL, *c) {
            return i;
        }
    }
    text.len()
}

pub(crate) fn head_of(c: u8) -> Head
    ensures { result ≡ head_of c }
{
    if begins_name(c) {
        Head::NameHead
    } else if is_digit_of(DECIMAL, c) {
        Head::DigitHead
    } else if is_blank(c) {
        Head::BlankHead
    } else {
        match c {
            b'"' => Head::QuotationMark,
            b'/' => Head::Slash,
            b'@' => Head::AtSign,
            _ => Head::OtherHead,
        }
    }
}
