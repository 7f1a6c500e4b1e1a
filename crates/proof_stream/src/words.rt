//! What the words of a line stand for.
ghost use Rattle.std.specs.Prelude.{◌≡◌, map};
ghost use Rattle.proof_stream.specs.Reading.{number_of, number_from, positive_of, signed_literal, literal_of, kind_of, statement_kind, nibble_kind, input_var, read_var, var_of, one_number_of};

use crate::keyword::{Keyword, keyword_of};
use crate::record::Kind;
use cnf_core::{Lit, Var};

/// The number that decimal digits give.
fn number_from(digits: &[u8]) -> Option<u32>
    ensures { result ≡ number_from 0 digits.now }
{
    let mut value: u32 = 0;
    for c in digits {
        if !c.is_ascii_digit() {
            return None;
        }
        value = value.checked_mul(10)?.checked_add((*c - b'0') as u32)?;
    }
    Some(value)
}

/// The number that a word spells.
#[tactic(auto, unfolding(crate::specs::Reading::number_of))]
pub(crate) fn number_of(word: &[u8]) -> Option<u32>
    ensures { result ≡ number_of word.now }
{
    if word.is_empty() || (word[0] == b'0' && word.len() > 1) {
        return None;
    }
    number_from(word)
}

/// A number from 1.
pub(crate) fn positive_of(word: &[u8]) -> Option<u32>
    ensures { result ≡ positive_of word.now }
{
    match number_of(word)? {
        0 => None,
        number => Some(number),
    }
}

fn signed_literal(positive: bool, digits: &[u8]) -> Option<Lit>
    ensures { result ≡ signed_literal positive digits.now }
{
    let var = positive_of(digits)?;
    Some(Lit { var, positive })
}

/// The literal that a word spells.
#[tactic(auto, unfolding(crate::specs::Reading::literal_of))]
pub(crate) fn literal_of(word: &[u8]) -> Option<Lit>
    ensures { result ≡ literal_of word.now }
{
    match word {
        [b'-', digits @ ..] => signed_literal(false, digits),
        _ => signed_literal(true, word),
    }
}

fn statement_kind(keyword: Keyword, statement: u32) -> Option<Kind>
    ensures { result ≡ statement_kind keyword statement }
{
    match keyword {
        Keyword::Reach => Some(Kind::Reach(statement)),
        Keyword::Steady => Some(Kind::Steady(statement)),
        Keyword::Break => Some(Kind::Break(statement)),
        _ => None,
    }
}

fn nibble_kind(keyword: Keyword, test: u32, nibble: u32) -> Option<Kind>
    ensures { result ≡ nibble_kind keyword test nibble }
{
    match keyword {
        Keyword::Nibble => Some(Kind::Nibble(test, nibble)),
        _ => None,
    }
}

/// What is asked.
#[tactic(auto, unfolding(crate::specs::Reading::kind_of))]
pub(crate) fn kind_of(words: &[&[u8]]) -> Option<Kind>
    ensures { result ≡ kind_of (map (λ word. word.now) words.now) }
{
    match words {
        [kind, statement] => statement_kind(keyword_of(kind)?, number_of(statement)?),
        [kind, test, nibble] => nibble_kind(
            keyword_of(kind)?,
            number_of(test)?,
            number_of(nibble)?,
        ),
        _ => None,
    }
}

fn input_var(keyword: Keyword, place: u32) -> Option<Var>
    ensures { result ≡ input_var keyword place }
{
    match keyword {
        Keyword::Input => Some(Var::Input(place)),
        _ => None,
    }
}

fn read_var(keyword: Keyword, read: u32, bit: u32) -> Option<Var>
    ensures { result ≡ read_var keyword read bit }
{
    match keyword {
        Keyword::Read => Some(Var::Read(read, bit)),
        _ => None,
    }
}

/// What a variable stands for.
#[tactic(auto, unfolding(crate::specs::Reading::var_of))]
pub(crate) fn var_of(words: &[&[u8]]) -> Option<Var>
    ensures { result ≡ var_of (map (λ word. word.now) words.now) }
{
    match words {
        [kind, place] => input_var(keyword_of(kind)?, number_of(place)?),
        [kind, read, bit] => read_var(keyword_of(kind)?, number_of(read)?, number_of(bit)?),
        _ => None,
    }
}

/// The one number of a line.
#[tactic(auto, unfolding(crate::specs::Reading::one_number_of))]
pub(crate) fn one_number_of(words: &[&[u8]]) -> Option<u32>
    ensures { result ≡ one_number_of (map (λ word. word.now) words.now) }
{
    match words {
        [number] => number_of(number),
        _ => None,
    }
}
