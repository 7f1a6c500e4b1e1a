//! Tokens as a text again, each word with a blank behind it.
ghost use Rattle.std.specs.Prelude.{◌≡◌, ◌++◌, IfOk, OnOk};
ghost use Rattle.testgen_engine.specs.Written.{spelling, written, written_token};

use p4_lexer::{Token, Word, keyword_spelling, reserved_spelling, sign_spelling};
use std::alloc::{AllocError, Global};

/// The text of the tokens.
pub fn written(alloc: Global, tokens: &[Token]) -> Result<Vec<u8>, AllocError>
    ensures { IfOk result (λ text. text.items ≡ written tokens.now) }
{
    let mut text = Vec::new(alloc);
    for token in tokens {
        write_token(&mut text, token)?;
    }
    Ok(text)
}

fn write_token(text: &mut Vec<u8>, token: &Token) -> Result<(), AllocError>
    ensures { OnOk result (text.new.items ≡ text.old.items ++ written_token token.now) }
{
    write_word(text, &token.word)?;
    text.extend_from_slice(b" ")
}

fn write_word(text: &mut Vec<u8>, word: &Word) -> Result<(), AllocError>
    ensures { OnOk result (text.new.items ≡ text.old.items ++ spelling word.now) }
{
    match word {
        Word::Keyword(keyword) => text.extend_from_slice(keyword_spelling(*keyword).as_bytes()),
        Word::Reserved(reserved) => text.extend_from_slice(reserved_spelling(*reserved).as_bytes()),
        Word::Sign(sign) => text.extend_from_slice(sign_spelling(*sign).as_bytes()),
        Word::Id(name) | Word::TypeName(name) | Word::Base(name) => {
            text.extend_from_slice(name.as_slice())
        }
        Word::Int(literal) => text.extend_from_slice(literal.spelling.as_slice()),
        Word::Text(string) => write_around(text, b"\"", string.as_slice(), b"\""),
        Word::Named(name) => write_around(text, b"@name(\"", name.as_slice(), b"\")"),
        Word::DefaultOnly => text.extend_from_slice(b"@defaultonly"),
        Word::TableOnly => text.extend_from_slice(b"@tableonly"),
        Word::Lookahead => text.extend_from_slice(b"lookahead"),
        Word::OpenArguments => text.extend_from_slice(b"<"),
        Word::CloseArguments => text.extend_from_slice(b">"),
    }
}

fn write_around(
    text: &mut Vec<u8>,
    before: &[u8],
    inner: &[u8],
    behind: &[u8],
) -> Result<(), AllocError>
    ensures { OnOk result
        (text.new.items ≡ text.old.items ++ (before.now ++ (inner.now ++ behind.now))) }
{
    text.extend_from_slice(before)?;
    text.extend_from_slice(inner)?;
    text.extend_from_slice(behind)
}
