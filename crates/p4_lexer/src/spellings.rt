//! How keywords, reserved words and signs are spelled, and which of them a spelling is.
ghost use Rattle.std.specs.Prelude.{◌≡◌, ◌↔◌, Some};
ghost use Rattle.std.specs.List.{find};
ghost use Rattle.std.specs.Str.{bytes_eq};
ghost use Rattle.p4_lexer.specs.declared.token.Keyword.{Keyword};
ghost use Rattle.p4_lexer.specs.declared.token.Reserved.{Reserved};
ghost use Rattle.p4_lexer.specs.declared.token.Sign.{Sign};
ghost use Rattle.p4_lexer.specs.Spellings.{keyword_spelling, reserved_spelling, sign_spelling};

use crate::token::{Keyword, Reserved, Sign};

/// The keyword that is spelled so.
pub fn keyword_of(spelling: &[u8]) -> Option<Keyword>
    ensures { (word : Keyword) → (result ≡ Some word) ↔ (spelling.now ≡ keyword_spelling word) }
{
    keyword_among(&KEYWORDS, spelling)
}

/// The reserved word that is spelled so.
pub fn reserved_of(spelling: &[u8]) -> Option<Reserved>
    ensures { (word : Reserved) → (result ≡ Some word) ↔ (spelling.now ≡ reserved_spelling word) }
{
    reserved_among(&RESERVED, spelling)
}

/// The sign that is spelled so.
pub fn sign_of(spelling: &[u8]) -> Option<Sign>
    ensures { (word : Sign) → (result ≡ Some word) ↔ (spelling.now ≡ sign_spelling word) }
{
    sign_among(&SIGNS, spelling)
}

const KEYWORDS: [Keyword; 31] = [
    Keyword::Action,
    Keyword::Actions,
    Keyword::Apply,
    Keyword::Bit,
    Keyword::Bool,
    Keyword::Const,
    Keyword::Control,
    Keyword::Default,
    Keyword::Else,
    Keyword::Entries,
    Keyword::Enum,
    Keyword::Error,
    Keyword::Exit,
    Keyword::False,
    Keyword::Header,
    Keyword::If,
    Keyword::In,
    Keyword::Inout,
    Keyword::Int,
    Keyword::Key,
    Keyword::Out,
    Keyword::Parser,
    Keyword::Return,
    Keyword::Select,
    Keyword::State,
    Keyword::Struct,
    Keyword::Switch,
    Keyword::Table,
    Keyword::Transition,
    Keyword::True,
    Keyword::Typedef,
];

/// The first of the words that is spelled so.
fn keyword_among(words: &[Keyword], spelling: &[u8]) -> Option<Keyword>
    ensures { result ≡ find (λ word. bytes_eq (keyword_spelling word) spelling.now) words.now }
{
    words
        .iter()
        .copied()
        .find(|word| keyword_spelling(*word).as_bytes() == spelling)
}

/// How the keyword is written.
pub fn keyword_spelling(word: Keyword) -> &'static str
    ensures { result.now ≡ keyword_spelling word }
{
    match word {
        Keyword::Action => "action",
        Keyword::Actions => "actions",
        Keyword::Apply => "apply",
        Keyword::Bit => "bit",
        Keyword::Bool => "bool",
        Keyword::Const => "const",
        Keyword::Control => "control",
        Keyword::Default => "default",
        Keyword::Else => "else",
        Keyword::Entries => "entries",
        Keyword::Enum => "enum",
        Keyword::Error => "error",
        Keyword::Exit => "exit",
        Keyword::False => "false",
        Keyword::Header => "header",
        Keyword::If => "if",
        Keyword::In => "in",
        Keyword::Inout => "inout",
        Keyword::Int => "int",
        Keyword::Key => "key",
        Keyword::Out => "out",
        Keyword::Parser => "parser",
        Keyword::Return => "return",
        Keyword::Select => "select",
        Keyword::State => "state",
        Keyword::Struct => "struct",
        Keyword::Switch => "switch",
        Keyword::Table => "table",
        Keyword::Transition => "transition",
        Keyword::True => "true",
        Keyword::Typedef => "typedef",
    }
}

const RESERVED: [Reserved; 8] = [
    Reserved::Extern,
    Reserved::Package,
    Reserved::Varbit,
    Reserved::HeaderUnion,
    Reserved::Tuple,
    Reserved::Void,
    Reserved::MatchKind,
    Reserved::ValueSet,
];

/// The first of the words that is spelled so.
fn reserved_among(words: &[Reserved], spelling: &[u8]) -> Option<Reserved>
    ensures { result ≡ find (λ word. bytes_eq (reserved_spelling word) spelling.now) words.now }
{
    words
        .iter()
        .copied()
        .find(|word| reserved_spelling(*word).as_bytes() == spelling)
}

/// How the reserved word is written.
pub fn reserved_spelling(word: Reserved) -> &'static str
    ensures { result.now ≡ reserved_spelling word }
{
    match word {
        Reserved::Extern => "extern",
        Reserved::Package => "package",
        Reserved::Varbit => "varbit",
        Reserved::HeaderUnion => "header_union",
        Reserved::Tuple => "tuple",
        Reserved::Void => "void",
        Reserved::MatchKind => "match_kind",
        Reserved::ValueSet => "value_set",
    }
}

const SIGNS: [Sign; 38] = [
    Sign::Mask,
    Sign::SaturatingPlus,
    Sign::SaturatingMinus,
    Sign::ShiftLeft,
    Sign::ShiftRight,
    Sign::AtMost,
    Sign::AtLeast,
    Sign::Equal,
    Sign::NotEqual,
    Sign::And,
    Sign::Or,
    Sign::Concat,
    Sign::Range,
    Sign::Plus,
    Sign::Minus,
    Sign::Star,
    Sign::Slash,
    Sign::Percent,
    Sign::Ampersand,
    Sign::Bar,
    Sign::Caret,
    Sign::Tilde,
    Sign::Not,
    Sign::Less,
    Sign::Greater,
    Sign::Assign,
    Sign::LeftParen,
    Sign::RightParen,
    Sign::LeftBrace,
    Sign::RightBrace,
    Sign::LeftBracket,
    Sign::RightBracket,
    Sign::Comma,
    Sign::Semicolon,
    Sign::Colon,
    Sign::Dot,
    Sign::Question,
    Sign::Underscore,
];

/// The first of the words that is spelled so.
fn sign_among(words: &[Sign], spelling: &[u8]) -> Option<Sign>
    ensures { result ≡ find (λ word. bytes_eq (sign_spelling word) spelling.now) words.now }
{
    words
        .iter()
        .copied()
        .find(|word| sign_spelling(*word).as_bytes() == spelling)
}

/// How the sign is written.
pub fn sign_spelling(word: Sign) -> &'static str
    ensures { result.now ≡ sign_spelling word }
{
    match word {
        Sign::Mask => "&&&",
        Sign::SaturatingPlus => "|+|",
        Sign::SaturatingMinus => "|-|",
        Sign::ShiftLeft => "<<",
        Sign::ShiftRight => ">>",
        Sign::AtMost => "<=",
        Sign::AtLeast => ">=",
        Sign::Equal => "==",
        Sign::NotEqual => "!=",
        Sign::And => "&&",
        Sign::Or => "||",
        Sign::Concat => "++",
        Sign::Range => "..",
        Sign::Plus => "+",
        Sign::Minus => "-",
        Sign::Star => "*",
        Sign::Slash => "/",
        Sign::Percent => "%",
        Sign::Ampersand => "&",
        Sign::Bar => "|",
        Sign::Caret => "^",
        Sign::Tilde => "~",
        Sign::Not => "!",
        Sign::Less => "<",
        Sign::Greater => ">",
        Sign::Assign => "=",
        Sign::LeftParen => "(",
        Sign::RightParen => ")",
        Sign::LeftBrace => "{",
        Sign::RightBrace => "}",
        Sign::LeftBracket => "[",
        Sign::RightBracket => "]",
        Sign::Comma => ",",
        Sign::Semicolon => ";",
        Sign::Colon => ":",
        Sign::Dot => ".",
        Sign::Question => "?",
        Sign::Underscore => "_",
    }
}
