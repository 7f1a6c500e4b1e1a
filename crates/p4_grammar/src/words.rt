//! The symbol of each word.

ghost use Rattle.std.specs.Prelude.{◌≡◌};
ghost use Rattle.p4_grammar.specs.Words.{keyword_symbol, sign_symbol, terminal_of};

use crate::symbols::*;
use ll1_engine::Symbol;
use p4_lexer::{Keyword, Sign, Word};

/// The symbol that a word is in the grammar.
pub fn terminal_of(word: &Word) -> Symbol
    ensures { result ≡ terminal_of word.now }
{
    match word {
        Word::Keyword(keyword) => keyword_symbol(*keyword),
        Word::Sign(sign) => sign_symbol(*sign),
        Word::Reserved(_) => RESERVED,
        Word::Id(_) => ID,
        Word::TypeName(_) => TYPE_NAME,
        Word::Base(_) => BASE,
        Word::Int(_) => INT_LITERAL,
        Word::Text(_) => TEXT,
        Word::Named(_) => NAMED,
        Word::DefaultOnly => DEFAULT_ONLY,
        Word::TableOnly => TABLE_ONLY,
        Word::Lookahead => LOOKAHEAD,
        Word::OpenArguments => OPEN_ARGUMENTS,
        Word::CloseArguments => CLOSE_ARGUMENTS,
    }
}

fn keyword_symbol(keyword: Keyword) -> Symbol
    ensures { result ≡ keyword_symbol keyword }
{
    match keyword {
        Keyword::Action => KEYWORD_ACTION,
        Keyword::Actions => KEYWORD_ACTIONS,
        Keyword::Apply => KEYWORD_APPLY,
        Keyword::Bit => KEYWORD_BIT,
        Keyword::Bool => KEYWORD_BOOL,
        Keyword::Const => KEYWORD_CONST,
        Keyword::Control => KEYWORD_CONTROL,
        Keyword::Default => KEYWORD_DEFAULT,
        Keyword::Else => KEYWORD_ELSE,
        Keyword::Entries => KEYWORD_ENTRIES,
        Keyword::Enum => KEYWORD_ENUM,
        Keyword::Error => KEYWORD_ERROR,
        Keyword::Exit => KEYWORD_EXIT,
        Keyword::False => KEYWORD_FALSE,
        Keyword::Header => KEYWORD_HEADER,
        Keyword::If => KEYWORD_IF,
        Keyword::In => KEYWORD_IN,
        Keyword::Inout => KEYWORD_INOUT,
        Keyword::Int => KEYWORD_INT,
        Keyword::Key => KEYWORD_KEY,
        Keyword::Out => KEYWORD_OUT,
        Keyword::Parser => KEYWORD_PARSER,
        Keyword::Return => KEYWORD_RETURN,
        Keyword::Select => KEYWORD_SELECT,
        Keyword::State => KEYWORD_STATE,
        Keyword::Struct => KEYWORD_STRUCT,
        Keyword::Switch => KEYWORD_SWITCH,
        Keyword::Table => KEYWORD_TABLE,
        Keyword::Transition => KEYWORD_TRANSITION,
        Keyword::True => KEYWORD_TRUE,
        Keyword::Typedef => KEYWORD_TYPEDEF,
    }
}

fn sign_symbol(sign: Sign) -> Symbol
    ensures { result ≡ sign_symbol sign }
{
    match sign {
        Sign::Mask => SIGN_MASK,
        Sign::SaturatingPlus => SIGN_SATURATING_PLUS,
        Sign::SaturatingMinus => SIGN_SATURATING_MINUS,
        Sign::ShiftLeft => SIGN_SHIFT_LEFT,
        Sign::ShiftRight => SIGN_SHIFT_RIGHT,
        Sign::AtMost => SIGN_AT_MOST,
        Sign::AtLeast => SIGN_AT_LEAST,
        Sign::Equal => SIGN_EQUAL,
        Sign::NotEqual => SIGN_NOT_EQUAL,
        Sign::And => SIGN_AND,
        Sign::Or => SIGN_OR,
        Sign::Concat => SIGN_CONCAT,
        Sign::Range => SIGN_RANGE,
        Sign::Plus => SIGN_PLUS,
        Sign::Minus => SIGN_MINUS,
        Sign::Star => SIGN_STAR,
        Sign::Slash => SIGN_SLASH,
        Sign::Percent => SIGN_PERCENT,
        Sign::Ampersand => SIGN_AMPERSAND,
        Sign::Bar => SIGN_BAR,
        Sign::Caret => SIGN_CARET,
        Sign::Tilde => SIGN_TILDE,
        Sign::Not => SIGN_NOT,
        Sign::Less => SIGN_LESS,
        Sign::Greater => SIGN_GREATER,
        Sign::Assign => SIGN_ASSIGN,
        Sign::LeftParen => SIGN_LEFT_PAREN,
        Sign::RightParen => SIGN_RIGHT_PAREN,
        Sign::LeftBrace => SIGN_LEFT_BRACE,
        Sign::RightBrace => SIGN_RIGHT_BRACE,
        Sign::LeftBracket => SIGN_LEFT_BRACKET,
        Sign::RightBracket => SIGN_RIGHT_BRACKET,
        Sign::Comma => SIGN_COMMA,
        Sign::Semicolon => SIGN_SEMICOLON,
        Sign::Colon => SIGN_COLON,
        Sign::Dot => SIGN_DOT,
        Sign::Question => SIGN_QUESTION,
        Sign::Underscore => SIGN_UNDERSCORE,
    }
}
