//! Tokens: the words that the grammar reads, each with its place.

use sqlite_items::Items;
use tg_base::{Literal, Span};

/// The keywords of the language.
#[derive(Clone, Copy, Debug, PartialEq, Eq)]
pub enum Keyword {
    Action,
    Actions,
    Apply,
    Bit,
    Bool,
    Const,
    Control,
    Default,
    Else,
    Entries,
    Enum,
    Error,
    Exit,
    False,
    Header,
    If,
    In,
    Inout,
    Int,
    Key,
    Out,
    Parser,
    Return,
    Select,
    State,
    Struct,
    Switch,
    Table,
    Transition,
    True,
    Typedef,
}

/// Words that the language keeps, and that stand in no form of the profile.
#[derive(Clone, Copy, Debug, PartialEq, Eq)]
pub enum Reserved {
    Extern,
    Package,
    Varbit,
    HeaderUnion,
    Tuple,
    Void,
    MatchKind,
    ValueSet,
}

/// The signs of the language.
#[derive(Clone, Copy, Debug, PartialEq, Eq)]
pub enum Sign {
    Mask,
    SaturatingPlus,
    SaturatingMinus,
    ShiftLeft,
    ShiftRight,
    AtMost,
    AtLeast,
    Equal,
    NotEqual,
    And,
    Or,
    Concat,
    Range,
    Plus,
    Minus,
    Star,
    Slash,
    Percent,
    Ampersand,
    Bar,
    Caret,
    Tilde,
    Not,
    Less,
    Greater,
    Assign,
    LeftParen,
    RightParen,
    LeftBrace,
    RightBrace,
    LeftBracket,
    RightBracket,
    Comma,
    Semicolon,
    Colon,
    Dot,
    Question,
    Underscore,
}

/// The bytes of a name or a string.
pub type Text = Items<u8>;

/// What a token is.
#[derive(Debug, Drop)]
pub enum Word {
    Keyword(Keyword),
    Reserved(Reserved),
    Sign(Sign),
    /// A name that is no type's, or any word behind a `.`.
    Id(Text),
    /// The name of a type.
    TypeName(Text),
    /// The name of a type, or `error`, before a `.`.
    Base(Text),
    Int(Literal),
    /// A string, without its quotation marks.
    Text(Text),
    /// `@name("text")`.
    Named(Text),
    DefaultOnly,
    TableOnly,
    /// `lookahead` behind a `.` and before a `<`.
    Lookahead,
    /// The `<` that opens the arguments of a type.
    OpenArguments,
    /// The `>` that closes them.
    CloseArguments,
}

/// A word of the source, and the place where it stands. A word that a macro put there has the place of the
/// macro's name.
#[derive(Debug, Drop)]
pub struct Token {
    pub word: Word,
    pub span: Span,
}

/// The tokens of a source, and the place behind its last byte.
#[derive(Debug, Drop)]
pub struct Tokens {
    pub tokens: Items<Token>,
    pub end: Span,
}
