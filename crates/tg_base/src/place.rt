//! Places in a source, and the codes under which a source is refused.
ghost use Rattle.std.specs.Prelude.{◌≡◌, Some};
ghost use Rattle.tg_base.specs.Code.{number_of, name_of};

use std::fmt;

/// A place in a source: a line, and a byte of it, both from 1.
#[derive(Clone, Copy, Debug, PartialEq, Eq, PartialOrd, Ord, Hash)]
pub struct Span {
    pub line: u32,
    pub column: u32,
}

/// Why a source is refused.
#[derive(Clone, Copy, Debug, PartialEq, Eq, PartialOrd, Ord, Hash)]
pub enum Code {
    /// The bytes are not UTF-8.
    NotText,
    /// Some characters begin no word of the language, or a comment or a string goes on to the end.
    Lex,
    /// A line that begins with `#` is no directive of the profile, or a condition is not ended.
    Directive,
    /// The words are in no form that the grammar has.
    Syntax,
    /// Too many constructs are open around a word.
    TooDeep,
    /// A count passes its limit.
    Limit,
    /// A name is not declared before its use, or declared twice in one scope.
    Name,
    /// A compile-time value is missing, or outside what its place takes.
    Constant,
    /// A typing rule fails; printed `Type`.
    Typing,
    /// A form of the language that the profile leaves out.
    Unsupported,
    /// `main` is missing or not the only one, or its blocks do not fit the switch.
    Package,
    /// The generator does not build such a source yet.
    NotBuilt,
}

impl Code {
    /// The number that a note prints.
    pub fn number(self) -> u8
        ensures { result ≡ number_of self }
    {
        match self {
            Code::NotText => 10,
            Code::Lex => 11,
            Code::Directive => 12,
            Code::Syntax => 13,
            Code::TooDeep => 14,
            Code::Limit => 15,
            Code::Name => 16,
            Code::Constant => 17,
            Code::Typing => 18,
            Code::Unsupported => 19,
            Code::Package => 20,
            Code::NotBuilt => 21,
        }
    }

    /// The name that a note prints.
    pub fn name(self) -> &'static str
        ensures { result.now ≡ name_of self }
    {
        match self {
            Code::NotText => "NotText",
            Code::Lex => "Lex",
            Code::Directive => "Directive",
            Code::Syntax => "Syntax",
            Code::TooDeep => "TooDeep",
            Code::Limit => "Limit",
            Code::Name => "Name",
            Code::Constant => "Constant",
            Code::Typing => "Type",
            Code::Unsupported => "Unsupported",
            Code::Package => "Package",
            Code::NotBuilt => "NotBuilt",
        }
    }
}

impl fmt::Display for Code {
    ghost output = { λ code. Some (name_of code) };

    fn fmt<W: fmt::Write>(&self, f: &mut fmt::Formatter<W>) -> fmt::Result {
        f.write_str(self.name())
    }
}

/// A source is refused: why, and where.
#[derive(Clone, Copy, Debug, PartialEq, Eq, PartialOrd, Ord, Hash)]
pub struct Refusal {
    pub code: Code,
    pub line: u32,
    pub column: u32,
}
