//! What is kept of the tokens so far while words are marked from left to right.
ghost use Rattle.std.specs.Prelude.{◌≡◌, ℕ, List, ◌||◌, OnOk, reverse};
ghost use Rattle.p4_lexer.specs.Names.{has};
ghost use Rattle.p4_lexer.specs.Behind.{start, step, last_behind, behind_keyword, behind_bit, behind_dot, behind_type, closed, with_word, with_sign, close_other, close_arguments, opened_by, definition_behind, begun, with_name, behind_of, innermost, in_arguments, is_dot, takes_arguments, names_next, named_type, ended, new_type, is_name};

use crate::names::Names;
use crate::token::{Keyword, Sign, Text, Word};
use sqlite_items::Items;
use std::alloc::{AllocError, Global};

/// What the last token makes of the word behind it.
#[derive(Clone, Copy)]
pub(crate) enum Last {
    Other,
    Dot,
    /// `int`, `register`, `lookahead`, or `bit` where no `enum` stands before it.
    TakesArguments,
    /// A keyword before the name that it declares, but not `enum`.
    Declares,
    Enum,
    /// `enum bit`.
    EnumBit,
    /// The `>` of `enum bit<..>`.
    Width,
}

/// A bracket that is open.
#[derive(Clone, Copy)]
pub(crate) enum Open {
    /// The `<` of a type's arguments.
    Arguments,
    /// The `<` of `enum bit<`.
    Width,
    Other,
}

/// Where a `typedef` stands that is not ended.
#[derive(Drop)]
pub(crate) enum Definition {
    Outside,
    /// Behind the `typedef`, with no name so far.
    Inside,
    /// With the last name.
    Named(Text),
}

/// What is kept: the brackets with the innermost last.
#[derive(Drop)]
pub(crate) struct Kept {
    pub(crate) last: Last,
    pub(crate) open_: Items<Open>,
    pub(crate) definition: Definition,
}

impl Kept {
    pub(crate) fn new(alloc: Global) -> Kept
        ensures { behind_of result ≡ start }
    {
        Kept {
            last: Last::Other,
            open_: Items::new(alloc),
            definition: Definition::Outside,
        }
    }

    /// The arguments of a type are the innermost bracket.
    pub(crate) fn in_arguments(&self) -> bool
        ensures { result ≡ in_arguments (behind_of self.now).open_ }
    {
        matches!(
            innermost(self.open_.as_slice()),
            Some(Open::Arguments | Open::Width)
        )
    }

    /// Adds the name that the word makes a type, if it makes one.
    pub(crate) fn declare(
        &self,
        alloc: Global,
        types: &mut Names,
        word: &Word,
    ) -> Result<(), AllocError>
        ensures { OnOk result ((name : List ℕ) → has types.new name
            ≡ (is_name (new_type (behind_of self.now) word.now) name || has types.old name)) }
    {
        match word {
            Word::Id(name) => self.declare_name(alloc, types, name.as_slice()),
            Word::TypeName(name) => self.declare_name(alloc, types, name.as_slice()),
            Word::Base(name) => self.declare_name(alloc, types, name.as_slice()),
            Word::Sign(Sign::Semicolon) => self.define(alloc, types),
            _ => Ok(()),
        }
    }

    fn declare_name(&self, alloc: Global, types: &mut Names, name: &[u8]) -> Result<(), AllocError>
        ensures { OnOk result ((other : List ℕ) → has types.new other
            ≡ (is_name (named_type (names_next self.now.last) name.now) other
            || has types.old other)) }
    {
        if names_next(self.last) {
            types.insert(alloc, name)?;
        }
        Ok(())
    }

    fn define(&self, alloc: Global, types: &mut Names) -> Result<(), AllocError>
        ensures { OnOk result ((other : List ℕ) → has types.new other
            ≡ (is_name (ended self.now.definition) other || has types.old other)) }
    {
        if let Definition::Named(name) = &self.definition {
            types.insert(alloc, name.as_slice())?;
        }
        Ok(())
    }

    /// Goes on behind one more word.
    pub(crate) fn step(&mut self, alloc: Global, word: &Word) -> Result<(), AllocError>
        ensures { OnOk result (behind_of self.new ≡ step (behind_of self.old) word.now) }
    {
        let last = last_behind(self.last, self.open_.as_slice(), word);
        with_word(self.last, &mut self.open_, word)?;
        self.definition.step(alloc, word)?;
        self.last = last;
        Ok(())
    }
}

impl Definition {
    fn step(&mut self, alloc: Global, word: &Word) -> Result<(), AllocError>
        ensures { OnOk result (self.new ≡ definition_behind self.old word.now) }
    {
        match word {
            Word::Keyword(Keyword::Typedef) => self.begin(),
            Word::Sign(Sign::Semicolon) => *self = Definition::Outside,
            Word::Id(name) => self.name(alloc, name.as_slice())?,
            Word::TypeName(name) => self.name(alloc, name.as_slice())?,
            Word::Base(name) => self.name(alloc, name.as_slice())?,
            _ => {}
        }
        Ok(())
    }

    fn begin(&mut self)
        ensures { self.new ≡ begun self.old }
    {
        if let Definition::Outside = self {
            *self = Definition::Inside;
        }
    }

    fn name(&mut self, alloc: Global, name: &[u8]) -> Result<(), AllocError>
        ensures { OnOk result (self.new ≡ with_name self.old name.now) }
    {
        if let Definition::Outside = self {
            return Ok(());
        }
        *self = Definition::Named(Text::from_slice(alloc, name)?);
        Ok(())
    }
}

/// The innermost bracket.
fn innermost(brackets: &[Open]) -> Option<Open>
    ensures { result ≡ innermost (reverse brackets.now) }
{
    match brackets {
        [.., last] => Some(*last),
        [] => None,
    }
}

pub(crate) fn is_dot(last: Last) -> bool
    ensures { result ≡ is_dot last }
{
    matches!(last, Last::Dot)
}

/// A `<` opens the arguments of a type.
pub(crate) fn takes_arguments(last: Last) -> bool
    ensures { result ≡ takes_arguments last }
{
    matches!(last, Last::TakesArguments | Last::EnumBit)
}

/// A name is a type from the next word on.
pub(crate) fn names_next(last: Last) -> bool
    ensures { result ≡ names_next last }
{
    matches!(last, Last::Declares | Last::Enum | Last::Width)
}

/// What a word makes of the next one.
fn last_behind(last: Last, brackets: &[Open], word: &Word) -> Last
    ensures { result ≡ last_behind last (reverse brackets.now) word.now }
{
    match word {
        Word::Keyword(keyword) => behind_keyword(last, *keyword),
        Word::Sign(sign) => behind_sign(*sign),
        Word::TypeName(name) => behind_type(name.as_slice()),
        Word::Lookahead => Last::TakesArguments,
        Word::CloseArguments => behind_close(innermost(brackets)),
        _ => Last::Other,
    }
}

fn behind_keyword(last: Last, keyword: Keyword) -> Last
    ensures { result ≡ behind_keyword last keyword }
{
    match keyword {
        Keyword::Bit => behind_bit(last),
        Keyword::Int => Last::TakesArguments,
        Keyword::Struct | Keyword::Header | Keyword::Parser | Keyword::Control => Last::Declares,
        Keyword::Enum => Last::Enum,
        _ => Last::Other,
    }
}

fn behind_bit(last: Last) -> Last
    ensures { result ≡ behind_bit last }
{
    match last {
        Last::Enum => Last::EnumBit,
        _ => Last::TakesArguments,
    }
}

fn behind_sign(sign: Sign) -> Last
    ensures { result ≡ behind_dot sign }
{
    match sign {
        Sign::Dot => Last::Dot,
        _ => Last::Other,
    }
}

fn behind_type(name: &[u8]) -> Last
    ensures { result ≡ behind_type name.now }
{
    if name == "register".as_bytes() {
        Last::TakesArguments
    } else {
        Last::Other
    }
}

fn behind_close(innermost: Option<Open>) -> Last
    ensures { result ≡ closed innermost }
{
    match innermost {
        Some(Open::Width) => Last::Width,
        _ => Last::Other,
    }
}

/// Ends the innermost bracket, unless it is that of a type's arguments.
fn close_other(brackets: &mut Items<Open>)
    ensures { reverse brackets.new ≡ close_other (reverse brackets.old) }
{
    if let Some(Open::Other) = innermost(brackets.as_slice()) {
        brackets.pop();
    }
}

/// Ends the arguments of a type, if they are the innermost bracket.
fn close_arguments(brackets: &mut Items<Open>)
    ensures { reverse brackets.new ≡ close_arguments (reverse brackets.old) }
{
    if let Some(Open::Arguments | Open::Width) = innermost(brackets.as_slice()) {
        brackets.pop();
    }
}

fn opened_by(last: Last) -> Open
    ensures { result ≡ opened_by last }
{
    match last {
        Last::EnumBit => Open::Width,
        _ => Open::Arguments,
    }
}

fn with_sign(brackets: &mut Items<Open>, sign: Sign) -> Result<(), AllocError>
    ensures { OnOk result (reverse brackets.new ≡ with_sign (reverse brackets.old) sign) }
{
    match sign {
        Sign::LeftParen | Sign::LeftBrace | Sign::LeftBracket => brackets.push(Open::Other)?,
        Sign::RightParen | Sign::RightBrace | Sign::RightBracket => close_other(brackets),
        _ => {}
    }
    Ok(())
}

/// The brackets that are open behind one more word.
fn with_word(last: Last, brackets: &mut Items<Open>, word: &Word) -> Result<(), AllocError>
    ensures { OnOk result
        (reverse brackets.new ≡ with_word last (reverse brackets.old) word.now) }
{
    match word {
        Word::Sign(sign) => with_sign(brackets, *sign)?,
        Word::OpenArguments => brackets.push(opened_by(last))?,
        Word::CloseArguments => close_arguments(brackets),
        _ => {}
    }
    Ok(())
}
