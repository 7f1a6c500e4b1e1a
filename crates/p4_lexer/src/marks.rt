//! How words become tokens: which names are types, and which `<` and `>` enclose the arguments of a type.
ghost use Rattle.std.specs.Prelude.{◌≡◌, ◌↔◌, ℕ, List, [], ◌∷◌, ◌++◌, codes, map, OnOk, IfOk, IsTrue, ◌||◌, ◌&&◌, ◌<◌};
ghost use Rattle.std.specs.List.{AllByRecursion, list_any};
ghost use Rattle.std.specs.Str.{bytes_eq};
ghost use Rattle.p4_lexer.specs.Extents.{IsIn, bytes_at, bare_at, cut_at, placed_at};
ghost use Rattle.p4_lexer.specs.declared.token.Token.{Token as TokenOf};
ghost use Rattle.p4_lexer.specs.declared.extents.Bare.TheVariants.{Plain as PlainAt};
ghost use Rattle.p4_lexer.specs.Bytes.{quotation_mark};
ghost use Rattle.p4_lexer.specs.Words.{IsText};
ghost use Rattle.p4_lexer.specs.Signs.{IsSign};
ghost use Rattle.p4_lexer.specs.Spellings.{sign_spelling};
ghost use Rattle.p4_lexer.specs.Names.{has};
ghost use Rattle.p4_lexer.specs.Behind.{is_first_type, takes_arguments, in_arguments, behind_of};
ghost use Rattle.p4_lexer.specs.Brackets.{InArguments};
ghost use Rattle.p4_lexer.specs.Annotations.{Bare as BareWord, Plain};
ghost use Rattle.p4_lexer.specs.Marking.{Follows, IsBareOf, HasRoom, IsNotCut, Leads, left_word, left_place, member_mark, keyword_mark, plain_mark, less_mark, sign_mark, head_is_greater, begins_with_greater};
ghost use Rattle.p4_lexer.specs.Marks.{sign_cut, BeginsWithGreater, SignIsNext, IsMarkOfName, IsMarkOf, Become, place_of};

use crate::behind::{Kept, is_dot, takes_arguments};
use crate::extents::{Bare, Extent, PieceAt, WordAt, bytes_of};
use crate::names::Names;
use crate::piece::Kind;
use crate::spellings::{keyword_of, reserved_of, sign_of, sign_spelling};
use crate::token::{Keyword, Sign, Text, Token, Word};
use crate::values::literal;
use sqlite_items::Items;
use std::alloc::{AllocError, Global};
use tg_base::Span;

/// The tokens that the words of a text become.
pub(crate) fn marked(alloc: Global, text: &[u8], bare: &[Bare]) -> Result<Items<Token>, AllocError>
    requires words { AllByRecursion (IsBareOf text.now) bare.now }
    requires room { AllByRecursion HasRoom bare.now }
    ensures are { IfOk result (λ tokens. Become [] (map (bare_at text.now) bare.now) tokens) }
    ensures only { IfOk result (λ tokens. (others : List TokenOf)
        → Become [] (map (bare_at text.now) bare.now) others → others ≡ tokens) }
{
    let mut marker = Marker::new(alloc);
    for i in 0..bare.len() {
        marker.push_bare(alloc, text, &bare[i], &bare[i + 1..])?;
    }
    let Marker { tokens, .. } = marker;
    Ok(tokens)
}

/// The tokens so far, and what is kept of them.
#[derive(Drop)]
pub(crate) struct Marker {
    tokens: Items<Token>,
    kept: Kept,
    /// The names that became types.
    types: Names,
}

impl Marker {
    fn new(alloc: Global) -> Marker
        ensures tokens { result.tokens ≡ [] }
        ensures follows { Follows result }
    {
        Marker {
            tokens: Items::new(alloc),
            kept: Kept::new(alloc),
            types: Names::new(alloc),
        }
    }

    /// Adds a token.
    fn push(&mut self, alloc: Global, word: Word, span: Span) -> Result<(), AllocError>
        requires { Follows self.old }
        ensures tokens { OnOk result
            (self.new.tokens ≡ self.old.tokens ++ record { word = word; span = span } ∷ []) }
        ensures follows { OnOk result (Follows self.new) }
    {
        self.kept.declare(alloc, &mut self.types, &word)?;
        self.kept.step(alloc, &word)?;
        self.tokens.push(Token { word, span })
    }

    /// What a name is, where these words stand behind it.
    fn name_mark(
        &self,
        alloc: Global,
        text: &[u8],
        name: &[u8],
        rest: &[Bare],
    ) -> Result<Word, AllocError>
        requires follows { Follows self.now }
        requires rest { AllByRecursion (IsBareOf text.now) rest.now }
        ensures { IfOk result (λ mark.
            IsMarkOfName self.now.tokens name.now (map (bare_at text.now) rest.now) mark) }
    {
        if is_dot(self.kept.last) {
            return member_mark(alloc, name, sign_is_next(text, rest, Sign::Less));
        }
        let point = sign_is_next(text, rest, Sign::Dot);
        if let Some(keyword) = keyword_of(name) {
            return keyword_mark(alloc, name, point, keyword);
        }
        if let Some(reserved) = reserved_of(name) {
            return Ok(Word::Reserved(reserved));
        }
        plain_mark(alloc, name, self.is_type(name), point)
    }

    /// The name is a type.
    fn is_type(&self, name: &[u8]) -> bool
        ensures { result ≡ (is_first_type name.now || has self.now.types name.now) }
    {
        is_first_type(name) || self.types.contains(name)
    }

    /// What a word is, where these words stand behind it.
    fn word_mark(
        &self,
        alloc: Global,
        text: &[u8],
        word: &WordAt,
        rest: &[Bare],
    ) -> Result<Word, AllocError>
        requires follows { Follows self.now }
        requires word { IsBareOf text.now (PlainAt word.now) }
        requires rest { AllByRecursion (IsBareOf text.now) rest.now }
        ensures { IfOk result (λ mark. IsMarkOf self.now.tokens
            (Plain (placed_at text.now word.now)) (map (bare_at text.now) rest.now) mark) }
    {
        let bytes = bytes_of(text, word.piece.extent);
        match word.piece.kind {
            Kind::Name => self.name_mark(alloc, text, bytes, rest),
            Kind::Number => Ok(Word::Int(literal(alloc, bytes)?)),
            Kind::Text => Ok(Word::Text(Text::from_slice(alloc, inside(bytes))?)),
            _ => Ok(self.sign_mark(the_sign(bytes))),
        }
    }

    /// What a sign is.
    fn sign_mark(&self, sign: Sign) -> Word
        ensures { result ≡ sign_mark (takes_arguments self.now.kept.last) sign }
    {
        match sign {
            Sign::Less => self.less_mark(),
            _ => Word::Sign(sign),
        }
    }

    fn less_mark(&self) -> Word
        ensures { result ≡ less_mark (takes_arguments self.now.kept.last) }
    {
        if takes_arguments(self.kept.last) {
            Word::OpenArguments
        } else {
            Word::Sign(Sign::Less)
        }
    }

    /// What a token is, where these words stand behind it.
    fn mark(
        &self,
        alloc: Global,
        text: &[u8],
        bare: &Bare,
        rest: &[Bare],
    ) -> Result<Word, AllocError>
        requires follows { Follows self.now }
        requires bare { IsBareOf text.now bare.now }
        requires rest { AllByRecursion (IsBareOf text.now) rest.now }
        ensures { IfOk result (λ mark. IsMarkOf self.now.tokens
            (bare_at text.now bare.now) (map (bare_at text.now) rest.now) mark) }
    {
        match bare {
            Bare::Plain(word) => self.word_mark(alloc, text, word, rest),
            Bare::Named(extent, _) => {
                let owned = Text::from_slice(alloc, bytes_of(text, *extent))?;
                Ok(Word::Named(owned))
            }
            Bare::DefaultOnly(_) => Ok(Word::DefaultOnly),
            Bare::TableOnly(_) => Ok(Word::TableOnly),
        }
    }
}

impl Marker {
    /// The word is cut behind its first byte, which closes the arguments of a type.
    fn is_cut(&self, text: &[u8], piece: PieceAt) -> bool
        requires { IsIn text.now piece.extent }
        ensures { result ≡ (in_arguments (behind_of self.now.kept).open_
            && begins_with_greater (cut_at text.now piece)) }
    {
        self.kept.in_arguments() && begins_with_greater(text, piece)
    }

    /// Adds what a token becomes that is not cut.
    fn push_whole(
        &mut self,
        alloc: Global,
        text: &[u8],
        bare: &Bare,
        rest: &[Bare],
    ) -> Result<(), AllocError>
        requires follows { Follows self.old }
        requires bare { IsBareOf text.now bare.now }
        requires rest { AllByRecursion (IsBareOf text.now) rest.now }
        requires whole { IsNotCut self.old.tokens (bare_at text.now bare.now) }
        ensures follows { OnOk result (Follows self.new) }
        ensures leads { OnOk result (Leads
            self.old.tokens (bare_at text.now bare.now ∷ map (bare_at text.now) rest.now)
            self.new.tokens (map (bare_at text.now) rest.now)) }
    {
        let word = self.mark(alloc, text, bare, rest)?;
        self.push(alloc, word, place_of(bare))
    }

    /// Adds what a word becomes of which nothing is left where it is cut.
    fn push_short(
        &mut self,
        alloc: Global,
        text: &[u8],
        word: &WordAt,
        rest: &[Bare],
    ) -> Result<(), AllocError>
        requires follows { Follows self.old }
        requires word { IsBareOf text.now (PlainAt word.now) }
        requires rest { AllByRecursion (IsBareOf text.now) rest.now }
        requires short { (left : List ℕ) → BeginsWithGreater (placed_at text.now word.now) left
            → InArguments self.old.tokens → left ≡ [] }
        ensures follows { OnOk result (Follows self.new) }
        ensures leads { OnOk result (Leads
            self.old.tokens (Plain (placed_at text.now word.now) ∷ map (bare_at text.now) rest.now)
            self.new.tokens (map (bare_at text.now) rest.now)) }
    {
        if self.is_cut(text, word.piece) {
            return self.push(alloc, Word::CloseArguments, word.place);
        }
        self.push_whole(alloc, text, &Bare::Plain(*word), rest)
    }

    /// Adds what a word becomes: two tokens, where it is cut and something is left.
    fn push_word(
        &mut self,
        alloc: Global,
        text: &[u8],
        word: &WordAt,
        rest: &[Bare],
    ) -> Result<(), AllocError>
        requires follows { Follows self.old }
        requires word { IsBareOf text.now (PlainAt word.now) }
        requires room { HasRoom (PlainAt word.now) }
        requires rest { AllByRecursion (IsBareOf text.now) rest.now }
        ensures follows { OnOk result (Follows self.new) }
        ensures leads { OnOk result (Leads
            self.old.tokens (Plain (placed_at text.now word.now) ∷ map (bare_at text.now) rest.now)
            self.new.tokens (map (bare_at text.now) rest.now)) }
    {
        if word.piece.extent.len > 1 && self.is_cut(text, word.piece) {
            self.push(alloc, Word::CloseArguments, word.place)?;
            let left = left_word(text, word);
            return self.push_short(alloc, text, &left, rest);
        }
        self.push_short(alloc, text, word, rest)
    }

    /// Adds what a token becomes.
    fn push_bare(
        &mut self,
        alloc: Global,
        text: &[u8],
        bare: &Bare,
        rest: &[Bare],
    ) -> Result<(), AllocError>
        requires follows { Follows self.old }
        requires bare { IsBareOf text.now bare.now }
        requires room { HasRoom bare.now }
        requires rest { AllByRecursion (IsBareOf text.now) rest.now }
        ensures follows { OnOk result (Follows self.new) }
        ensures leads { OnOk result (Leads
            self.old.tokens (bare_at text.now bare.now ∷ map (bare_at text.now) rest.now)
            self.new.tokens (map (bare_at text.now) rest.now)) }
    {
        match bare {
            Bare::Plain(word) => self.push_word(alloc, text, word, rest),
            _ => self.push_whole(alloc, text, bare, rest),
        }
    }
}

/// What is left of a word behind its first byte. A word of a replacement keeps its place.
fn left_word(text: &[u8], word: &WordAt) -> WordAt
    requires extent { IsIn text.now word.now.piece.extent }
    requires room { HasRoom (PlainAt word.now) }
    requires long { 1 < word.now.piece.extent.len }
    ensures { result ≡ left_word word.now }
{
    let extent = word.piece.extent;
    WordAt {
        piece: PieceAt {
            kind: Kind::Sign,
            extent: Extent {
                at: extent.at + 1,
                len: extent.len - 1,
            },
        },
        place: left_place(word),
        replacement: word.replacement,
    }
}

fn left_place(word: &WordAt) -> Span
    requires { HasRoom (PlainAt word.now) }
    ensures { result ≡ left_place word.now }
{
    if word.replacement {
        return word.place;
    }
    Span {
        line: word.place.line,
        column: word.place.column + 1,
    }
}

const FIRST_TYPES: [&str; 11] = [
    "packet_in",
    "packet_out",
    "standard_metadata_t",
    "V1Switch",
    "counter",
    "direct_counter",
    "meter",
    "register",
    "HashAlgorithm",
    "CounterType",
    "MeterType",
];

/// The name is a type from the start.
fn is_first_type(name: &[u8]) -> bool
    ensures { result ≡ is_first_type name.now }
{
    is_among(&FIRST_TYPES, name)
}

fn is_among(names: &[&str], name: &[u8]) -> bool
    ensures { result ≡ list_any (λ other. bytes_eq other.now name.now) names.now }
{
    names.iter().copied().any(|other| other.as_bytes() == name)
}

/// The piece is this sign.
fn is_sign(text: &[u8], piece: PieceAt, sign: Sign) -> bool
    requires { IsIn text.now piece.extent }
    ensures { IsTrue result ↔ (cut_at text.now piece ≡ sign_cut sign) }
{
    piece.kind == Kind::Sign && bytes_of(text, piece.extent) == sign_spelling(sign).as_bytes()
}

/// The sign stands next.
fn sign_is_next(text: &[u8], rest: &[Bare], sign: Sign) -> bool
    requires { AllByRecursion (IsBareOf text.now) rest.now }
    ensures { IsTrue result ↔ SignIsNext sign (map (bare_at text.now) rest.now) }
{
    match rest {
        [next, ..] => bare_is_sign(text, next, sign),
        [] => false,
    }
}

/// The token is this sign.
fn bare_is_sign(text: &[u8], bare: &Bare, sign: Sign) -> bool
    requires { IsBareOf text.now bare.now }
    ensures { (rest : List BareWord)
        → IsTrue result ↔ SignIsNext sign (bare_at text.now bare.now ∷ rest) }
{
    match bare {
        Bare::Plain(word) => is_sign(text, word.piece, sign),
        _ => false,
    }
}

/// The mark of a name behind a `.`.
fn member_mark(alloc: Global, name: &[u8], less: bool) -> Result<Word, AllocError>
    ensures { IfOk result (λ mark.
        mark ≡ member_mark name.now (bytes_eq name.now (codes "lookahead")) less) }
{
    if name == "lookahead".as_bytes() && less {
        return Ok(Word::Lookahead);
    }
    Ok(Word::Id(Text::from_slice(alloc, name)?))
}

/// The mark of a keyword.
fn keyword_mark(
    alloc: Global,
    name: &[u8],
    point: bool,
    keyword: Keyword,
) -> Result<Word, AllocError>
    ensures { IfOk result (λ mark. mark ≡ keyword_mark name.now point keyword) }
{
    match keyword {
        Keyword::Error if point => Ok(Word::Base(Text::from_slice(alloc, name)?)),
        _ => Ok(Word::Keyword(keyword)),
    }
}

/// The mark of a name that the language does not keep.
fn plain_mark(alloc: Global, name: &[u8], is_type: bool, point: bool) -> Result<Word, AllocError>
    ensures { IfOk result (λ mark. mark ≡ plain_mark name.now is_type point) }
{
    let owned = Text::from_slice(alloc, name)?;
    if !is_type {
        return Ok(Word::Id(owned));
    }
    if point {
        return Ok(Word::Base(owned));
    }
    Ok(Word::TypeName(owned))
}

/// What stands between the quotation marks of a string.
fn inside(bytes: &[u8]) -> &[u8]
    requires { IsText bytes.now }
    ensures { bytes.now ≡ quotation_mark ∷ result.now ++ quotation_mark ∷ [] }
{
    &bytes[1..bytes.len() - 1]
}

/// The sign that is spelled so.
fn the_sign(bytes: &[u8]) -> Sign
    requires { IsSign bytes.now }
    ensures { bytes.now ≡ sign_spelling result }
{
    match sign_of(bytes) {
        Some(sign) => sign,
        None => unreachable!(),
    }
}

/// The piece is a sign that begins with `>`.
fn begins_with_greater(text: &[u8], piece: PieceAt) -> bool
    requires { IsIn text.now piece.extent }
    ensures { result ≡ begins_with_greater (cut_at text.now piece) }
{
    piece.kind == Kind::Sign && head_is_greater(bytes_of(text, piece.extent))
}

fn head_is_greater(bytes: &[u8]) -> bool
    ensures { result ≡ head_is_greater bytes.now }
{
    match bytes {
        [first, ..] => *first == b'>',
        [] => false,
    }
}

/// The place of a token.
fn place_of(bare: &Bare) -> Span
    ensures { (text : List ℕ) → result ≡ place_of (bare_at text bare.now) }
{
    match bare {
        Bare::Plain(word) => word.place,
        Bare::Named(_, place) => *place,
        Bare::DefaultOnly(place) => *place,
        Bare::TableOnly(place) => *place,
    }
}
