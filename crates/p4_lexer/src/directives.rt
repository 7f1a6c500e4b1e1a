//! Which directive the pieces of a line behind its `#` are.
ghost use Rattle.std.specs.Prelude.{◌≡◌, ◌≤◌, ◌<◌, ◌^◌, ◌↔◌, ◌∷◌, Some, ℕ, Bool, IsTrue, MatchOption, List, Option, All, drop, map, length, IfSome};
ghost use Rattle.std.specs.List.{list_all, prefix_len};
ghost use Rattle.std.specs.Option.{option_map};
ghost use Rattle.p4_lexer.specs.declared.piece.Kind.{Kind};
ghost use Rattle.p4_lexer.specs.declared.extents.Extent.{Extent};
ghost use Rattle.p4_lexer.specs.declared.extents.PieceAt.{PieceAt};
ghost use Rattle.p4_lexer.specs.Directives.{Directive, IsDirective};
ghost use Rattle.p4_lexer.specs.Extents.{bytes_at, IsIn, cut_at};
ghost use Rattle.p4_lexer.specs.DirectiveExtents.{IsPieceAt, DirectiveFits, directive_at};
ghost use Rattle.p4_lexer.specs.DirectiveSteps.{word_spelling, word_among, is_name, is_blank_kind, is_filler_kind, is_sign_kind, is_gap, are_filler, begins_with_parenthesis, is_file_alone, is_included, begins_with_name, name_index, defined_at, name_alone, directive_by, directive_of};

use crate::extents::{Extent, PieceAt, bytes_of};
use crate::piece::Kind;

/// A directive, by extents of the pieces of its line.
#[derive(Clone, Copy)]
pub(crate) enum DirectiveAt {
    Include,
    /// The name, and how many pieces stand before what is put in its place.
    Define(Extent, usize),
    Undefine(Extent),
    IfDefined(Extent),
    IfNotDefined(Extent),
    Else,
    EndIf,
}

/// The word with which a directive begins.
#[derive(Clone, Copy)]
enum DirectiveWord {
    Include,
    Define,
    Undefine,
    IfDefined,
    IfNotDefined,
    Else,
    EndIf,
}

const DIRECTIVE_WORDS: [DirectiveWord; 7] = [
    DirectiveWord::Include,
    DirectiveWord::Define,
    DirectiveWord::Undefine,
    DirectiveWord::IfDefined,
    DirectiveWord::IfNotDefined,
    DirectiveWord::Else,
    DirectiveWord::EndIf,
];

fn word_spelling(word: DirectiveWord) -> &'static str
    ensures { result.now ≡ word_spelling word }
{
    match word {
        DirectiveWord::Include => "include",
        DirectiveWord::Define => "define",
        DirectiveWord::Undefine => "undef",
        DirectiveWord::IfDefined => "ifdef",
        DirectiveWord::IfNotDefined => "ifndef",
        DirectiveWord::Else => "else",
        DirectiveWord::EndIf => "endif",
    }
}

/// The first of the words that is spelled so.
fn word_among(words: &[DirectiveWord], spelling: &[u8]) -> Option<DirectiveWord>
    ensures { result ≡ word_among words.now spelling.now }
{
    words
        .iter()
        .copied()
        .find(|word| word_spelling(*word).as_bytes() == spelling)
}

fn is_name(kind: Kind) -> bool
    ensures { result ≡ is_name kind }
{
    matches!(kind, Kind::Name)
}

fn is_blank_kind(kind: Kind) -> bool
    ensures { result ≡ is_blank_kind kind }
{
    matches!(kind, Kind::Blank)
}

fn is_filler_kind(kind: Kind) -> bool
    ensures { result ≡ is_filler_kind kind }
{
    matches!(kind, Kind::Blank | Kind::Comment | Kind::OpenComment)
}

fn is_sign_kind(kind: Kind) -> bool
    ensures { result ≡ is_sign_kind kind }
{
    matches!(kind, Kind::Sign)
}

fn is_gap(text: &[u8], piece: PieceAt) -> bool
    requires { IsIn text.now piece.extent }
    ensures { result ≡ is_gap (cut_at text.now piece) }
{
    is_blank_kind(piece.kind) && bytes_of(text, piece.extent) != b"\n".as_slice()
}

/// How many blanks of the line itself the pieces begin with.
fn gaps_len(text: &[u8], pieces: &[PieceAt]) -> usize
    requires { All (IsPieceAt text.now) pieces.now }
    ensures value { result ≡ prefix_len (λ p. is_gap (cut_at text.now p)) pieces.now }
    ensures within { result ≤ length pieces.now }
{
    for (i, piece) in pieces.iter().enumerate() {
        if !is_gap(text, *piece) {
            return i;
        }
    }
    pieces.len()
}

/// Whether the pieces are blanks and comments alone.
fn are_filler(pieces: &[PieceAt]) -> bool
    ensures { result ≡ list_all (λ p. is_filler_kind p.kind) pieces.now }
{
    pieces.iter().all(|piece| is_filler_kind(piece.kind))
}

/// Whether the pieces begin with a sign `(`.
fn begins_with_parenthesis(text: &[u8], pieces: &[PieceAt]) -> bool
    requires { All (IsPieceAt text.now) pieces.now }
    ensures { result ≡ begins_with_parenthesis (map (cut_at text.now) pieces.now) }
{
    match pieces.first() {
        Some(piece) => is_sign_kind(piece.kind) && bytes_of(text, piece.extent) == b"(".as_slice(),
        None => false,
    }
}

/// Whether the pieces have the bytes of the file, and are blanks and comments behind them.
fn is_file_alone(text: &[u8], file: &[u8], pieces: &[PieceAt]) -> bool
    requires { All (IsPieceAt text.now) pieces.now }
    ensures { result ≡ is_file_alone file.now (map (cut_at text.now) pieces.now) }
{
    let mut done = 0;
    for (i, piece) in pieces.iter().enumerate() {
        if done >= file.len() {
            return are_filler(&pieces[i..]);
        }
        let bytes = bytes_of(text, piece.extent);
        if !file[done..].starts_with(bytes) {
            return false;
        }
        done += bytes.len();
    }
    done >= file.len()
}

/// Whether the pieces behind `include` name a file that may be included.
fn is_included(text: &[u8], pieces: &[PieceAt]) -> bool
    requires { All (IsPieceAt text.now) pieces.now }
    ensures { result ≡ is_included (map (cut_at text.now) pieces.now) }
{
    let rest = &pieces[gaps_len(text, pieces)..];
    is_file_alone(text, b"<core.p4>", rest) || is_file_alone(text, b"<v1model.p4>", rest)
}

fn begins_with_name(pieces: &[PieceAt]) -> bool
    ensures value { (text : List ℕ) → result ≡ begins_with_name (map (cut_at text) pieces.now) }
    ensures some { IsTrue result → 0 < length pieces.now }
{
    match pieces.first() {
        Some(piece) => is_name(piece.kind),
        None => false,
    }
}

/// How many pieces stand before the name, where the pieces begin with blanks and a name.
fn name_index(text: &[u8], pieces: &[PieceAt]) -> Option<usize>
    requires { All (IsPieceAt text.now) pieces.now }
    ensures value { result ≡ name_index (map (cut_at text.now) pieces.now) }
    ensures within { IfSome result (λ i. i < length pieces.now) }
{
    let gaps = gaps_len(text, pieces);
    if gaps == 0 {
        return None;
    }
    if begins_with_name(&pieces[gaps..]) {
        Some(gaps)
    } else {
        None
    }
}

/// The definition whose pieces behind the word `define` are these.
fn defined(text: &[u8], pieces: &[PieceAt]) -> Option<DirectiveAt>
    requires few { length pieces.now < 2 ^ 63 }
    requires pieces { All (IsPieceAt text.now) pieces.now }
    ensures value { (word : PieceAt) → option_map (directive_at text.now (word ∷ pieces.now)) result
        ≡ defined_at (name_index (map (cut_at text.now) pieces.now))
        (map (cut_at text.now) pieces.now) }
    ensures fits { (word : PieceAt) → IfSome result (DirectiveFits text.now (word ∷ pieces.now)) }
{
    let name = name_index(text, pieces)?;
    if begins_with_parenthesis(text, &pieces[name + 1..]) {
        None
    } else {
        Some(DirectiveAt::Define(pieces[name].extent, name + 2))
    }
}

/// The name with which the pieces begin behind blanks, where only blanks and comments are behind it.
fn name_alone(text: &[u8], pieces: &[PieceAt]) -> Option<Extent>
    requires { All (IsPieceAt text.now) pieces.now }
    ensures value { option_map (bytes_at text.now) result
        ≡ name_alone (map (cut_at text.now) pieces.now) }
    ensures within { IfSome result (IsIn text.now) }
{
    let name = name_index(text, pieces)?;
    if are_filler(&pieces[name + 1..]) {
        Some(pieces[name].extent)
    } else {
        None
    }
}

/// The directive with this word, whose pieces behind the word are these.
fn directive_by(text: &[u8], word: DirectiveWord, pieces: &[PieceAt]) -> Option<DirectiveAt>
    requires few { length pieces.now < 2 ^ 63 }
    requires pieces { All (IsPieceAt text.now) pieces.now }
    ensures value { (first : PieceAt)
        → option_map (directive_at text.now (first ∷ pieces.now)) result
        ≡ directive_by word (map (cut_at text.now) pieces.now) }
    ensures fits { (first : PieceAt) → IfSome result (DirectiveFits text.now (first ∷ pieces.now)) }
{
    match word {
        DirectiveWord::Include => is_included(text, pieces).then_some(DirectiveAt::Include),
        DirectiveWord::Define => defined(text, pieces),
        DirectiveWord::Undefine => Some(DirectiveAt::Undefine(name_alone(text, pieces)?)),
        DirectiveWord::IfDefined => Some(DirectiveAt::IfDefined(name_alone(text, pieces)?)),
        DirectiveWord::IfNotDefined => Some(DirectiveAt::IfNotDefined(name_alone(text, pieces)?)),
        DirectiveWord::Else => are_filler(pieces).then_some(DirectiveAt::Else),
        DirectiveWord::EndIf => are_filler(pieces).then_some(DirectiveAt::EndIf),
    }
}

/// The directive that these pieces are, found by their first word.
fn directive_found(text: &[u8], pieces: &[PieceAt]) -> Option<DirectiveAt>
    requires few { length pieces.now < 2 ^ 63 }
    requires pieces { All (IsPieceAt text.now) pieces.now }
    ensures value { option_map (directive_at text.now pieces.now) result
        ≡ directive_of (map (cut_at text.now) pieces.now) }
    ensures fits { IfSome result (DirectiveFits text.now pieces.now) }
{
    let [word, rest @ ..] = pieces else {
        return None;
    };
    if is_name(word.kind) {
        directive_by(
            text,
            word_among(&DIRECTIVE_WORDS, bytes_of(text, word.extent))?,
            rest,
        )
    } else {
        None
    }
}

/// Which directive the pieces behind the `#` of a line are, where they are one.
pub(crate) fn directive_of(text: &[u8], pieces: &[PieceAt]) -> Option<DirectiveAt>
    requires few { length pieces.now < 2 ^ 63 }
    requires pieces { All (IsPieceAt text.now) pieces.now }
    ensures is { (d : Directive) → (option_map (directive_at text.now pieces.now) result ≡ Some d)
        ↔ IsDirective (map (cut_at text.now) pieces.now) d }
    ensures fits { IfSome result (DirectiveFits text.now pieces.now) }
{
    directive_found(text, pieces)
}
