//! The parts of a text: pieces, lines of directives, and lines that are skipped.
ghost use Rattle.std.specs.Prelude.{◌≡◌, ℕ, ◌+◌, ◌-◌, ◌^◌, ◌<◌, ◌≤◌, ◌↔◌, List, length, take, drop, IfOk, IsTrue, MatchOption, None, false};
ghost use Rattle.p4_lexer.specs.declared.extents.Event.{Event};
ghost use Rattle.p4_lexer.specs.declared.piece.Kind.{Kind};
ghost use Rattle.p4_lexer.specs.Places.{place_after};
ghost use Rattle.p4_lexer.specs.Scope.{Scope, is_taken};
ghost use Rattle.p4_lexer.specs.ScopeState.{StandsFor};
ghost use Rattle.p4_lexer.specs.Parts.{Part, scope_behind, AtLineStart, BeginsWithHash};
ghost use Rattle.p4_lexer.specs.SourceWords.{is_word};
ghost use Rattle.p4_lexer.specs.PartSteps.{PartAt, Tells};
ghost use Rattle.p4_lexer.specs.PartFaults.{FaultHere};
ghost use Rattle.p4_lexer.specs.FaultSteps.{ReadsFault, IsReadWith};
ghost use Rattle.p4_lexer.specs.Scanning.{IsFirstOf};

use crate::directives::directive_of;
use crate::extents::{Event, Extent, PieceAt, WordAt};
use crate::faults::{first_of, line_fault, no_directive, piece_fault};
use crate::line_extents::line_at;
use crate::lines::{lead_len, rest_of_line_len};
use crate::obey::obey;
use crate::piece::Kind;
use crate::pieces::piece_at;
use crate::places::place_behind;
use crate::scope::ScopeAt;
use sqlite_items::Items;
use std::alloc::{AllocError, Global};
use tg_base::{Refusal, Span};

/// A part that was read: how many bytes it has, and the fault that decides in it.
#[derive(Clone, Copy)]
struct PartRead {
    len: usize,
    fault: Option<Refusal>,
}

/// Whether pieces of this kind are words.
fn is_word(kind: Kind) -> bool
    ensures { result ≡ is_word kind }
{
    matches!(
        kind,
        Kind::Name | Kind::Number | Kind::Text | Kind::Sign | Kind::Annotation
    )
}

/// Whether a line begins at this place.
fn begins_line(text: &[u8], at: usize) -> bool
    requires { at ≤ length text.now }
    ensures { IsTrue result ↔ AtLineStart (take at text.now) }
{
    at == 0 || text[at - 1] == b'\n'
}

/// How many blanks stand before the `#` with which a line begins at this place, if one does.
fn lead_at(text: &[u8], at: usize) -> Option<usize>
    requires { at ≤ length text.now }
    ensures { MatchOption result
        (¬ (AtLineStart (take at text.now) × BeginsWithHash (drop at text.now)))
        (λ len. AtLineStart (take at text.now)
        × ((begins : BeginsWithHash (drop at text.now)) × (length begins.lead ≡ len))) }
{
    if begins_line(text, at) {
        lead_len(&text[at..])
    } else {
        None
    }
}

/// Reads the piece at this place of a part that is taken.
fn read_piece(
    events: &mut Items<Event>,
    text: &[u8],
    at: usize,
    place: Span,
) -> Result<PartRead, AllocError>
    requires { at < length text.now }
    ensures { IfOk result (λ read. (scope : Scope) → IsTrue (is_taken scope)
        → ¬ (AtLineStart (take at text.now) × BeginsWithHash (drop at text.now))
        → place ≡ place_after (take at text.now)
        → (p : Part) × PartAt text.now at read.len scope p
        × Tells text.now at scope p events.old events.new
        × (scope_behind (take at text.now) scope p ≡ scope)
        × IsFirstOf (FaultHere (take at text.now) scope p (drop (at + read.len) text.now))
        read.fault) }
{
    let piece = piece_at(&text[at..]);
    let len = piece.len;
    let extent = Extent { at, len };
    let kind = piece.kind;
    let fault = piece_fault(text, PieceAt { kind, extent }, place);
    if is_word(piece.kind) {
        events.push(Event::Word(WordAt {
            piece: PieceAt { kind, extent },
            place,
            replacement: false,
        }))?;
    }
    Ok(PartRead { len, fault })
}

/// How long the rest of the line is at this place of a part that is not taken.
fn skipped_len(text: &[u8], at: usize) -> usize
    requires { at < length text.now }
    ensures { (scope : Scope) → is_taken scope ≡ false
        → ¬ (AtLineStart (take at text.now) × BeginsWithHash (drop at text.now))
        → (p : Part) × PartAt text.now at result scope p
        × ((events : List Event) → Tells text.now at scope p events events)
        × (scope_behind (take at text.now) scope p ≡ scope)
        × IsFirstOf (FaultHere (take at text.now) scope p (drop (at + result) text.now)) None }
{
    rest_of_line_len(&text[at..])
}

/// Reads the line of a directive at this place, whose `#` stands behind so many blanks.
fn read_line<'a>(
    scope: &mut ScopeAt<'a>,
    events: &mut Items<Event>,
    alloc: Global,
    text: &'a [u8],
    at: usize,
    lead: usize,
    place: Span,
) -> Result<PartRead, AllocError>
    requires few { length text.now < 2 ^ 32 - 1 }
    requires within { at + lead < length text.now }
    requires line { place.line ≤ at + 1 }
    requires column { place.column ≤ at + 1 }
    requires placed { place ≡ place_after (take at text.now) }
    ensures { IfOk result (λ read. (in_force : Scope) → StandsFor scope.old in_force
        → AtLineStart (take at text.now)
        → (begins : BeginsWithHash (drop at text.now)) → length begins.lead ≡ lead
        → ReadsFault text.now at read.len in_force scope.new events.old events.new read.fault) }
{
    let line = line_at(alloc, text, at + lead + 1)?;
    let pieces = line.pieces.as_slice();
    let hash_place = place_behind(place, &text[at..at + lead]);
    let len = line.end - at;
    match directive_of(text, pieces) {
        Some(directive) => {
            let belongs = obey(scope, events, alloc, text, hash_place, pieces, directive)?;
            let first = place_behind(place, &text[at..at + lead + 1]);
            let fault = line_fault(text, pieces, hash_place, first, scope.taken, belongs);
            Ok(PartRead { len, fault })
        }
        None => {
            let fault = Some(no_directive(hash_place));
            Ok(PartRead { len, fault })
        }
    }
}

/// Reads the part at this place.
fn read_part<'a>(
    scope: &mut ScopeAt<'a>,
    events: &mut Items<Event>,
    alloc: Global,
    text: &'a [u8],
    at: usize,
    place: Span,
) -> Result<PartRead, AllocError>
    requires few { length text.now < 2 ^ 32 - 1 }
    requires within { at < length text.now }
    requires line { place.line ≤ at + 1 }
    requires column { place.column ≤ at + 1 }
    requires placed { place ≡ place_after (take at text.now) }
    ensures { IfOk result (λ read. (in_force : Scope) → StandsFor scope.old in_force
        → ReadsFault text.now at read.len in_force scope.new events.old events.new read.fault) }
{
    if let Some(lead) = lead_at(text, at) {
        let read = read_line(scope, events, alloc, text, at, lead, place)?;
        return Ok(read);
    }
    if scope.taken {
        let read = read_piece(events, text, at, place)?;
        Ok(read)
    } else {
        let len = skipped_len(text, at);
        Ok(PartRead { len, fault: None })
    }
}

/// What was read of a text: what is in force behind it, its words and changes of the macros, and the fault that decides
/// among those of its parts.
#[derive(Drop)]
pub(crate) struct TextRead<'a> {
    pub(crate) scope: ScopeAt<'a>,
    pub(crate) events: Items<Event>,
    pub(crate) fault: Option<Refusal>,
}

/// Reads a text part by part.
pub(crate) fn read_text<'a>(alloc: Global, text: &'a [u8]) -> Result<TextRead<'a>, AllocError>
    requires { length text.now < 2 ^ 32 - 1 }
    ensures { IfOk result (λ read. IsReadWith text.now read.scope read.events read.fault) }
{
    let mut scope = ScopeAt::new(alloc);
    let mut events = Items::new(alloc);
    let mut place = Span { line: 1, column: 1 };
    let mut fault = None;
    let mut at = 0;
    while at < text.len() {
        let part = read_part(&mut scope, &mut events, alloc, text, at, place)?;
        fault = first_of(fault, part.fault);
        place = place_behind(place, &text[at..at + part.len]);
        at += part.len;
    }
    Ok(TextRead {
        scope,
        events,
        fault,
    })
}
