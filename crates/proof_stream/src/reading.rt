//! Reading a record from its text.
ghost use Rattle.std.specs.Prelude.{◌≡◌, ◌==◌, ◌-◌, ◌<◌, ◌^◌, map, length, IfOk, IfErr, MatchResult};
ghost use Rattle.std.specs.List.{slice_split};
ghost use Rattle.proof_stream.specs.declared.record.Record.{Record};
ghost use Rattle.proof_stream.specs.Answers.{Gives, IsFaultOf, IsMemory, read_pieces};
ghost use Rattle.proof_stream.specs.Drafts.{next_at, finish};
ghost use Rattle.proof_stream.specs.Spelling.{line_feed};
ghost use Rattle.proof_stream.specs.Valid.{IsReading};

use crate::draft::{Draft, next};
use crate::lines::line_of;
use crate::proof_fault::ProofFault;
use crate::record::Record;
use std::alloc::{AllocError, Global};

fn is_line_feed(byte: u8) -> bool
    ensures { result ≡ (byte == line_feed) }
{
    byte == b'\n'
}

/// The pieces of the text between its line feeds.
fn pieces_of(alloc: Global, text: &[u8]) -> Result<Vec<&[u8]>, AllocError>
    ensures { IfOk result (λ pieces. map (λ piece. piece.now) pieces.items
        ≡ slice_split (λ byte. byte == line_feed) text.now) }
{
    text.split(|byte| is_line_feed(*byte)).collect(alloc)
}

/// The draft with one more line of text.
#[tactic(auto, unfolding(crate::specs::Drafts::next_at))]
fn next_at(alloc: Global, old: Draft, text: &[u8]) -> Result<Option<Draft>, AllocError>
    ensures { IfOk result (λ found. found ≡ next_at old text.now) }
{
    match line_of(alloc, text)? {
        Some(line) => next(alloc, old, line),
        None => Ok(None),
    }
}

fn finish(number: u32, last: Draft) -> Result<Record, ProofFault>
    ensures { Gives result (finish number last) }
{
    match last {
        Draft::Whole(found) => Ok(found),
        _open => Err(ProofFault::Line(number)),
    }
}

/// The record whose lines are the pieces, each ended but the last, which has to be empty.
#[tactic(auto, using(crate::proofs::StepLemmas::read_step), unfolding(crate::specs::Drafts::read_from))]
fn read_pieces(alloc: Global, pieces: &[&[u8]], last: &[u8]) -> Result<Record, ProofFault>
    requires { length pieces.now < 2 ^ 32 - 1 }
    ensures { Gives result (read_pieces (map (λ piece. piece.now) pieces.now) last.now) }
{
    let mut old = Draft::Empty;
    let mut number = 1;
    for piece in pieces {
        old = match next_at(alloc, old, piece) {
            Ok(Some(more)) => more,
            Ok(None) => return Err(ProofFault::Line(number)),
            Err(e) => return Err(ProofFault::Memory(e)),
        };
        number += 1;
    }
    if !last.is_empty() {
        return Err(ProofFault::Line(number));
    }
    finish(number, old)
}

/// The record that the text spells.
pub fn read_record(alloc: Global, text: &[u8]) -> Result<Record, ProofFault>
    requires { length text.now < 2 ^ 32 - 1 }
    // What is read is a record, and the text is its text.
    ensures found { IfOk result (λ r. IsReading text.now r) }
    // The line of a fault is the first that no record's text has there.
    ensures fault { IfErr result (λ e. IsFaultOf text.now e) }
    // The text of a record is read, unless memory runs out.
    ensures only { (r : Record) → IsReading text.now r
        → MatchResult result (λ found. found ≡ r) IsMemory }
{
    let pieces = match pieces_of(alloc, text) {
        Ok(pieces) => pieces,
        Err(e) => return Err(ProofFault::Memory(e)),
    };
    match pieces.as_slice() {
        [ended @ .., last] => read_pieces(alloc, ended, last),
        [] => Err(ProofFault::Line(1)),
    }
}
