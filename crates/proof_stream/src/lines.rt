//! The line that a text spells.
ghost use Rattle.std.specs.Prelude.{◌≡◌, ◌==◌, map, IfOk};
ghost use Rattle.std.specs.List.{slice_split};
ghost use Rattle.cnf_core.specs.declared.derivation.Derived.TheVariants.{Cube as CubeLine, Step as StepLine};
ghost use Rattle.proof_stream.specs.declared.line.Line.TheVariants as line;
ghost use Rattle.proof_stream.specs.declared.record.End.TheVariants.{Sat};
ghost use Rattle.proof_stream.specs.Reading.{alone, operands_of, line_of};
ghost use Rattle.proof_stream.specs.Spelling.{blank};

use crate::digits::{bits_of, values_of};
use crate::keyword::{Keyword, keyword_of};
use crate::line::Line;
use crate::lists::{clause_of, cube_of, step_of};
use crate::record::{End, Truths};
use crate::words::{kind_of, one_number_of, var_of};
use cnf_core::{Cube, Derived, Step};
use std::alloc::{AllocError, Global};

fn is_blank(byte: u8) -> bool
    ensures { result ≡ (byte == blank) }
{
    byte == b' '
}

/// The words of a line.
fn words_of(alloc: Global, text: &[u8]) -> Result<Vec<&[u8]>, AllocError>
    ensures { IfOk result (λ words. map (λ word. word.now) words.items
        ≡ slice_split (λ byte. byte == blank) text.now) }
{
    text.split(|byte| is_blank(*byte)).collect(alloc)
}

/// The line with this first word, where no word may stand behind it.
fn alone(end: End, words: &[&[u8]]) -> Option<Line>
    ensures { result ≡ alone (line.End end) (map (λ word. word.now) words.now) }
{
    match words {
        [] => Some(Line::End(end)),
        _ => None,
    }
}

fn cube(lits: Cube) -> Line
    ensures { result ≡ line.Derived (CubeLine lits) }
{
    Line::Derived(Derived::Cube(lits))
}

fn step(step: Step) -> Line
    ensures { result ≡ line.Derived (StepLine step) }
{
    Line::Derived(Derived::Step(step))
}

fn sat(bits: Truths) -> Line
    ensures { result ≡ line.End (Sat bits) }
{
    Line::End(End::Sat(bits))
}

/// The line that begins with the keyword and goes on with the words.
#[tactic(auto, unfolding(crate::specs::Reading::operands_of))]
fn operands_of(alloc: Global, keyword: Keyword, words: &[&[u8]]) -> Result<Option<Line>, AllocError>
    ensures { IfOk result (λ found. found
        ≡ operands_of keyword (map (λ word. word.now) words.now)) }
{
    match keyword {
        Keyword::Record => Ok(kind_of(words).map(Line::Head)),
        Keyword::At => Ok(bits_of(alloc, words)?.map(Line::At)),
        Keyword::Var => Ok(var_of(words).map(Line::Var)),
        Keyword::Clause => Ok(clause_of(alloc, words)?.map(Line::Clause)),
        Keyword::Cube => Ok(cube_of(alloc, words)?.map(cube)),
        Keyword::Step => Ok(step_of(alloc, words)?.map(step)),
        Keyword::Sat => Ok(bits_of(alloc, words)?.map(sat)),
        Keyword::Unsat => Ok(alone(End::Unsat, words)),
        Keyword::Spent => Ok(alone(End::Spent, words)),
        Keyword::Broken => Ok(one_number_of(words).map(Line::Broken)),
        Keyword::Runs => Ok(values_of(alloc, words)?.map(Line::Runs)),
        Keyword::Breaks => Ok(values_of(alloc, words)?.map(Line::Breaks)),
        _ => Ok(None),
    }
}

#[tactic(auto, unfolding(crate::specs::Reading::line_of))]
fn line_among(alloc: Global, words: &[&[u8]]) -> Result<Option<Line>, AllocError>
    ensures { IfOk result (λ found. found ≡ line_of (map (λ word. word.now) words.now)) }
{
    match words {
        [first, rest @ ..] => match keyword_of(first) {
            Some(keyword) => operands_of(alloc, keyword, rest),
            None => Ok(None),
        },
        [] => Ok(None),
    }
}

/// The line that the text spells.
pub(crate) fn line_of(alloc: Global, text: &[u8]) -> Result<Option<Line>, AllocError>
    ensures { IfOk result (λ found. found
        ≡ line_of (slice_split (λ byte. byte == blank) text.now)) }
{
    let words = words_of(alloc, text)?;
    line_among(alloc, words.as_slice())
}
