//! Literals, hints and clauses, as lines list them.
ghost use Rattle.std.specs.Prelude.{◌≡◌, [], map, IfOk};
ghost use Rattle.std.specs.BTreeSet as sorted;
ghost use Rattle.std.specs.Option.{option_map};
ghost use Rattle.std.specs.Ordering.{nat_cmp};
ghost use Rattle.std.specs.Str.{bytes_eq};
ghost use Rattle.proof_stream.specs.Words.{end_word};
ghost use Rattle.proof_stream.specs.Reading.{literals_onto, hints_onto, cube_of, step_of, are_apart, clause_of};

use crate::words::{literal_of, positive_of};
use cnf_core::{Clause, Cube, Lit, Step};
use sqlite_items::Items;
use std::alloc::{AllocError, Global};
use std::collections::BTreeSet;

/// Whether the word ends literals or hints.
fn is_end(word: &[u8]) -> bool
    ensures { result ≡ bytes_eq word.now end_word }
{
    word == b"0".as_slice()
}

/// The literals up to the word that ends them, and the words behind it.
fn literals_of<'a>(
    alloc: Global,
    words: &'a [&'a [u8]],
) -> Result<Option<(Vec<Lit>, &'a [&'a [u8]])>, AllocError>
    ensures { IfOk result (λ found.
        option_map (λ x. (x.0.items, map (λ word. word.now) x.1.now)) found
        ≡ literals_onto [] (map (λ word. word.now) words.now)) }
{
    let mut lits = Vec::new(alloc);
    for (i, word) in words.iter().enumerate() {
        if is_end(word) {
            return Ok(Some((lits, &words[i + 1..])));
        }
        let Some(l) = literal_of(word) else {
            return Ok(None);
        };
        lits.push(l)?;
    }
    Ok(None)
}

/// The hints up to the word that ends them, and the words behind it.
fn hints_of<'a>(
    alloc: Global,
    words: &'a [&'a [u8]],
) -> Result<Option<(Vec<u32>, &'a [&'a [u8]])>, AllocError>
    ensures { IfOk result (λ found.
        option_map (λ x. (x.0.items, map (λ word. word.now) x.1.now)) found
        ≡ hints_onto [] (map (λ word. word.now) words.now)) }
{
    let mut hints = Vec::new(alloc);
    for (i, word) in words.iter().enumerate() {
        if is_end(word) {
            return Ok(Some((hints, &words[i + 1..])));
        }
        let Some(hint) = positive_of(word) else {
            return Ok(None);
        };
        hints.push(hint)?;
    }
    Ok(None)
}

/// The literals of a cube.
#[tactic(auto, unfolding(crate::specs::Reading::cube_of))]
pub(crate) fn cube_of(alloc: Global, words: &[&[u8]]) -> Result<Option<Cube>, AllocError>
    ensures { IfOk result (λ cube. cube ≡ cube_of (map (λ word. word.now) words.now)) }
{
    match literals_of(alloc, words)? {
        Some((lits, [])) => Ok(Some(Items::from_vec(lits))),
        _ => Ok(None),
    }
}

/// The clause and the hints of a step.
#[tactic(auto, unfolding(crate::specs::Reading::step_of))]
pub(crate) fn step_of(alloc: Global, words: &[&[u8]]) -> Result<Option<Step>, AllocError>
    ensures { IfOk result (λ step. step ≡ step_of (map (λ word. word.now) words.now)) }
{
    let Some((lits, rest)) = literals_of(alloc, words)? else {
        return Ok(None);
    };
    match hints_of(alloc, rest)? {
        Some((hints, [])) => Ok(Some(Step {
            clause: Items::from_vec(lits),
            hints: Items::from_vec(hints),
        })),
        _ => Ok(None),
    }
}

fn variables(alloc: Global, lits: &[Lit]) -> Result<BTreeSet<u32>, AllocError>
    ensures { IfOk result (sorted.IsFromIterResult nat_cmp (map (λ l. l.var) lits.now)) }
{
    lits.iter().map(|l| l.var).collect(alloc)
}

/// Whether no variable stands twice.
#[tactic(auto, using(crate::proofs::ListLemmas::set_len), unfolding(crate::specs::Reading::are_apart))]
fn are_apart(alloc: Global, lits: &[Lit]) -> Result<bool, AllocError>
    ensures { IfOk result (λ apart. apart ≡ are_apart lits.now) }
{
    let vars = variables(alloc, lits)?;
    Ok(vars.len() == lits.len())
}

/// The literals of a clause.
#[tactic(auto, unfolding(crate::specs::Reading::clause_of))]
pub(crate) fn clause_of(alloc: Global, words: &[&[u8]]) -> Result<Option<Clause>, AllocError>
    ensures { IfOk result (λ clause. clause ≡ clause_of (map (λ word. word.now) words.now)) }
{
    let Some(lits) = cube_of(alloc, words)? else {
        return Ok(None);
    };
    if are_apart(alloc, lits.as_slice())? {
        Ok(Some(lits))
    } else {
        Ok(None)
    }
}
