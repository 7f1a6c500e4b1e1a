//! Clauses one behind the other in one list of literals.

ghost use Rattle.std.specs.Prelude.{◌≡◌, ◌<◌, ◌≤◌, ◌-◌, ◌^◌, ◌++◌, ◌∷◌, [], OnOk, OnErr, IfSome, IfNone, length, take, drop, slice_index_or};
ghost use Rattle.unit_propagation.specs.ClauseLists.{start_at};

use crate::lit_code::LitCode;
use std::alloc::{AllocError, Global};
use std::marker::Model;

/// Clauses, numbered from 0, as the literals of all and where each clause ends. Past 2^32 literals there is no room.
#[derive(Drop)]
pub struct ClauseList {
    literals: Vec<LitCode>,
    ends: Vec<u32>,
}

impl Model for ClauseList {
    ghost use Rattle.std.specs.Prelude.{List};
    ghost use Rattle.cnf_core.specs.declared.formula.Lit.{Lit as Literal};

    ghost Value = { List (List Literal) };

    ghost use Rattle.unit_propagation.specs.ClauseListFields.{clauses_of, IsClauseList};

    ghost view = { clauses_of };

    ghost invariant = { IsClauseList };
}

impl ClauseList {
    /// No clauses.
    pub fn new(alloc: Global) -> ClauseList
        ensures { result ≡ [] }
    {
        ClauseList {
            literals: Vec::new(alloc),
            ends: Vec::new(alloc),
        }
    }

    /// How many clauses there are.
    pub fn len(&self) -> usize
        ensures { result ≡ length self.now }
    {
        self.ends.len()
    }

    /// The literals of the clause.
    pub fn literals(&self, clause: usize) -> &[LitCode]
        requires { clause < length self.now }
        ensures { result.now ≡ slice_index_or self.now clause [] }
    {
        let start = start_of(self.ends.as_slice(), clause);
        part(self.literals.as_slice(), start, self.ends[clause] as usize)
    }

    /// Adds the clause at the end.
    pub fn push(&mut self, clause: &[LitCode]) -> Result<(), AllocError>
        ensures pushed { OnOk result (self.new ≡ self.old ++ clause.now ∷ []) }
        ensures kept { OnErr result (self.new ≡ self.old) }
    {
        let Some(end) = short(self.literals.len() + clause.len()) else {
            return Err(AllocError);
        };
        self.ends.reserve(1)?;
        self.literals.extend_from_slice(clause)?;
        self.ends.push_reserved(end);
        Ok(())
    }
}

/// The literals between two places.
fn part(literals: &[LitCode], start: usize, end: usize) -> &[LitCode]
    requires ordered { start ≤ end }
    requires inside { end ≤ length literals.now }
    ensures { result.now ≡ take (end - start) (drop start literals.now) }
{
    &literals[start..end]
}

/// Where the clause begins.
fn start_of(ends: &[u32], clause: usize) -> usize
    requires { clause ≤ length ends.now }
    ensures { result ≡ start_at 0 ends.now clause }
{
    match clause.checked_sub(1) {
        Some(before) => ends[before] as usize,
        None => 0,
    }
}

/// The number in four bytes, where it fits.
pub fn short(number: usize) -> Option<u32>
    ensures is { IfSome result (λ n. n ≡ number) }
    ensures none { IfNone result (2 ^ 32 ≤ number) }
{
    u32::try_from(number).ok()
}
