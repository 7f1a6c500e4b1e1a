//! Clauses with two watched literals each, and for each literal the list of the clauses that watch it.

ghost use Rattle.std.specs.Prelude.{◌≡◌, ◌<◌, ◌≤◌, ◌^◌, ◌++◌, ◌∷◌, [], ℕ, Some, Contains, IsTrue, OnOk, OnErr, length, slice_get, slice_index_or, slice_set, swap_remove};
ghost use Rattle.unit_propagation.specs.Units.{IsWithin};
ghost use Rattle.cnf_core.specs.declared.formula.Lit.{Lit as Literal};
ghost use Rattle.unit_propagation.specs.Watching.{watches, list_at, pair_of, IsIndexed, LeavesList, MovesWatch};

use crate::clause_list::{ClauseList, short};
use crate::lit_code::LitCode;
use crate::pair::Pair;
use crate::watch_lists::{add_lists, add_zeros, append, code, list_clause, make_room};
use cnf_core::Lit;
use std::alloc::{AllocError, Global};
use std::marker::Model;

/// Clauses over variables below `width`. There is room in a literal's list for each clause that has it.
#[derive(Drop)]
pub struct WatchedClauses {
    alloc: Global,
    width: usize,
    clauses: ClauseList,
    pairs: Vec<Pair>,
    lists: Vec<Vec<u32>>,
    held: Vec<u32>,
}

impl Model for WatchedClauses {
    ghost use Rattle.unit_propagation.specs.Watching.{Watched};

    ghost Value = { Watched };

    ghost use Rattle.unit_propagation.specs.WatchedFields.{IsWatchedClauses, watched_of};

    ghost view = { watched_of };

    ghost invariant = { IsWatchedClauses };
}

impl WatchedClauses {
    /// No clauses over no variables.
    pub fn new(alloc: Global) -> WatchedClauses
        ensures width { result.width ≡ 0 }
        ensures clauses { result.clauses ≡ [] }
        ensures pairs { result.pairs ≡ [] }
    {
        WatchedClauses {
            alloc,
            width: 0,
            clauses: ClauseList::new(alloc),
            pairs: Vec::new(alloc),
            lists: Vec::new(alloc),
            held: Vec::new(alloc),
        }
    }

    /// Makes lists for the literals of variables below `width`.
    pub fn grow(&mut self, width: usize) -> Result<(), AllocError>
        requires { width < 2 ^ 62 }
        ensures grown { OnOk result (width ≤ self.new.width) }
        ensures keeps { self.old.width ≤ self.new.width }
        ensures most { (n : ℕ) → self.old.width ≤ n → width ≤ n → self.new.width ≤ n }
        ensures clauses { self.new.clauses ≡ self.old.clauses }
        ensures pairs { self.new.pairs ≡ self.old.pairs }
    {
        if width <= self.width {
            return Ok(());
        }
        add_lists(self.alloc, &mut self.lists, 2 * width)?;
        add_zeros(&mut self.held, 2 * width)?;
        self.width = width;
        Ok(())
    }

    /// Adds the clause with its watched literals at the end.
    pub fn add(&mut self, clause: &[LitCode], pair: &Pair) -> Result<(), AllocError>
        requires within { IsWithin self.old.width clause.now }
        requires stands { (l : Literal) → IsTrue (watches pair.now l) → Contains clause.now l }
        ensures width { self.new.width ≡ self.old.width }
        ensures clauses { OnOk result (self.new.clauses ≡ self.old.clauses ++ clause.now ∷ []) }
        ensures pairs { OnOk result (self.new.pairs ≡ self.old.pairs ++ pair.now ∷ []) }
        ensures kept { OnErr result (self.new.clauses ≡ self.old.clauses) }
        ensures pairs_kept { OnErr result (self.new.pairs ≡ self.old.pairs) }
    {
        let Some(number) = short(self.clauses.len()) else {
            return Err(AllocError);
        };
        make_room(&mut self.lists, &mut self.held, clause)?;
        self.pairs.reserve(1)?;
        self.clauses.push(clause)?;
        list_clause(&mut self.lists, pair, number);
        self.pairs.push_reserved(*pair);
        Ok(())
    }

    /// Variable numbers are below it.
    pub fn width(&self) -> usize
        ensures is { result ≡ self.now.width }
        ensures indexed { IsIndexed self.now.width self.now.clauses self.now.pairs self.now.lists }
    {
        self.width
    }

    /// How many clauses there are.
    pub fn clause_count(&self) -> usize
        ensures is { result ≡ length self.now.clauses }
        ensures indexed { IsIndexed self.now.width self.now.clauses self.now.pairs self.now.lists }
    {
        self.clauses.len()
    }

    /// The literals of the clause.
    pub fn literals(&self, clause: usize) -> &[LitCode]
        requires { clause < length self.now.clauses }
        ensures are { result.now ≡ slice_index_or self.now.clauses clause [] }
        ensures within { IsWithin self.now.width result.now }
    {
        self.clauses.literals(clause)
    }

    /// The watched literals of the clause.
    pub fn pair(&self, clause: usize) -> Pair
        requires { clause < length self.now.clauses }
        ensures is { slice_get self.now.pairs clause ≡ Some result }
        ensures indexed { IsIndexed self.now.width self.now.clauses self.now.pairs self.now.lists }
    {
        self.pairs[clause]
    }

    /// How many clauses the literal's list has.
    pub fn count(&self, l: Lit) -> usize
        requires { l.var < self.now.width }
        ensures is { result ≡ length (list_at self.now.lists l) }
        ensures indexed { IsIndexed self.now.width self.now.clauses self.now.pairs self.now.lists }
    {
        self.lists[code(l)].len()
    }

    /// The clause at that place of the literal's list.
    pub fn nth(&self, l: Lit, place: usize) -> usize
        requires within { l.var < self.now.width }
        requires inside { place < length (list_at self.now.lists l) }
        ensures is { slice_get (list_at self.now.lists l) place ≡ Some result }
        ensures exists { result < length self.now.clauses }
        ensures paired { length self.now.pairs ≡ length self.now.clauses }
    {
        self.lists[code(l)][place] as usize
    }

    /// Watches the clause, which is at that place of a watched literal's list, at another literal.
    pub fn rewatch(&mut self, clause: usize, from: Lit, place: usize, other: LitCode, to: LitCode)
        requires from_within { from.var < self.old.width }
        requires to_within { to.var < self.old.width }
        requires moves { MovesWatch self.old clause from place other to }
        ensures width { self.new.width ≡ self.old.width }
        ensures clauses { self.new.clauses ≡ self.old.clauses }
        ensures pairs { self.new.pairs ≡ slice_set self.old.pairs clause (pair_of other to) }
        ensures list { LeavesList self.old.lists self.new.lists from place clause }
    {
        let list = &mut self.lists[code(from)];
        let number = list.swap_remove(place);
        self.pairs[clause] = Pair {
            first: other,
            second: to,
        };
        append(&mut self.lists, to, number);
    }
}
