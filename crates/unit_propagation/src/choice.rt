//! Which two literals of a new clause to watch: two that are not false, or else the two that are falsified last.

ghost use Rattle.std.specs.Prelude.{◌≡◌, ◌≢◌, ◌≤◌, ◌↔◌, Contains, IsTrue, IfSome, length, take};
ghost use Rattle.cnf_core.specs.declared.formula.Lit.{Lit as Literal};
ghost use Rattle.unit_propagation.specs.Units.{IsFalse, IsWithin};
ghost use Rattle.unit_propagation.specs.Watching.{watches};
ghost use Rattle.unit_propagation.specs.Loose.{IsOne, IsFreePair, IsAnyPair, IsDiffering, IsPick, IsPickBefore};
ghost use Rattle.unit_propagation.specs.Ready.{AreFree, IsWatched};

use crate::assignment::Assignment;
use crate::lit_code::LitCode;
use crate::pair::Pair;
use crate::propagation::{find_other, is_false};
use cnf_core::Lit;

/// The literals to watch, and a place of the trail: before it neither is falsified.
#[derive(Clone, Copy, Debug)]
pub struct Choice {
    pub pair: Pair,
    pub place: usize,
}

/// A literal, and a place of the trail: before it the literal is not falsified.
#[derive(Clone, Copy, Debug)]
pub struct LatePick {
    pub literal: LitCode,
    pub place: usize,
}

impl Choice {
    pub fn of(clause: &[LitCode], assignment: &Assignment) -> Choice
        requires { IsWithin assignment.now.width clause.now }
        ensures stands { (l : Literal) → IsTrue (watches result.pair l) → Contains clause.now l }
        ensures free { IsWatched result.pair
            → AreFree (take result.place assignment.now.trail) result.pair }
        ensures one { result.pair.first ≡ result.pair.second → IsOne clause.now }
    {
        let place = assignment.count();
        if let Some(pair) = free_pair(clause, assignment) {
            return Choice { pair, place };
        }
        let pair = any_pair(clause);
        if !pair.is_watched() {
            return Choice { pair, place };
        }
        match late_pair(clause, assignment) {
            Some(choice) => choice,
            None => Choice { pair, place: 0 },
        }
    }
}

/// The two literals that are falsified last.
fn late_pair(clause: &[LitCode], assignment: &Assignment) -> Option<Choice>
    requires { IsWithin assignment.now.width clause.now }
    ensures stands { IfSome result (λ c. (l : Literal)
        → IsTrue (watches c.pair l) → Contains clause.now l) }
    ensures watched { IfSome result (λ c. IsWatched c.pair) }
    ensures free { IfSome result (λ c. AreFree (take c.place assignment.now.trail) c.pair) }
{
    let first = latest(clause, assignment)?;
    let second = latest_before(clause, assignment, first.place)?;
    Some(Choice {
        pair: Pair {
            first: first.literal,
            second: second.literal,
        },
        place: second.place,
    })
}

/// A literal that is not falsified, or the one that is falsified last.
fn latest(clause: &[LitCode], assignment: &Assignment) -> Option<LatePick>
    requires { IsWithin assignment.now.width clause.now }
    ensures { IfSome result (λ pick. IsPick assignment.now.trail clause.now pick) }
{
    let place = assignment.count();
    match find_free(clause, assignment) {
        Some(literal) => Some(LatePick { literal, place }),
        None => latest_before(clause, assignment, place),
    }
}

/// The last literal that is falsified before a place.
fn latest_before(clause: &[LitCode], assignment: &Assignment, before: usize) -> Option<LatePick>
    requires { before ≤ length assignment.now.trail }
    ensures { IfSome result (λ pick. IsPickBefore assignment.now.trail clause.now before pick) }
{
    let mut place = before;
    while place > 0 {
        place -= 1;
        let falsified = !assignment.nth(place);
        if let Some(literal) = find(clause, falsified) {
            return Some(LatePick { literal, place });
        }
    }
    None
}

/// The literal, where it stands in the clause.
fn find(clause: &[LitCode], l: Lit) -> Option<LitCode>
    ensures is { IfSome result (λ k. k ≡ l) }
    ensures stands { IfSome result (λ k. Contains clause.now k) }
{
    for k in clause {
        if k.lit() == l {
            return Some(*k);
        }
    }
    None
}

/// Two literals that differ and are not false.
fn free_pair(clause: &[LitCode], assignment: &Assignment) -> Option<Pair>
    requires { IsWithin assignment.now.width clause.now }
    ensures { IfSome result (λ p. IsFreePair assignment.now.trail clause.now p) }
{
    let first = find_free(clause, assignment)?;
    let second = find_other(clause, first, assignment)?;
    Some(Pair { first, second })
}

/// A literal that is not false.
fn find_free(clause: &[LitCode], assignment: &Assignment) -> Option<LitCode>
    requires { IsWithin assignment.now.width clause.now }
    ensures stands { IfSome result (λ l. Contains clause.now l) }
    ensures free { IfSome result (λ l. ¬ IsFalse assignment.now.trail l) }
{
    for l in clause {
        if !is_false(assignment, *l) {
            return Some(*l);
        }
    }
    None
}

/// Two literals that differ, where there are such.
fn any_pair(clause: &[LitCode]) -> Pair
    ensures { IsAnyPair clause.now result }
{
    let Some(first) = clause.first() else {
        return Pair {
            first: LitCode::default(),
            second: LitCode::default(),
        };
    };
    Pair {
        first: *first,
        second: differing(clause, *first),
    }
}

/// A literal that is not this one, or this one where there is no other.
fn differing(clause: &[LitCode], l: LitCode) -> LitCode
    ensures { IsDiffering clause.now l result }
{
    for k in clause {
        if *k != l {
            return *k;
        }
    }
    l
}
