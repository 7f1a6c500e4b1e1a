//! The gates on wires. What is known, equal or opposite costs no gate.
ghost use Rattle.std.specs.Prelude.{◌≡◌, ◌≢◌, ◌&&◌, ◌||◌, if◌then◌else◌, IfOk};
ghost use Rattle.bits_core.specs.Circuit.{carry_bit, exclusive_or};
ghost use Rattle.cnf_core.specs.declared.formula.Lit.{Lit as Literal};
ghost use Rattle.bit_blaster.specs.Netlist.{Extends, GivesThree, GivesTwo, HasWire};
ghost use Rattle.bit_blaster.specs.Pair.{IsSameWhere};

use crate::circuit::Circuit;
use crate::gate::Gate;
use crate::pair::{Pair, pair_of};
use crate::wire::Wire;
use cnf_core::Lit;
use std::alloc::AllocError;

impl Circuit {
    /// Whether both are true.
    #[tactic(auto, using(crate::proofs::NetlistLemmas::extends_itself, crate::proofs::GateLemmas::and_first_true, crate::proofs::GateLemmas::and_same, crate::proofs::GateLemmas::and_second_true, crate::proofs::GateLemmas::and_first_false, crate::proofs::GateLemmas::and_second_false, crate::proofs::GateLemmas::and_opposites, crate::proofs::GateLemmas::two_by_gate))]
    pub(crate) fn and(&mut self, a: Wire, b: Wire) -> Result<Wire, AllocError>
        requires first { HasWire self.old a }
        requires second { HasWire self.old b }
        ensures extends { Extends self.old self.new }
        ensures gives { IfOk result (GivesTwo (λ x y. x && y) self.old self.new a b) }
    {
        match pair_of(a, b) {
            Pair::FirstKnown(true) | Pair::Same => Ok(b),
            Pair::SecondKnown(true) => Ok(a),
            Pair::FirstKnown(false) | Pair::SecondKnown(false) | Pair::Opposite => {
                Ok(Wire::Known(false))
            }
            Pair::Apart(k, l) => self.add_gate(Gate::And(k, l)),
        }
    }

    /// Whether one of them is true.
    #[tactic(auto, using(crate::proofs::GateLemmas::or_by_and, crate::proofs::GateLemmas::has_opposite))]
    pub(crate) fn or(&mut self, a: Wire, b: Wire) -> Result<Wire, AllocError>
        requires first { HasWire self.old a }
        requires second { HasWire self.old b }
        ensures extends { Extends self.old self.new }
        ensures gives { IfOk result (GivesTwo (λ x y. x || y) self.old self.new a b) }
    {
        let neither = self.and(!a, !b)?;
        Ok(!neither)
    }

    /// Whether they differ.
    #[tactic(auto, using(crate::proofs::NetlistLemmas::extends_itself, crate::proofs::GateLemmas::xor_first_true, crate::proofs::GateLemmas::xor_first_false, crate::proofs::GateLemmas::xor_second_true, crate::proofs::GateLemmas::xor_second_false, crate::proofs::GateLemmas::xor_same, crate::proofs::GateLemmas::xor_opposites, crate::proofs::GateLemmas::two_by_gate))]
    pub(crate) fn xor(&mut self, a: Wire, b: Wire) -> Result<Wire, AllocError>
        requires first { HasWire self.old a }
        requires second { HasWire self.old b }
        ensures extends { Extends self.old self.new }
        ensures gives { IfOk result (GivesTwo exclusive_or self.old self.new a b) }
    {
        match pair_of(a, b) {
            Pair::FirstKnown(true) => Ok(!b),
            Pair::FirstKnown(false) => Ok(b),
            Pair::SecondKnown(true) => Ok(!a),
            Pair::SecondKnown(false) => Ok(a),
            Pair::Same => Ok(Wire::Known(false)),
            Pair::Opposite => Ok(Wire::Known(true)),
            Pair::Apart(k, l) => self.add_gate(Gate::Xor(k, l)),
        }
    }

    /// The second where the first is true, and else the third.
    #[tactic(auto, using(crate::proofs::ChoiceLemmas::has_where, crate::proofs::GateLemmas::has_opposite, crate::proofs::NetlistLemmas::extends_itself))]
    pub(crate) fn choose(&mut self, condition: Wire, a: Wire, b: Wire) -> Result<Wire, AllocError>
        requires condition { HasWire self.old condition }
        requires first { HasWire self.old a }
        requires second { HasWire self.old b }
        ensures extends { Extends self.old self.new }
        ensures gives { IfOk result (GivesThree (λ c x y. if c then x else y)
            self.old self.new condition a b) }
    {
        let not_condition = !condition;
        let first = where_true(condition, a);
        let second = where_true(not_condition, b);
        match pair_of(first, second) {
            Pair::FirstKnown(true) => self.or(condition, second),
            Pair::FirstKnown(false) => self.and(not_condition, second),
            Pair::SecondKnown(true) => self.or(not_condition, first),
            Pair::SecondKnown(false) => self.and(condition, first),
            Pair::Same => Ok(first),
            Pair::Opposite => self.xor(condition, second),
            Pair::Apart(k, l) => self.choose_literal(condition, k, l),
        }
    }

    /// As `choose`, of literals of different variables that are not the condition's.
    fn choose_literal(&mut self, condition: Wire, k: Lit, l: Lit) -> Result<Wire, AllocError>
        requires condition { HasWire self.old condition }
        requires first { HasWire self.old (Wire.Literal k) }
        requires second { HasWire self.old (Wire.Literal l) }
        requires first_apart { (m : Literal) → condition ≡ Wire.Literal m → m.var ≢ k.var }
        requires second_apart { (m : Literal) → condition ≡ Wire.Literal m → m.var ≢ l.var }
        ensures extends { Extends self.old self.new }
        ensures gives { IfOk result (GivesThree (λ c x y. if c then x else y) self.old self.new
            condition (Wire.Literal k) (Wire.Literal l)) }
    {
        match condition {
            Wire::Known(true) => Ok(Wire::Literal(k)),
            Wire::Known(false) => Ok(Wire::Literal(l)),
            Wire::Literal(m) => self.add_gate(Gate::Choose(m, k, l)),
        }
    }

    /// What two of the three say at least: the carry of a full adder.
    pub(crate) fn majority(&mut self, a: Wire, b: Wire, c: Wire) -> Result<Wire, AllocError>
        requires first { HasWire self.old a }
        requires second { HasWire self.old b }
        requires third { HasWire self.old c }
        ensures extends { Extends self.old self.new }
        ensures gives { IfOk result (GivesThree carry_bit self.old self.new a b c) }
    {
        match pair_of(a, b) {
            Pair::FirstKnown(truth) => self.majority_known(truth, b, c),
            Pair::SecondKnown(truth) => self.majority_known(truth, a, c),
            Pair::Same => Ok(a),
            Pair::Opposite => Ok(c),
            Pair::Apart(k, l) => self.majority_apart(k, l, c),
        }
    }

    /// As `majority`, where one of the three is known.
    fn majority_known(&mut self, truth: bool, a: Wire, b: Wire) -> Result<Wire, AllocError>
        requires first { HasWire self.old a }
        requires second { HasWire self.old b }
        ensures extends { Extends self.old self.new }
        ensures gives { IfOk result (GivesTwo (carry_bit truth) self.old self.new a b) }
    {
        if truth { self.or(a, b) } else { self.and(a, b) }
    }

    /// As `majority`, where the first two are literals of different variables.
    fn majority_apart(&mut self, k: Lit, l: Lit, c: Wire) -> Result<Wire, AllocError>
        requires first { HasWire self.old (Wire.Literal k) }
        requires second { HasWire self.old (Wire.Literal l) }
        requires third { HasWire self.old c }
        requires apart { k.var ≢ l.var }
        ensures extends { Extends self.old self.new }
        ensures gives { IfOk result (GivesThree carry_bit self.old self.new
            (Wire.Literal k) (Wire.Literal l) c) }
    {
        let a = Wire::Literal(k);
        let b = Wire::Literal(l);
        match pair_of(a, c) {
            Pair::FirstKnown(_) => unreachable!(),
            Pair::SecondKnown(truth) => self.majority_known(truth, a, b),
            Pair::Same => Ok(a),
            Pair::Opposite => Ok(b),
            Pair::Apart(_, m) => self.majority_literals(k, l, m),
        }
    }

    /// As `majority`, where the first is a literal of another variable than the others.
    fn majority_literals(&mut self, k: Lit, l: Lit, m: Lit) -> Result<Wire, AllocError>
        requires first { HasWire self.old (Wire.Literal k) }
        requires second { HasWire self.old (Wire.Literal l) }
        requires third { HasWire self.old (Wire.Literal m) }
        requires second_apart { k.var ≢ l.var }
        requires third_apart { k.var ≢ m.var }
        ensures extends { Extends self.old self.new }
        ensures gives { IfOk result (GivesThree carry_bit self.old self.new
            (Wire.Literal k) (Wire.Literal l) (Wire.Literal m)) }
    {
        if l.var != m.var {
            self.add_gate(Gate::Majority(k, l, m))
        } else if l.positive == m.positive {
            Ok(Wire::Literal(l))
        } else {
            Ok(Wire::Literal(k))
        }
    }
}

/// A wire that has this one's value where the condition is true, and is not of the condition's variable.
fn where_true(condition: Wire, a: Wire) -> Wire
    ensures { IsSameWhere condition a result }
{
    match pair_of(condition, a) {
        Pair::Same => Wire::Known(true),
        Pair::Opposite => Wire::Known(false),
        Pair::FirstKnown(_) | Pair::SecondKnown(_) | Pair::Apart(..) => a,
    }
}
