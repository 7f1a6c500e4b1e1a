//! Circuits on words: lists of wires, the lowest bit first.
ghost use Rattle.std.specs.Prelude.{◌≡◌, ◌+◌, ◌≤◌, ◌∷◌, [], IfOk, List, Bool, length, map, replicate};
ghost use Rattle.bits_core.specs.Circuit.{bitwise};
ghost use Rattle.bit_blaster.specs.Netlist.{Extends, GivesTwo, HasWire, HasWord};
ghost use Rattle.bit_blaster.specs.Wire.{opposite};
ghost use Rattle.bit_blaster.specs.declared.wire.Wire.TheVariants.{Known};
ghost use Rattle.bit_blaster.specs.Word.{GivesBits, GivesCarries, GivesChosen, bit_function};

use crate::circuit::Circuit;
use crate::wire::Wire;
use std::alloc::{AllocError, Global};

/// A gate of two operands.
#[derive(Clone, Copy, Debug)]
pub(crate) enum BitGate {
    And,
    Or,
    Xor,
}

/// The carries of a row of full adders: into each place, and out of the last, which stands apart too.
#[derive(Debug, Drop)]
pub(crate) struct CarryRow {
    pub(crate) all: Vec<Wire>,
    pub(crate) last: Wire,
}

impl Circuit {
    fn bit_gate(&mut self, gate: BitGate, a: Wire, b: Wire) -> Result<Wire, AllocError>
        requires first { HasWire self.old a }
        requires second { HasWire self.old b }
        ensures extends { Extends self.old self.new }
        ensures gives { IfOk result (GivesTwo (bit_function gate) self.old self.new a b) }
    {
        match gate {
            BitGate::And => self.and(a, b),
            BitGate::Or => self.or(a, b),
            BitGate::Xor => self.xor(a, b),
        }
    }

    /// The gate at each place.
    #[tactic(auto, using(crate::proofs::WordLemmas::bitwise_none, crate::proofs::WordLemmas::has_at, crate::proofs::NetlistLemmas::extends_itself))]
    pub(crate) fn bit_by_bit(
        &mut self,
        gate: BitGate,
        a: &[Wire],
        b: &[Wire],
    ) -> Result<Vec<Wire>, AllocError>
        requires first { HasWord self.old a.now }
        requires second { HasWord self.old b.now }
        requires long { length a.now ≤ length b.now }
        ensures extends { Extends self.old self.new }
        ensures gives { IfOk result (λ r. GivesBits (length a.now) (bitwise (bit_function gate))
            self.old self.new a.now b.now r.items) }
    {
        let mut word = Vec::new(self.alloc());
        for (i, x) in a.iter().enumerate() {
            word.push(self.bit_gate(gate, *x, b[i])?)?;
        }
        Ok(word)
    }

    /// The carries of a row of full adders.
    #[tactic(auto, using(crate::proofs::WordLemmas::carries_none, crate::proofs::WordLemmas::has_at, crate::proofs::NetlistLemmas::extends_itself, crate::proofs::NetlistLemmas::extends_along))]
    pub(crate) fn carries(
        &mut self,
        a: &[Wire],
        b: &[Wire],
        first: Wire,
    ) -> Result<CarryRow, AllocError>
        requires first { HasWord self.old a.now }
        requires second { HasWord self.old b.now }
        requires carry { HasWire self.old first }
        requires long { length a.now ≡ length b.now }
        ensures extends { Extends self.old self.new }
        ensures gives { IfOk result (λ r. GivesCarries (length a.now + 1) (λ xs. xs) (λ ys. ys)
            self.old self.new a.now b.now first r.last r.all.items) }
    {
        let mut all = Vec::new(self.alloc());
        let mut last = first;
        all.push(first)?;
        for (i, x) in a.iter().enumerate() {
            let carry = self.majority(*x, b[i], last)?;
            all.push(carry)?;
            last = carry;
        }
        Ok(CarryRow { all, last })
    }

    /// The first word where the condition is true, and else the second.
    #[tactic(auto, using(crate::proofs::WordLemmas::chosen_none, crate::proofs::WordLemmas::has_at, crate::proofs::NetlistLemmas::extends_itself))]
    pub(crate) fn choose_word(
        &mut self,
        condition: Wire,
        a: &[Wire],
        b: &[Wire],
    ) -> Result<Vec<Wire>, AllocError>
        requires condition { HasWire self.old condition }
        requires first { HasWord self.old a.now }
        requires second { HasWord self.old b.now }
        requires long { length a.now ≡ length b.now }
        ensures extends { Extends self.old self.new }
        ensures gives { IfOk result (λ r. GivesChosen (length a.now) (λ bits. bits)
            self.old self.new condition a.now b.now r.items) }
    {
        let mut word = Vec::new(self.alloc());
        for (i, x) in a.iter().enumerate() {
            word.push(self.choose(condition, *x, b[i])?)?;
        }
        Ok(word)
    }
}

/// The word with each bit turned round, which costs no gate.
pub(crate) fn turned(alloc: Global, word: &[Wire]) -> Result<Vec<Wire>, AllocError>
    ensures { IfOk result (λ r. r.items ≡ map opposite word.now) }
{
    word.iter().map(|w| !*w).collect(alloc)
}

/// The word of one bit.
pub(crate) fn one_bit(alloc: Global, wire: Wire) -> Result<Vec<Wire>, AllocError>
    ensures { IfOk result (λ r. r.items ≡ wire ∷ []) }
{
    let mut word = Vec::new(alloc);
    word.push(wire)?;
    Ok(word)
}

/// The word of this width that has this bit at each place.
pub(crate) fn all_known(alloc: Global, truth: bool, width: usize) -> Result<Vec<Wire>, AllocError>
    ensures { IfOk result (λ r. r.items ≡ replicate width (Known truth)) }
{
    let mut word = Vec::new(alloc);
    word.resize(width, Wire::Known(truth))?;
    Ok(word)
}
