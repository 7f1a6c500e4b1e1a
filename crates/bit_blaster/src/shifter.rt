//! The parts of a barrel shifter: stages that shift by a power of two or not at all, and the amount cut to their number.
ghost use Rattle.std.specs.Prelude.{◌≡◌, ℕ, ◌-◌, ◌≤◌, ◌^◌, false, IfOk, length, slice_index_or};
ghost use Rattle.bit_blaster.specs.declared.wire.Wire.TheVariants.{Known};
ghost use Rattle.bit_blaster.specs.Netlist.{Extends, HasWire, HasWord};
ghost use Rattle.bit_blaster.specs.Shifter.{GivesReduced, GivesShifted, GivesSome, shifted};

use crate::circuit::Circuit;
use crate::wire::Wire;
use std::alloc::{AllocError, Global};

/// Towards the high bits, or the low ones.
#[derive(Clone, Copy, Debug)]
pub(crate) enum Direction {
    Left,
    Right,
}

/// The word shifted by a fixed number of places, which costs no gate.
#[tactic(auto, using(crate::proofs::ShifterLemmas::shifted_left_is))]
pub(crate) fn moved(
    alloc: Global,
    direction: Direction,
    fill: Wire,
    word: &[Wire],
    places: usize,
) -> Result<Vec<Wire>, AllocError>
    requires { places ≤ length word.now }
    ensures { IfOk result (λ r. r.items ≡ shifted direction fill places word.now) }
{
    let mut result = Vec::new(alloc);
    match direction {
        Direction::Left => {
            result.resize(places, fill)?;
            result.extend_from_slice(&word[..word.len() - places])?;
            Ok(result)
        }
        Direction::Right => {
            result.extend_from_slice(&word[places..])?;
            result.resize(word.len(), fill)?;
            Ok(result)
        }
    }
}

/// The wire of the sign bit. Without a bit nothing is negative.
pub(crate) fn sign_of(word: &[Wire]) -> Wire
    ensures { result ≡ slice_index_or word.now (length word.now - 1) (Known false) }
{
    match word.last() {
        Some(sign) => *sign,
        None => Wire::Known(false),
    }
}

/// How many stages shift a word of this width out: the least number whose power of two is not below it.
pub(crate) fn stages_of(width: usize) -> usize
    ensures enough { width ≤ 2 ^ result }
    ensures least { (k : ℕ) → width ≤ 2 ^ k → result ≤ k }
{
    if width <= 1 {
        0
    } else {
        (width - 1).ilog2() as usize + 1
    }
}

impl Circuit {
    /// Whether one of the wires is true.
    #[tactic(auto, using(crate::proofs::ShifterLemmas::some_none, crate::proofs::WordLemmas::has_at, crate::proofs::NetlistLemmas::extends_itself, crate::proofs::NetlistLemmas::has_word_along))]
    pub(crate) fn any(&mut self, word: &[Wire]) -> Result<Wire, AllocError>
        requires { HasWord self.old word.now }
        ensures extends { Extends self.old self.new }
        ensures gives { IfOk result (GivesSome (λ bits. bits) self.old self.new word.now) }
    {
        let mut some = Wire::Known(false);
        for (i, bit) in word.iter().enumerate() {
            some = self.or(some, *bit)?;
        }
        Ok(some)
    }

    #[tactic(auto, using(crate::proofs::ShifterLemmas::has_drop))]
    /// The amount's bits of the first stages, and one for whether a higher bit is set.
    pub(crate) fn reduced(
        &mut self,
        amount: &[Wire],
        stages: usize,
    ) -> Result<Vec<Wire>, AllocError>
        requires { HasWord self.old amount.now }
        ensures extends { Extends self.old self.new }
        ensures gives { IfOk result (λ r. GivesReduced stages self.old self.new
            amount.now r.items) }
    {
        let low = stages.min(amount.len());
        let above = self.any(&amount[low..])?;
        let mut word = Vec::new(self.alloc());
        word.extend_from_slice(&amount[..low])?;
        word.push(above)?;
        Ok(word)
    }

    #[tactic(auto, using(crate::proofs::ShifterLemmas::shifted_none, crate::proofs::ShifterLemmas::length_shifted, crate::proofs::ShifterLemmas::has_shifted, crate::proofs::WordLemmas::has_at, crate::proofs::NetlistLemmas::extends_itself, crate::proofs::NetlistLemmas::has_word_along))]
    /// The word shifted by a power of two for each bit of the amount that is set, at most by its width.
    pub(crate) fn staged(
        &mut self,
        direction: Direction,
        fill: Wire,
        a: &[Wire],
        amount: &[Wire],
    ) -> Result<Vec<Wire>, AllocError>
        requires fill { HasWire self.old fill }
        requires first { HasWord self.old a.now }
        requires amount { HasWord self.old amount.now }
        ensures extends { Extends self.old self.new }
        ensures gives { IfOk result (λ r. GivesShifted direction (λ bits. bits) self.old self.new
            fill a.now amount.now r.items) }
    {
        let mut word = Vec::new(self.alloc());
        word.extend_from_slice(a)?;
        let mut places = a.len().min(1);
        for (i, bit) in amount.iter().enumerate() {
            let further = moved(self.alloc(), direction, fill, &word, places)?;
            word = self.choose_word(*bit, &further, &word)?;
            places = places.saturating_mul(2).min(a.len());
        }
        Ok(word)
    }
}
