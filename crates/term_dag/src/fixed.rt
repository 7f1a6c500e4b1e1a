//! What is fixed of a point, and the runs of input bits that are fixed or are not.
ghost use Rattle.std.specs.Prelude.{◌≡◌, ◌+◌, ◌-◌, ◌<◌, ◌≤◌, ◌↔◌, ℕ, Bool, List, Some, IfSome, IfNone, length, reverse, slice_get, slice_range};
ghost use Rattle.bits_core.specs.declared.number.TheConstants.{MAX_WIDTH};
ghost use Rattle.bits_core.specs.BitList.{number_of};

use bits_core::Bits;
use sqlite_items::Items;

/// Some of the input bits and reads of a point, each at its number. Past the end of a list nothing is fixed.
#[derive(Debug, Drop)]
pub struct Fixed {
    pub inputs: Items<Option<bool>>,
    pub reads: Items<Option<Bits>>,
}

impl Fixed {
    ghost use Rattle.term_dag.specs.Substitution.{IsFixedAt, Overlays};

    /// The input bit of this number, where it is fixed.
    pub fn bit(&self, number: usize) -> Option<bool>
        ensures some { IfSome result (λ b. slice_get self.now.inputs number ≡ Some (Some b)) }
        ensures none { IfNone result (¬ IsFixedAt self.now.inputs number) }
    {
        *self.inputs.get(number)?
    }

    /// What the read of this number gives, where that is fixed.
    pub fn read(&self, number: usize) -> Option<Bits>
        ensures some { IfSome result (λ b. slice_get self.now.reads number ≡ Some (Some b)) }
        ensures none { IfNone result (¬ IsFixedAt self.now.reads number) }
    {
        *self.reads.get(number)?
    }

    /// Where the run of input bits ends that are fixed as the first is, or are free as that is.
    pub(crate) fn run_end(&self, from: usize, end: usize) -> usize
        requires { from < end }
        ensures after { from < result }
        ensures within { result ≤ end }
        ensures fixed { IsFixedAt self.now.inputs from
            → (bit : ℕ) → from ≤ bit → bit < result → IsFixedAt self.now.inputs bit }
        ensures free { ¬ IsFixedAt self.now.inputs from
            → (bit : ℕ) → from ≤ bit → bit < result → ¬ IsFixedAt self.now.inputs bit }
        ensures turn { result < end → result ≤ length self.now.inputs }
    {
        let is_fixed = self.bit(from).is_some();
        for at in from + 1..end {
            if self.bit(at).is_some() != is_fixed {
                return at;
            }
        }
        end
    }

    /// The number of the fixed bits from one to another.
    pub(crate) fn run_number(&self, from: usize, to: usize) -> Bits
        requires some_bit { from < to }
        requires at_most_widest { to ≤ from + MAX_WIDTH }
        requires fixed { (bit : ℕ) → from ≤ bit → bit < to → IsFixedAt self.now.inputs bit }
        ensures width { result.width ≡ to - from }
        ensures value { (under over : List Bool) → Overlays self.now.inputs under over
            → result.value ≡ number_of (reverse (slice_range over from to)) }
    {
        let mut number = 0;
        for at in from..to {
            let bit = self.bit(at).unwrap_or(false);
            number = 2 * number + bit as u128;
        }
        Bits {
            width: (to - from) as u8,
            value: number,
        }
    }
}
