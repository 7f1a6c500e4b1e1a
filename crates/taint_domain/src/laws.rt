//! What values and masks promise, each law the contract of a function that does nothing. The lemmas of the same content are
//! in `proofs/MaskLaws.antt`, where a proof takes them from.
ghost use Rattle.std.specs.Prelude.{◌≡◌, ℕ, ◌<◌};
ghost use Rattle.std.specs.Int.{bit_at};
ghost use Rattle.bits_core.specs.declared.operator.Op.TheVariants.{Add, Sub, Neg};
ghost use Rattle.bits_core.specs.declared.points.Point.{Point};
ghost use Rattle.bits_core.specs.Operator.{operator_value};
ghost use Rattle.taint_domain.specs.declared.tainted.Tainted.{Tainted};
ghost use Rattle.taint_domain.specs.Results.{ResultOf};
ghost use Rattle.taint_domain.specs.Tainted.{StandsFor, IsClear, ReadsAreZero, IsSettledBelow};

/// A value stands for its own number at each point, where all reads give 0 for no other, and without a mask for no other
/// anywhere.
pub fn values_stand_for_their_numbers()
    ensures own { (v : Tainted) (p : Point) → StandsFor v p v.number.value }
    ensures zeros { (v : Tainted) (p : Point) (x : ℕ) → ReadsAreZero p → StandsFor v p x
        → x ≡ v.number.value }
    ensures clear { (v : Tainted) (p : Point) (x : ℕ) → IsClear v → StandsFor v p x
        → x ≡ v.number.value }
{}

/// Two numbers that one value stands for, as it may in two runs, have the same bit wherever its mask has none.
pub fn runs_agree_outside_masks()
    ensures { (v : Tainted) (p q : Point) (x y place : ℕ) → StandsFor v p x → StandsFor v q y
        → bit_at v.mask.value place ≡ 0 → bit_at x place ≡ bit_at y place }
{}

/// Below the lowest masked place of both operands all runs have the bits of one sum, difference or negation.
pub fn sums_settle_from_below()
    ensures sum { (a b : Tainted) (n place z : ℕ) → a.number.width ≡ b.number.width
        → IsSettledBelow a n → IsSettledBelow b n → place < n → ResultOf Add a b z
        → bit_at z place ≡ bit_at (operator_value Add
        a.number.width a.number.value b.number.width b.number.value) place }
    ensures difference { (a b : Tainted) (n place z : ℕ) → a.number.width ≡ b.number.width
        → IsSettledBelow a n → IsSettledBelow b n → place < n → ResultOf Sub a b z
        → bit_at z place ≡ bit_at (operator_value Sub
        a.number.width a.number.value b.number.width b.number.value) place }
    ensures negation { (a b : Tainted) (n place z : ℕ) → IsSettledBelow a n → place < n
        → ResultOf Neg a b z
        → bit_at z place ≡ bit_at (operator_value Neg a.number.width a.number.value 0 0) place }
{}
