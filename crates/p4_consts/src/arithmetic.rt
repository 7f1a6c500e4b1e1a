//! Operations on compile-time integers (P4-16, "Operations on arbitrary-precision integers"). There is no result past the
//! 128 bits that this profile keeps.
ghost use Rattle.std.specs.Prelude.{◌≡◌, false, not, ◌==◌, ◌+◌, ◌-◌, ◌/◌, ◌^◌, ◌≤◌, min, option_map, neg_ℤ, ◌+ℤ◌, ◌-ℤ◌, ◌*ℤ◌, int_lt, int_le, unsigned_abs, if◌then◌else◌};
ghost use Rattle.p4_rules.specs.Integers.{is_negative as is_below_zero, shifted_left as left_by_rules, shifted_right as right_by_rules, quotient as quotient_by_rules, remainder as remainder_by_rules};
ghost use Rattle.p4_consts.specs.Integers.{integer_of, signed, kept_or_none};

use crate::integer::Integer;

impl Integer {
    #[tactic(auto, using(crate::proofs::ArithmeticLaws::negated_signed))]
    pub fn negated(self) -> Self
        ensures { integer_of result ≡ neg_ℤ (integer_of self) }
    {
        Integer {
            negative: !self.negative,
            magnitude: self.magnitude,
        }
    }

    #[tactic(auto, using(crate::proofs::ArithmeticLaws::sum_alike, crate::proofs::ArithmeticLaws::sum_left, crate::proofs::ArithmeticLaws::sum_right))]
    pub fn plus(self, other: Integer) -> Option<Integer>
        ensures { option_map integer_of result
            ≡ kept_or_none (integer_of self +ℤ integer_of other) }
    {
        if self.negative == other.negative {
            return self.further(other.magnitude);
        }
        if other.magnitude <= self.magnitude {
            return self.nearer(other.magnitude);
        }
        other.nearer(self.magnitude)
    }

    /// So much further from 0.
    #[tactic(auto, using(crate::proofs::ArithmeticLaws::kept_signed, crate::proofs::ArithmeticLaws::too_large_signed))]
    fn further(self, more: u128) -> Option<Integer>
        ensures { option_map integer_of result
            ≡ kept_or_none (signed self.negative (self.magnitude + more)) }
    {
        match self.magnitude.checked_add(more) {
            Some(magnitude) => Some(Integer {
                negative: self.negative,
                magnitude,
            }),
            None => None,
        }
    }

    /// So much nearer to 0.
    #[tactic(auto, using(crate::proofs::ArithmeticLaws::kept_signed))]
    fn nearer(self, less: u128) -> Option<Integer>
        requires { less ≤ self.magnitude }
        ensures { option_map integer_of result
            ≡ kept_or_none (signed self.negative (self.magnitude - less)) }
    {
        Some(Integer {
            negative: self.negative,
            magnitude: self.magnitude - less,
        })
    }

    pub fn minus(self, other: Integer) -> Option<Integer>
        ensures { option_map integer_of result
            ≡ kept_or_none (integer_of self -ℤ integer_of other) }
    {
        self.plus(other.negated())
    }

    #[tactic(auto, using(crate::proofs::ArithmeticLaws::product_signed, crate::proofs::ArithmeticLaws::kept_signed, crate::proofs::ArithmeticLaws::too_large_signed))]
    pub fn times(self, other: Integer) -> Option<Integer>
        ensures { option_map integer_of result
            ≡ kept_or_none (integer_of self *ℤ integer_of other) }
    {
        let negative = of_product(self.negative, other.negative);
        match self.magnitude.checked_mul(other.magnitude) {
            Some(magnitude) => Some(Integer {
                negative,
                magnitude,
            }),
            None => None,
        }
    }

    /// `a << b`, which is a * 2^b.
    #[tactic(auto, using(crate::proofs::ArithmeticLaws::left_of_none, crate::proofs::ArithmeticLaws::left_past, crate::proofs::ArithmeticLaws::left_within))]
    pub fn shifted_left(self, amount: u128) -> Option<Integer>
        ensures { option_map integer_of result
            ≡ kept_or_none (left_by_rules (integer_of self) amount) }
    {
        if self.magnitude == 0 {
            return Some(self);
        }
        if amount >= 128 {
            return None;
        }
        self.times(Integer::from_u128(1 << amount as u32))
    }

    /// `a >> b`, which is a / 2^b, rounded down.
    #[tactic(auto, using(crate::proofs::ArithmeticLaws::right_below, crate::proofs::ArithmeticLaws::right_natural))]
    pub fn shifted_right(self, amount: u128) -> Self
        ensures { integer_of result ≡ right_by_rules (integer_of self) amount }
    {
        if self.negative && 0 < self.magnitude {
            return Integer {
                negative: true,
                magnitude: over_power(self.magnitude - 1, amount) + 1,
            };
        }
        Integer::from_u128(over_power(self.magnitude, amount))
    }

    /// `a / b` of integers that are not negative, the second above 0.
    #[tactic(auto, using(crate::proofs::ArithmeticLaws::quotient_signed, crate::proofs::ArithmeticLaws::some_signed))]
    pub fn quotient(self, other: Integer) -> Self
        requires left { is_below_zero (integer_of self) ≡ false }
        requires right { is_below_zero (integer_of other) ≡ false }
        requires some { (unsigned_abs (integer_of other) == 0) ≡ false }
        ensures { integer_of result ≡ quotient_by_rules (integer_of self) (integer_of other) }
    {
        Integer::from_u128(self.magnitude / other.magnitude)
    }

    /// `a % b` of integers that are not negative, the second above 0.
    #[tactic(auto, using(crate::proofs::ArithmeticLaws::remainder_signed, crate::proofs::ArithmeticLaws::some_signed))]
    pub fn remainder(self, other: Integer) -> Self
        requires left { is_below_zero (integer_of self) ≡ false }
        requires right { is_below_zero (integer_of other) ≡ false }
        requires some { (unsigned_abs (integer_of other) == 0) ≡ false }
        ensures { integer_of result ≡ remainder_by_rules (integer_of self) (integer_of other) }
    {
        Integer::from_u128(self.magnitude % other.magnitude)
    }

    pub fn is_less(self, other: Integer) -> bool
        ensures { result ≡ int_lt (integer_of self) (integer_of other) }
    {
        if self.is_negative() {
            return !other.is_negative() || other.magnitude < self.magnitude;
        }
        !other.is_negative() && self.magnitude < other.magnitude
    }

    pub fn is_at_most(self, other: Integer) -> bool
        ensures { result ≡ int_le (integer_of self) (integer_of other) }
    {
        !other.is_less(self)
    }
}

/// Whether a product is negative.
fn of_product(one: bool, other: bool) -> bool
    ensures { result ≡ (if one then not other else other) }
{
    if one { !other } else { other }
}

/// Over a power of two.
fn over_power(value: u128, amount: u128) -> u128
    ensures { result ≡ value / 2 ^ min amount 128 }
{
    if amount < 128 {
        value >> amount as u32
    } else {
        0
    }
}
