//! For circuits: what the textbook's circuits over lists of bits compute, least significant bit first.
ghost use Rattle.std.specs.Prelude.{◌≡◌, ℕ, ◌+◌, ◌-◌, ◌%◌, ◌^◌, ◌<◌, ◌≤◌, Bool, true, false, not, ◌&&◌, ◌||◌};
ghost use Rattle.std.specs.Prelude.{if◌then◌else◌, map, List, ◌++◌, length, take, drop, replicate};
ghost use Rattle.std.specs.Prelude.{slice_index_or, nat_lt, nat_le, int_lt, int_le, ◌==◌};
ghost use Rattle.std.specs.Int.{bit_at};
ghost use Rattle.bits_core.specs.declared.operator.Op.TheVariants.{Add, Sub, Mul, AddSatU, SubSatU};
ghost use Rattle.bits_core.specs.declared.operator.Op.TheVariants.{AddSatS, SubSatS, And, Or, Xor, Not};
ghost use Rattle.bits_core.specs.declared.operator.Op.TheVariants.{Neg, Shl, ShrU, ShrS, Cat};
ghost use Rattle.bits_core.specs.BitList.{number_of, bits_of, sign_bit};
ghost use Rattle.bits_core.specs.Circuit.{shifted_left, shifted_right, exclusive_or, bitwise};
ghost use Rattle.bits_core.specs.Circuit.{signed_sum_or_end, signed_difference_or_end, sum_bit};
ghost use Rattle.bits_core.specs.Circuit.{ripple_sum, ripple_carry, shift_and_add, barrel_left};
ghost use Rattle.bits_core.specs.Circuit.{barrel_right, equal_bits, sign_turned};
ghost use Rattle.bits_core.specs.Number.{signed_value, slice_value, extend_value};
ghost use Rattle.bits_core.specs.Operator.{operator_value};

/// For every circuit: the number of a list of bits, least significant first, and the bits of a number.
pub fn bits_and_numbers()
    ensures number { (w x : ℕ) → number_of (bits_of w x) ≡ x % 2 ^ w }
    ensures list { (bs : List Bool) → bits_of (length bs) (number_of bs) ≡ bs }
    ensures place { (bs : List Bool) (place : ℕ)
        → (bit_at (number_of bs) place == 1) ≡ slice_index_or bs place false }
{}

/// For circuits of one gate a place.
pub fn gates_work_place_by_place()
    ensures both { (xs ys : List Bool) → length xs ≡ length ys
        → number_of (bitwise (λ x y. x && y) xs ys)
        ≡ operator_value And (length xs) (number_of xs) (length ys) (number_of ys) }
    ensures either { (xs ys : List Bool) → length xs ≡ length ys
        → number_of (bitwise (λ x y. x || y) xs ys)
        ≡ operator_value Or (length xs) (number_of xs) (length ys) (number_of ys) }
    ensures one { (xs ys : List Bool) → length xs ≡ length ys
        → number_of (bitwise exclusive_or xs ys)
        ≡ operator_value Xor (length xs) (number_of xs) (length ys) (number_of ys) }
    ensures neither { (xs : List Bool) → number_of (map not xs)
        ≡ operator_value Not (length xs) (number_of xs) 0 0 }
{}

/// For circuits without a gate: joins, slices, cuts and extensions only move bits.
pub fn wires_move_bits()
    ensures join { (xs ys : List Bool) → number_of (ys ++ xs)
        ≡ operator_value Cat (length xs) (number_of xs) (length ys) (number_of ys) }
    ensures slice { (high low : ℕ) (xs : List Bool)
        → number_of (take (high - low + 1) (drop low xs))
        ≡ slice_value (number_of xs) high low }
    ensures cut { (signed : Bool) (n : ℕ) (xs : List Bool) → n ≤ length xs → number_of (take n xs)
        ≡ extend_value signed (length xs) (number_of xs) n }
    ensures zeros { (n : ℕ) (xs : List Bool) → number_of (xs ++ replicate n false)
        ≡ extend_value false (length xs) (number_of xs) (length xs + n) }
    ensures signs { (n : ℕ) (xs : List Bool) → 1 ≤ length xs
        → number_of (xs ++ replicate n (sign_bit xs))
        ≡ extend_value true (length xs) (number_of xs) (length xs + n) }
{}

/// For the ripple-carry adder: sums, differences, negations, the bit at a place from the carry into it, and the last carry,
/// which tells of a difference that there is no borrow.
pub fn adders_add()
    ensures sum { (xs ys : List Bool) → length xs ≡ length ys → number_of (ripple_sum xs ys false)
        ≡ operator_value Add (length xs) (number_of xs) (length ys) (number_of ys) }
    ensures difference { (xs ys : List Bool) → length xs ≡ length ys
        → number_of (ripple_sum xs (map not ys) true)
        ≡ operator_value Sub (length xs) (number_of xs) (length ys) (number_of ys) }
    ensures negation { (xs : List Bool)
        → number_of (ripple_sum (replicate (length xs) false) (map not xs) true)
        ≡ operator_value Neg (length xs) (number_of xs) 0 0 }
    ensures place { (xs ys : List Bool) (c : Bool) (place : ℕ) → length xs ≡ length ys
        → place < length xs
        → slice_index_or (ripple_sum xs ys c) place false
        ≡ sum_bit (slice_index_or xs place false) (slice_index_or ys place false)
        (ripple_carry (take place xs) (take place ys) c) }
    ensures carry { (xs ys : List Bool) → length xs ≡ length ys → ripple_carry xs (map not ys) true
        ≡ nat_le (number_of ys) (number_of xs) }
{}

/// For the shift-and-add multiplier.
pub fn multipliers_multiply()
    ensures { (xs ys : List Bool) → number_of (shift_and_add (replicate (length xs) false) xs ys)
        ≡ operator_value Mul (length xs) (number_of xs) (length ys) (number_of ys) }
{}

/// For the barrel shifter, whose amount may have any number of bits, and the bit at a place after one of its stages.
pub fn shifters_shift()
    ensures left { (xs bs : List Bool) → number_of (barrel_left 0 xs bs)
        ≡ operator_value Shl (length xs) (number_of xs) (length bs) (number_of bs) }
    ensures right { (xs bs : List Bool) → number_of (barrel_right false 0 xs bs)
        ≡ operator_value ShrU (length xs) (number_of xs) (length bs) (number_of bs) }
    ensures place_left { (n : ℕ) (xs : List Bool) (place : ℕ) → place < length xs
        → slice_index_or (shifted_left n xs) place false
        ≡ (if nat_lt place n then false else slice_index_or xs (place - n) false) }
    ensures place_right { (fill : Bool) (n : ℕ) (xs : List Bool) (place : ℕ)
        → n ≤ length xs → place < length xs
        → slice_index_or (shifted_right fill n xs) place false
        ≡ (if nat_lt (n + place) (length xs) then slice_index_or xs (n + place) false else fill) }
    ensures signed { (xs bs : List Bool) → 1 ≤ length xs
        → number_of (barrel_right (sign_bit xs) 0 xs bs)
        ≡ operator_value ShrS (length xs) (number_of xs) (length bs) (number_of bs) }
{}

/// For comparators: equality place by place, the order from a borrow, the signed order with the sign bits turned round.
pub fn comparators_compare()
    ensures equal { (xs ys : List Bool) → length xs ≡ length ys → equal_bits xs ys
        ≡ (number_of xs == number_of ys) }
    ensures less { (xs ys : List Bool) → length xs ≡ length ys
        → not (ripple_carry xs (map not ys) true)
        ≡ nat_lt (number_of xs) (number_of ys) }
    ensures less_signed { (xs ys : List Bool) → 1 ≤ length xs → length xs ≡ length ys
        → nat_lt (number_of (sign_turned xs)) (number_of (sign_turned ys))
        ≡ int_lt (signed_value (length xs) (number_of xs))
        (signed_value (length ys) (number_of ys)) }
    ensures less_equal_signed { (xs ys : List Bool) → 1 ≤ length xs → length xs ≡ length ys
        → nat_le (number_of (sign_turned xs)) (number_of (sign_turned ys))
        ≡ int_le (signed_value (length xs) (number_of xs))
        (signed_value (length ys) (number_of ys)) }
{}

/// For saturating adders: the sum or the difference, or the end of the type where the carry or the signs tell that it is past.
pub fn saturating_adders_stop()
    ensures sum { (xs ys : List Bool) → length xs ≡ length ys
        → operator_value AddSatU (length xs) (number_of xs) (length ys) (number_of ys)
        ≡ (if ripple_carry xs ys false then 2 ^ length xs - 1
        else number_of (ripple_sum xs ys false)) }
    ensures difference { (xs ys : List Bool) → length xs ≡ length ys
        → operator_value SubSatU (length xs) (number_of xs) (length ys) (number_of ys)
        ≡ (if ripple_carry xs (map not ys) true
        then number_of (ripple_sum xs (map not ys) true) else 0) }
    ensures signed_sum { (xs ys : List Bool) → 1 ≤ length xs → length xs ≡ length ys
        → operator_value AddSatS (length xs) (number_of xs) (length xs) (number_of ys)
        ≡ signed_sum_or_end xs ys (ripple_sum xs ys false) }
    ensures signed_difference { (xs ys : List Bool) → 1 ≤ length xs → length xs ≡ length ys
        → operator_value SubSatS (length xs) (number_of xs) (length xs) (number_of ys)
        ≡ signed_difference_or_end xs ys (ripple_sum xs (map not ys) true) }
{}
