//! The bit at a place of what each operator gives, from the bits of its operands, and what the lowest bits decide: for
//! circuits and for masks of bits.
ghost use Rattle.std.specs.Prelude.{◌≡◌, ℕ, suc, ◌+◌, ◌-◌, ◌*◌, ◌/◌, ◌%◌, ◌^◌, ◌<◌, ◌≤◌, min, max};
ghost use Rattle.std.specs.Prelude.{Bool, List, length, take, nat_lt, ◌==◌, true, false, if◌then◌else◌};
ghost use Rattle.std.specs.Int.{bit_at};
ghost use Rattle.bits_core.specs.declared.operator.Op.TheVariants.{Add, Sub, Mul, And, Or, Xor, Not};
ghost use Rattle.bits_core.specs.declared.operator.Op.TheVariants.{Neg, Shl, ShrU, ShrS, Cat};
ghost use Rattle.bits_core.specs.BitList.{bit_value, number_of};
ghost use Rattle.bits_core.specs.Circuit.{ripple_carry};
ghost use Rattle.bits_core.specs.Number.{slice_value, extend_value};
ghost use Rattle.bits_core.specs.Operator.{operator_value};
ghost use Rattle.bits_core.specs.Place.{carry_into, partial_product, SameBelow};

/// Each place of a bitwise operator's result is of that place alone.
pub fn gates_have_one_place()
    ensures both { (w x v y i : ℕ) → bit_at (operator_value And w x v y) i
        ≡ min (bit_at x i) (bit_at y i) }
    ensures either { (w x v y i : ℕ) → bit_at (operator_value Or w x v y) i
        ≡ max (bit_at x i) (bit_at y i) }
    ensures one { (w x v y i : ℕ) → bit_at (operator_value Xor w x v y) i
        ≡ (bit_at x i + bit_at y i) % 2 }
    ensures neither { (w x v y i : ℕ) → x < 2 ^ w → i < w → bit_at (operator_value Not w x v y) i
        ≡ 1 - bit_at x i }
{}

/// A slice, an extension and a join give at each place the bit of one place; of a sign there are copies.
pub fn parts_move_bits()
    ensures slice { (x high low i : ℕ) → i < high - low + 1
        → bit_at (slice_value x high low) i ≡ bit_at x (low + i) }
    ensures zeros { (w x width i : ℕ) → i < width
        → bit_at (extend_value false w x width) i ≡ bit_at x i }
    ensures signs { (w x width i : ℕ) → 1 ≤ w → x < 2 ^ w → i < width
        → bit_at (extend_value true w x width) i ≡ bit_at x (min i (w - 1)) }
    ensures join_low { (w x v y i : ℕ) → i < v
        → bit_at (operator_value Cat w x v y) i ≡ bit_at y i }
    ensures join_high { (w x v y i : ℕ) → y < 2 ^ v → v ≤ i
        → bit_at (operator_value Cat w x v y) i ≡ bit_at x (i - v) }
{}

/// So do the shifts, by any amount.
pub fn shifts_move_bits()
    ensures left { (w x v y i : ℕ) → i < w → bit_at (operator_value Shl w x v y) i
        ≡ (if nat_lt i y then 0 else bit_at x (i - y)) }
    ensures right { (w x v y i : ℕ) → x < 2 ^ w → bit_at (operator_value ShrU w x v y) i
        ≡ bit_at x (y + i) }
    ensures signed_right { (w x v y i : ℕ) → 1 ≤ w → x < 2 ^ w → i < w
        → bit_at (operator_value ShrS w x v y) i ≡ bit_at x (min (y + i) (w - 1)) }
{}

/// The carry of a row of full adders, what it is in whole numbers, and that it is the one over lists of bits.
pub fn carries_are_of_full_adders()
    ensures first { (x y c : ℕ) → carry_into 0 x y c ≡ c }
    ensures next { (i x y c : ℕ) → carry_into (suc i) x y c
        ≡ (bit_at x i + bit_at y i + carry_into i x y c) / 2 }
    ensures bit { (i x y c : ℕ) → c < 2 → carry_into i x y c < 2 }
    ensures whole { (i x y c : ℕ) → carry_into i x y c
        ≡ (x % 2 ^ i + y % 2 ^ i + c) / 2 ^ i }
    ensures lists { (xs ys : List Bool) (c : Bool) (i : ℕ) → length xs ≡ length ys → i ≤ length xs
        → bit_value (ripple_carry (take i xs) (take i ys) c)
        ≡ carry_into i (number_of xs) (number_of ys) (bit_value c) }
{}

/// Sums and differences, by the carry; a negation, which keeps the bits up to the lowest 1 and turns those above; and a
/// product, by the partial products.
pub fn sums_have_carries()
    ensures numbers { (x y c i : ℕ) → bit_at (x + y + c) i
        ≡ (bit_at x i + bit_at y i + carry_into i x y c) % 2 }
    ensures sum { (w x v y i : ℕ) → i < w → bit_at (operator_value Add w x v y) i
        ≡ (bit_at x i + bit_at y i + carry_into i x y 0) % 2 }
    ensures difference { (w x v y i : ℕ) → y < 2 ^ w → i < w
        → bit_at (operator_value Sub w x v y) i
        ≡ (bit_at x i + (1 - bit_at y i) + carry_into i x (2 ^ w - 1 - y) 1) % 2 }
    ensures negation { (w x v y i : ℕ) → x < 2 ^ w → i < w
        → bit_at (operator_value Neg w x v y) i
        ≡ (if x % 2 ^ i == 0 then bit_at x i else 1 - bit_at x i) }
    ensures product { (w x v y i : ℕ) → i < w
        → bit_at (operator_value Mul w x v y) i ≡ bit_at (partial_product w x y) i }
{}

/// The sum of the shifted copies of x is the product with the lowest bits of y.
pub fn partial_products_are_products()
    ensures none { (x y : ℕ) → partial_product 0 x y ≡ 0 }
    ensures next { (n x y : ℕ) → partial_product (suc n) x y
        ≡ partial_product n x y + bit_at y n * (x * 2 ^ n) }
    ensures whole { (n x y : ℕ) → partial_product n x y ≡ x * (y % 2 ^ n) }
{}

/// What has the same lowest bits has them by places, and the other way round.
pub fn low_bits_are_places()
    ensures same { (n x y : ℕ) → ((i : ℕ) → i < n → bit_at x i ≡ bit_at y i) → SameBelow n x y }
    ensures place { (n x y i : ℕ) → SameBelow n x y → i < n → bit_at x i ≡ bit_at y i }
    ensures fewer { (m n x y : ℕ) → m ≤ n → SameBelow n x y → SameBelow m x y }
    ensures order { (x y : ℕ) → ((i : ℕ) → bit_at x i ≤ bit_at y i) → x ≤ y }
{}

/// The lowest bits of a result that carries are of the operands' lowest bits alone. Zeros at the end of a factor move
/// the places of the other up.
pub fn low_bits_decide()
    ensures sum { (n w x z v y u : ℕ) → n ≤ w → SameBelow n x z → SameBelow n y u
        → SameBelow n (operator_value Add w x v y) (operator_value Add w z v u) }
    ensures difference { (n w x z v y u : ℕ) → n ≤ w → y < 2 ^ w → u < 2 ^ w
        → SameBelow n x z → SameBelow n y u
        → SameBelow n (operator_value Sub w x v y) (operator_value Sub w z v u) }
    ensures negation { (n w x z v y u : ℕ) → n ≤ w → x < 2 ^ w → z < 2 ^ w → SameBelow n x z
        → SameBelow n (operator_value Neg w x v y) (operator_value Neg w z v u) }
    ensures product { (n w x z v y u : ℕ) → n ≤ w → SameBelow n x z → SameBelow n y u
        → SameBelow n (operator_value Mul w x v y) (operator_value Mul w z v u) }
    ensures zeros { (n k x z y : ℕ) → SameBelow n x z → y % 2 ^ k ≡ 0
        → SameBelow (n + k) (x * y) (z * y) }
    ensures both_zeros { (n k x y : ℕ) → x % 2 ^ n ≡ 0 → y % 2 ^ k ≡ 0
        → (x * y) % 2 ^ (n + k) ≡ 0 }
{}
