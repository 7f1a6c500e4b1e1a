//! Laws of the definitions, each the contract of a function that does nothing: what crates above may rest on. The lemmas
//! of the same content are in `proofs/`, where a proof takes them from. Here: the table, numbers, slices and extensions.
ghost use Rattle.std.specs.Prelude.{◌≡◌, ℕ, ℤ, pos, ◌+◌, ◌-◌, ◌*◌, ◌/◌, ◌%◌, ◌^◌, ◌<◌, ◌≤◌, ◌+ℤ◌, ◌-ℤ◌, ◌*ℤ◌, ◌≤ℤ◌, ◌<ℤ◌};
ghost use Rattle.std.specs.Prelude.{Bool, true, false, if◌then◌else◌, Contains, ◌==◌};
ghost use Rattle.std.specs.Int.{int_div_euclid};
ghost use Rattle.bits_core.specs.declared.number.Bits.{Bits};
ghost use Rattle.bits_core.specs.declared.operator.Op.{Op};
ghost use Rattle.bits_core.specs.declared.operator.Op.TheVariants.{Add, Sub, Mul, Neg, Shl, ShrU, ShrS, Cat};
ghost use Rattle.bits_core.specs.declared.operator.OpShape.TheVariants.{Test};
ghost use Rattle.bits_core.specs.Number.{signed_value, wrapped, slice_value, extend_value};
ghost use Rattle.bits_core.specs.Operator.{WidthsFit, shape_of, result_width, operator_value};
ghost use Rattle.bits_core.specs.Operator.{test_value, row_of};
ghost use Rattle.bits_core.specs.Checksum.{csum16_value, xor16_value};
ghost use Rattle.std.specs.Prelude.{[], ◌∷◌};

pub mod circuits;
pub mod places;

use crate::operator::OPERATORS;

/// Each operator stands in the table, in a row with its shape. There are 21 of both, so it stands in one row alone.
pub fn table_is_whole()
    ensures { (op : Op) → Contains OPERATORS.rows (row_of op) }
{}

/// A result fits the width that its row gives it.
pub fn results_fit()
    ensures { (op : Op) (w x v y : ℕ) → WidthsFit (shape_of op) w v → x < 2 ^ w → y < 2 ^ v
        → operator_value op w x v y < 2 ^ result_width (shape_of op) w v }
{}

/// A comparison's result is 1 exactly where it holds, and else 0.
pub fn comparisons_hold()
    ensures value { (op : Op) (w x v y : ℕ) → shape_of op ≡ Test
        → operator_value op w x v y ≡ (if test_value op w x y then 1 else 0) }
    ensures truth { (op : Op) (w x v y : ℕ) → shape_of op ≡ Test
        → (operator_value op w x v y == 1) ≡ test_value op w x y }
{}

/// Two numbers of one width and one value are one.
pub fn numbers_are_their_fields()
    ensures { (a b : Bits) → a.width ≡ b.width → a.value ≡ b.value → a ≡ b }
{}

/// A difference is the sum with the other operand negated.
pub fn subtraction_adds_the_negated()
    ensures { (w x v y z : ℕ) → y < 2 ^ w → operator_value Sub w x v y
        ≡ operator_value Add w x v (operator_value Neg w y v z) }
{}

/// The unsigned and the signed reading: each gives the other back.
pub fn readings_agree()
    ensures bits { (w x : ℕ) → x < 2 ^ w → wrapped w (signed_value w x) ≡ x }
    ensures integer { (w : ℕ) (z : ℤ) → 1 ≤ w
        → (pos 0 -ℤ pos (2 ^ (w - 1))) ≤ℤ z → z <ℤ pos (2 ^ (w - 1))
        → signed_value w (wrapped w z) ≡ z }
{}

/// One wrapping row serves both readings: a sum, difference, product or negation of the signed values has the same bits.
pub fn rows_wrap_for_both_readings()
    ensures sum { (w x v y : ℕ) → x < 2 ^ w → y < 2 ^ w
        → wrapped w (signed_value w x +ℤ signed_value w y) ≡ operator_value Add w x v y }
    ensures difference { (w x v y : ℕ) → x < 2 ^ w → y < 2 ^ w
        → wrapped w (signed_value w x -ℤ signed_value w y) ≡ operator_value Sub w x v y }
    ensures product { (w x v y : ℕ) → x < 2 ^ w → y < 2 ^ w
        → wrapped w (signed_value w x *ℤ signed_value w y) ≡ operator_value Mul w x v y }
    ensures negation { (w x v y : ℕ) → x < 2 ^ w
        → wrapped w (pos 0 -ℤ signed_value w x) ≡ operator_value Neg w x v y }
{}

/// Past the width the amount of a shift is as good as the width: the definitions stop it there, and lose nothing.
pub fn amounts_may_be_any()
    ensures left { (w x v y : ℕ) → operator_value Shl w x v y ≡ (x * 2 ^ y) % 2 ^ w }
    ensures right { (w x v y : ℕ) → x < 2 ^ w → operator_value ShrU w x v y ≡ x / 2 ^ y }
    ensures signed_right { (w x v y : ℕ) → x < 2 ^ w → operator_value ShrS w x v y
        ≡ wrapped w (int_div_euclid (signed_value w x) (pos (2 ^ y))) }
{}

/// For terms that take a value apart and put it together: slices that are neighbours join to one, the two at any place to
/// the whole.
pub fn slices_join()
    ensures neighbours { (x high middle low : ℕ) → low ≤ middle → middle < high
        → operator_value Cat (high - middle) (slice_value x high (middle + 1))
        (middle - low + 1) (slice_value x middle low)
        ≡ slice_value x high low }
    ensures within { (x high low top bottom : ℕ) → bottom ≤ top → top ≤ high - low
        → slice_value (slice_value x high low) top bottom
        ≡ slice_value x (low + top) (low + bottom) }
    ensures whole { (w x place : ℕ) → 1 ≤ place → place < w → x < 2 ^ w
        → operator_value Cat (w - place) (slice_value x (w - 1) place)
        place (slice_value x (place - 1) 0)
        ≡ x }
{}

/// For terms that slice a join: a slice is that of one operand, or the join of one of each.
pub fn joins_are_sliced()
    ensures lower { (w x v y high low : ℕ) → y < 2 ^ v → low ≤ high → high < v
        → slice_value (operator_value Cat w x v y) high low ≡ slice_value y high low }
    ensures upper { (w x v y high low : ℕ) → y < 2 ^ v → low ≤ high → v ≤ low
        → slice_value (operator_value Cat w x v y) high low ≡ slice_value x (high - v) (low - v) }
    ensures across { (w x v y high low : ℕ) → y < 2 ^ v → low < v → v ≤ high
        → slice_value (operator_value Cat w x v y) high low
        ≡ operator_value Cat (high + 1 - v) (slice_value x (high - v) 0)
        (v - low) (slice_value y (v - 1) low) }
{}

/// What is widened, with its sign or without, and then cut is what it was; and the number that it stands for stays.
pub fn extensions_are_cut()
    ensures back { (signed again : Bool) (w x width : ℕ) → w ≤ width → x < 2 ^ w
        → extend_value again width (extend_value signed w x width) w ≡ x }
    ensures unsigned { (w x width : ℕ) → w ≤ width → x < 2 ^ w → extend_value false w x width ≡ x }
    ensures signed { (w x width : ℕ) → 1 ≤ w → w ≤ width → x < 2 ^ w
        → signed_value width (extend_value true w x width) ≡ signed_value w x }
{}

/// Sums that were worked out by hand: of nothing but 0, of an end carry, and of an IPv4 header with its checksum and
/// without.
pub fn checksums_are_as_worked_out()
    ensures zero { csum16_value (0 ∷ []) ≡ 65535 }
    ensures end_carry { csum16_value (65535 ∷ 1 ∷ []) ≡ 65534 }
    ensures with_its_sum { csum16_value
        (17664 ∷ 115 ∷ 0 ∷ 16384 ∷ 16401 ∷ 47201 ∷ 49320 ∷ 1 ∷ 49320 ∷ 199 ∷ []) ≡ 0 }
    ensures without { csum16_value
        (17664 ∷ 115 ∷ 0 ∷ 16384 ∷ 16401 ∷ 49320 ∷ 1 ∷ 49320 ∷ 199 ∷ []) ≡ 47201 }
    ensures exclusive { xor16_value (4660 ∷ 255 ∷ []) ≡ 4811 }
{}
