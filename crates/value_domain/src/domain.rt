//! The operations of a domain of values, and what their results stand for.
ghost use Rattle.std.specs.Prelude.{◌≡◌, ◌≢◌, ℕ, ◌+◌, ◌-◌, ◌<◌, ◌≤◌, ◌^◌, ◌&&◌, ◌||◌, Bool, not, Some, IfOk, slice_get, if◌then◌else◌};
ghost use Rattle.bits_core.specs.declared.number.TheConstants.{MAX_WIDTH};
ghost use Rattle.bits_core.specs.Number.{slice_value, extend_value};
ghost use Rattle.bits_core.specs.Operator.{WidthsFit, shape_of, result_width, operator_value, test_value};
ghost use Rattle.bits_core.specs.declared.number.Bits.{Bits as Number};
ghost use Rattle.bits_core.specs.declared.operator.OpShape.TheVariants.{One, Test};
ghost use Rattle.bits_core.specs.declared.points.Point.{Point};
ghost use Rattle.value_domain.specs.Extends.{Extends};
ghost use Rattle.value_domain.specs.Meaning.{Meaning};

use bits_core::{Bits, Op};
use std::alloc::AllocError;

/// A kind of values with the operators of P4-16 on them.
///
/// A value stands at a point for numbers of its width, and a flag for truth values; where a domain keeps less than it could,
/// a value may stand for several. Each operation takes values that stand for numbers to one that stands for the operator's
/// result on them, at every point of which the domain's laws speak. Want of memory leaves the domain as good as it was.
pub trait Domain {
    /// A number of 1 to 128 bits.
    type Val: Copy;

    /// A truth value.
    type Flag: Copy;

    /// What the domain speaks of and offers, and what its values and flags stand for.
    ghost meaning: { Self → Meaning Self.Val Self.Flag };

    /// The value that stands for this number.
    fn constant(&mut self, b: Bits) -> Result<Self::Val, AllocError>
        ensures has { IfOk result (λ v. (meaning self.new).has v) }
        ensures width { IfOk result (λ v. (meaning self.new).width_of v ≡ b.width) }
        ensures value { IfOk result (λ v. (p : Point) → (meaning self.old).speaks_of p
            → (meaning self.new).stands v p b.value) }
        ensures extends { Extends (meaning self.old) (meaning self.new) };

    /// What the numbered read gives.
    fn unspecified(&mut self, read: u32, width: u8) -> Result<Self::Val, AllocError>
        requires offered { (meaning self.old).offers read width }
        requires some_bit { 1 ≤ width }
        requires at_most_widest { width ≤ MAX_WIDTH }
        ensures has { IfOk result (λ v. (meaning self.new).has v) }
        ensures width { IfOk result (λ v. (meaning self.new).width_of v ≡ width) }
        ensures value { IfOk result (λ v. (p : Point) (b : Number) → (meaning self.old).speaks_of p
            → slice_get p.reads read ≡ Some b → b.width ≡ width
            → (meaning self.new).stands v p b.value) }
        ensures extends { Extends (meaning self.old) (meaning self.new) };

    /// The result of an operator of two operands.
    fn binary(&mut self, op: Op, a: &Self::Val, b: &Self::Val) -> Result<Self::Val, AllocError>
        requires shape { shape_of op ≢ One }
        requires first { (meaning self.old).has a.now }
        requires second { (meaning self.old).has b.now }
        requires fits { WidthsFit (shape_of op)
            ((meaning self.old).width_of a.now) ((meaning self.old).width_of b.now) }
        ensures has { IfOk result (λ v. (meaning self.new).has v) }
        ensures width { IfOk result (λ v. (meaning self.new).width_of v ≡ result_width (shape_of op)
            ((meaning self.old).width_of a.now) ((meaning self.old).width_of b.now)) }
        ensures value { IfOk result (λ v. (p : Point) (x y : ℕ) → (meaning self.old).speaks_of p
            → (meaning self.old).stands a.now p x → (meaning self.old).stands b.now p y
            → (meaning self.new).stands v p (operator_value op
            ((meaning self.old).width_of a.now) x ((meaning self.old).width_of b.now) y)) }
        ensures extends { Extends (meaning self.old) (meaning self.new) };

    /// The result of an operator of one operand.
    fn unary(&mut self, op: Op, a: &Self::Val) -> Result<Self::Val, AllocError>
        requires shape { shape_of op ≡ One }
        requires operand { (meaning self.old).has a.now }
        ensures has { IfOk result (λ v. (meaning self.new).has v) }
        ensures width { IfOk result (λ v. (meaning self.new).width_of v
            ≡ (meaning self.old).width_of a.now) }
        ensures value { IfOk result (λ v. (p : Point) (x : ℕ) → (meaning self.old).speaks_of p
            → (meaning self.old).stands a.now p x
            → (meaning self.new).stands v p (operator_value op
            ((meaning self.old).width_of a.now) x 0 0)) }
        ensures extends { Extends (meaning self.old) (meaning self.new) };

    /// The bits from place `high` down to place `low`, both among them.
    fn slice(&mut self, a: &Self::Val, high: u8, low: u8) -> Result<Self::Val, AllocError>
        requires operand { (meaning self.old).has a.now }
        requires ordered { low ≤ high }
        requires within { high < (meaning self.old).width_of a.now }
        ensures has { IfOk result (λ v. (meaning self.new).has v) }
        ensures width { IfOk result (λ v. (meaning self.new).width_of v ≡ high - low + 1) }
        ensures value { IfOk result (λ v. (p : Point) (x : ℕ) → (meaning self.old).speaks_of p
            → (meaning self.old).stands a.now p x
            → (meaning self.new).stands v p (slice_value x high low)) }
        ensures extends { Extends (meaning self.old) (meaning self.new) };

    /// The value cut to its lowest `width` bits, or widened: by zeros, or where `signed` by copies of its sign bit.
    fn extend(&mut self, a: &Self::Val, width: u8, signed: bool) -> Result<Self::Val, AllocError>
        requires operand { (meaning self.old).has a.now }
        requires some_bit { 1 ≤ width }
        requires at_most_widest { width ≤ MAX_WIDTH }
        ensures has { IfOk result (λ v. (meaning self.new).has v) }
        ensures width { IfOk result (λ v. (meaning self.new).width_of v ≡ width) }
        ensures value { IfOk result (λ v. (p : Point) (x : ℕ) → (meaning self.old).speaks_of p
            → (meaning self.old).stands a.now p x
            → (meaning self.new).stands v p (extend_value signed
            ((meaning self.old).width_of a.now) x width)) }
        ensures extends { Extends (meaning self.old) (meaning self.new) };

    /// The first value where the flag holds, and else the second.
    fn choose(
        &mut self,
        f: &Self::Flag,
        a: &Self::Val,
        b: &Self::Val,
    ) -> Result<Self::Val, AllocError>
        requires flag { (meaning self.old).has_flag f.now }
        requires first { (meaning self.old).has a.now }
        requires second { (meaning self.old).has b.now }
        requires fits { (meaning self.old).width_of a.now ≡ (meaning self.old).width_of b.now }
        ensures has { IfOk result (λ v. (meaning self.new).has v) }
        ensures width { IfOk result (λ v. (meaning self.new).width_of v
            ≡ (meaning self.old).width_of a.now) }
        ensures value { IfOk result (λ v. (p : Point) (t : Bool) (x y : ℕ)
            → (meaning self.old).speaks_of p → (meaning self.old).flag_stands f.now p t
            → (meaning self.old).stands a.now p x → (meaning self.old).stands b.now p y
            → (meaning self.new).stands v p (if t then x else y)) }
        ensures extends { Extends (meaning self.old) (meaning self.new) };

    /// Whether the operator's test holds of the operands.
    fn compare(&mut self, op: Op, a: &Self::Val, b: &Self::Val) -> Result<Self::Flag, AllocError>
        requires shape { shape_of op ≡ Test }
        requires first { (meaning self.old).has a.now }
        requires second { (meaning self.old).has b.now }
        requires fits { (meaning self.old).width_of a.now ≡ (meaning self.old).width_of b.now }
        ensures has { IfOk result (λ f. (meaning self.new).has_flag f) }
        ensures truth { IfOk result (λ f. (p : Point) (x y : ℕ) → (meaning self.old).speaks_of p
            → (meaning self.old).stands a.now p x → (meaning self.old).stands b.now p y
            → (meaning self.new).flag_stands f p (test_value op
            ((meaning self.old).width_of a.now) x y)) }
        ensures extends { Extends (meaning self.old) (meaning self.new) };

    /// Whether both flags hold.
    fn both(&mut self, f: &Self::Flag, g: &Self::Flag) -> Result<Self::Flag, AllocError>
        requires first { (meaning self.old).has_flag f.now }
        requires second { (meaning self.old).has_flag g.now }
        ensures has { IfOk result (λ h. (meaning self.new).has_flag h) }
        ensures truth { IfOk result (λ h. (p : Point) (s t : Bool) → (meaning self.old).speaks_of p
            → (meaning self.old).flag_stands f.now p s → (meaning self.old).flag_stands g.now p t
            → (meaning self.new).flag_stands h p (s && t)) }
        ensures extends { Extends (meaning self.old) (meaning self.new) };

    /// Whether one of the flags holds.
    fn either(&mut self, f: &Self::Flag, g: &Self::Flag) -> Result<Self::Flag, AllocError>
        requires first { (meaning self.old).has_flag f.now }
        requires second { (meaning self.old).has_flag g.now }
        ensures has { IfOk result (λ h. (meaning self.new).has_flag h) }
        ensures truth { IfOk result (λ h. (p : Point) (s t : Bool) → (meaning self.old).speaks_of p
            → (meaning self.old).flag_stands f.now p s → (meaning self.old).flag_stands g.now p t
            → (meaning self.new).flag_stands h p (s || t)) }
        ensures extends { Extends (meaning self.old) (meaning self.new) };

    /// Whether the flag does not hold.
    fn not(&mut self, f: &Self::Flag) -> Result<Self::Flag, AllocError>
        requires { (meaning self.old).has_flag f.now }
        ensures has { IfOk result (λ h. (meaning self.new).has_flag h) }
        ensures truth { IfOk result (λ h. (p : Point) (t : Bool) → (meaning self.old).speaks_of p
            → (meaning self.old).flag_stands f.now p t
            → (meaning self.new).flag_stands h p (not t)) }
        ensures extends { Extends (meaning self.old) (meaning self.new) };

    /// The flag that stands for this truth value.
    fn fixed(&mut self, f: bool) -> Result<Self::Flag, AllocError>
        ensures has { IfOk result (λ h. (meaning self.new).has_flag h) }
        ensures truth { IfOk result (λ h. (p : Point) → (meaning self.old).speaks_of p
            → (meaning self.new).flag_stands h p f) }
        ensures extends { Extends (meaning self.old) (meaning self.new) };

    /// A value has 1 to 128 bits.
    ghost widths_are_those_of_bits: { (d : Self) (v : Self.Val) → (meaning d).has v
        → (1 ≤ (meaning d).width_of v) × ((meaning d).width_of v ≤ MAX_WIDTH) };

    /// A value stands for numbers of its width.
    ghost numbers_fit: { (d : Self) (v : Self.Val) (p : Point) (x : ℕ) → (meaning d).has v
        → (meaning d).speaks_of p → (meaning d).stands v p x → x < 2 ^ (meaning d).width_of v };
}
