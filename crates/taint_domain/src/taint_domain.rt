//! Numbers with a mask of bits that a run may change, as a domain.
ghost use Rattle.std.specs.Prelude.{◌≡◌, ◌+◌, ◌-◌, ◌<◌, ◌≤◌, ◌^◌, ◌&&◌, ◌||◌, ◌↔◌, not, false, IsTrue, IsOkAnd, if◌then◌else◌};
ghost use Rattle.bits_core.specs.declared.number.TheConstants.{MAX_WIDTH};
ghost use Rattle.bits_core.specs.Number.{slice_value, extend_value};
ghost use Rattle.bits_core.specs.Operator.{WidthsFit, shape_of, result_width, operator_value, test_value};
ghost use Rattle.bits_core.specs.declared.operator.OpShape.TheVariants.{One, Test};
ghost use Rattle.taint_domain.specs.Masks.{IsMaskOf};
ghost use Rattle.taint_domain.specs.Meaning.{taint_meaning};
ghost use Rattle.taint_domain.specs.Results.{ImageOf, ChoiceOf, TestOf, CombinationOf, MasksAll, MasksOnly};
ghost use Rattle.taint_domain.specs.Tainted.{IsClear};

use crate::comparisons::test_may_differ;
use crate::flag::TaintFlag;
use crate::masks;
use crate::places::of_choice;
use crate::tainted::{Tainted, every_bit, no_bit};
use bits_core::{Bits, Op, apply, extend, slice};
use std::alloc::AllocError;
use value_domain::Domain;

/// The domain of masked numbers, which has no state.
#[derive(Clone, Copy, Debug, Default)]
pub struct TaintDomain;

impl TaintDomain {
    pub fn new() -> TaintDomain {
        TaintDomain
    }
}

/// What the operator gives of the numbers, and which of its bits may differ.
fn operated(op: Op, a: &Tainted, b: &Tainted) -> Tainted
    requires { WidthsFit (shape_of op) a.now.number.width b.now.number.width }
    ensures width { result.number.width
        ≡ result_width (shape_of op) a.now.number.width b.now.number.width }
    ensures number { result.number.value ≡ operator_value op
        a.now.number.width a.now.number.value b.now.number.width b.now.number.value }
    ensures mask { IsMaskOf op a.now b.now result.mask.value }
{
    Tainted {
        number: apply(op, a.number, b.number),
        mask: masks::of_operator(op, a, b),
    }
}

impl Domain for TaintDomain {
    type Val = Tainted;

    type Flag = TaintFlag;

    ghost meaning = { λ _. taint_meaning };

    fn constant(&mut self, b: Bits) -> Result<Tainted, AllocError>
        ensures number { IsOkAnd result (λ v. v.number ≡ b) }
        ensures clear { IsOkAnd result IsClear }
    {
        Ok(Tainted::clear(b))
    }

    fn unspecified(&mut self, _read: u32, width: u8) -> Result<Tainted, AllocError>
        requires some_bit { 1 ≤ width }
        requires at_most_widest { width ≤ MAX_WIDTH }
        ensures width { IsOkAnd result (λ v. v.number.width ≡ width) }
        ensures number { IsOkAnd result (λ v. v.number.value ≡ 0) }
        ensures mask { IsOkAnd result (λ v. v.mask.value ≡ 2 ^ width - 1) }
    {
        Ok(Tainted {
            number: no_bit(width),
            mask: every_bit(width),
        })
    }

    fn binary(&mut self, op: Op, a: &Tainted, b: &Tainted) -> Result<Tainted, AllocError>
        requires { WidthsFit (shape_of op) a.now.number.width b.now.number.width }
        ensures width { IsOkAnd result (λ v. v.number.width
            ≡ result_width (shape_of op) a.now.number.width b.now.number.width) }
        ensures number { IsOkAnd result (λ v. v.number.value ≡ operator_value op
            a.now.number.width a.now.number.value b.now.number.width b.now.number.value) }
        ensures mask { IsOkAnd result (λ v. IsMaskOf op a.now b.now v.mask.value) }
    {
        Ok(operated(op, a, b))
    }

    fn unary(&mut self, op: Op, a: &Tainted) -> Result<Tainted, AllocError>
        requires { shape_of op ≡ One }
        ensures width { IsOkAnd result (λ v. v.number.width ≡ a.now.number.width) }
        ensures number { IsOkAnd result (λ v. v.number.value
            ≡ operator_value op a.now.number.width a.now.number.value 0 0) }
        ensures mask { IsOkAnd result (λ v. IsMaskOf op a.now a.now v.mask.value) }
    {
        Ok(operated(op, a, a))
    }

    fn slice(&mut self, a: &Tainted, high: u8, low: u8) -> Result<Tainted, AllocError>
        requires ordered { low ≤ high }
        requires within { high < a.now.number.width }
        ensures width { IsOkAnd result (λ v. v.number.width ≡ high - low + 1) }
        ensures number { IsOkAnd result (λ v. v.number.value
            ≡ slice_value a.now.number.value high low) }
        ensures all { IsOkAnd result (λ v. MasksAll (ImageOf (λ x. slice_value x high low) a.now)
            (slice_value a.now.number.value high low) v.mask.value) }
        ensures only { IsOkAnd result (λ v. MasksOnly (ImageOf (λ x. slice_value x high low) a.now)
            (slice_value a.now.number.value high low) v.mask.value) }
    {
        Ok(Tainted {
            number: slice(a.number, high, low),
            mask: slice(a.mask, high, low),
        })
    }

    fn extend(&mut self, a: &Tainted, width: u8, signed: bool) -> Result<Tainted, AllocError>
        requires some_bit { 1 ≤ width }
        requires at_most_widest { width ≤ MAX_WIDTH }
        ensures width { IsOkAnd result (λ v. v.number.width ≡ width) }
        ensures number { IsOkAnd result (λ v. v.number.value
            ≡ extend_value signed a.now.number.width a.now.number.value width) }
        ensures all { IsOkAnd result (λ v.
            MasksAll (ImageOf (λ x. extend_value signed a.now.number.width x width) a.now)
            (extend_value signed a.now.number.width a.now.number.value width) v.mask.value) }
        ensures only { IsOkAnd result (λ v.
            MasksOnly (ImageOf (λ x. extend_value signed a.now.number.width x width) a.now)
            (extend_value signed a.now.number.width a.now.number.value width) v.mask.value) }
    {
        Ok(Tainted {
            number: extend(a.number, width, signed),
            mask: extend(a.mask, width, signed),
        })
    }

    fn choose(&mut self, f: &TaintFlag, a: &Tainted, b: &Tainted) -> Result<Tainted, AllocError>
        requires { a.now.number.width ≡ b.now.number.width }
        ensures number { IsOkAnd result (λ v. v.number
            ≡ (if f.now.truth then a.now.number else b.now.number)) }
        ensures all { IsOkAnd result (λ v. MasksAll (ChoiceOf f.now a.now b.now)
            (if f.now.truth then a.now.number.value else b.now.number.value) v.mask.value) }
        ensures only { IsOkAnd result (λ v. MasksOnly (ChoiceOf f.now a.now b.now)
            (if f.now.truth then a.now.number.value else b.now.number.value) v.mask.value) }
    {
        let mask = of_choice(f, a, b);
        Ok(Tainted {
            number: if f.truth { a.number } else { b.number },
            mask,
        })
    }

    fn compare(&mut self, op: Op, a: &Tainted, b: &Tainted) -> Result<TaintFlag, AllocError>
        requires shape { shape_of op ≡ Test }
        requires fits { a.now.number.width ≡ b.now.number.width }
        ensures truth { IsOkAnd result (λ f. f.truth
            ≡ test_value op a.now.number.width a.now.number.value b.now.number.value) }
        ensures unknown { IsOkAnd result (λ f. IsTrue f.may_differ
            ↔ TestOf op a.now b.now (not f.truth)) }
    {
        Ok(TaintFlag {
            truth: apply(op, a.number, b.number).value == 1,
            may_differ: test_may_differ(op, a, b),
        })
    }

    fn both(&mut self, f: &TaintFlag, g: &TaintFlag) -> Result<TaintFlag, AllocError>
        ensures truth { IsOkAnd result (λ h. h.truth ≡ (f.now.truth && g.now.truth)) }
        ensures unknown { IsOkAnd result (λ h. IsTrue h.may_differ
            ↔ CombinationOf (λ s t. s && t) f.now g.now (not h.truth)) }
    {
        Ok(f.and(*g))
    }

    fn either(&mut self, f: &TaintFlag, g: &TaintFlag) -> Result<TaintFlag, AllocError>
        ensures truth { IsOkAnd result (λ h. h.truth ≡ (f.now.truth || g.now.truth)) }
        ensures unknown { IsOkAnd result (λ h. IsTrue h.may_differ
            ↔ CombinationOf (λ s t. s || t) f.now g.now (not h.truth)) }
    {
        Ok(f.or(*g))
    }

    fn not(&mut self, f: &TaintFlag) -> Result<TaintFlag, AllocError>
        ensures truth { IsOkAnd result (λ h. h.truth ≡ not f.now.truth) }
        ensures unknown { IsOkAnd result (λ h. h.may_differ ≡ f.now.may_differ) }
    {
        Ok(f.opposite())
    }

    fn fixed(&mut self, f: bool) -> Result<TaintFlag, AllocError>
        ensures truth { IsOkAnd result (λ h. h.truth ≡ f) }
        ensures known { IsOkAnd result (λ h. h.may_differ ≡ false) }
    {
        Ok(TaintFlag::fixed(f))
    }

    ghost widths_are_those_of_bits = { λ d v known. (v.number.some_bit, v.number.at_most_widest) };

    ghost numbers_fit = { λ d v p x known spoken stands. stands.may.fits };
}
