//! Values that stand for themselves.
ghost use Rattle.std.specs.Prelude.{◌≡◌, List, ◌+◌, ◌-◌, ◌<◌, ◌≤◌, ◌&&◌, ◌||◌, not, Some, IsOkAnd, slice_get, if◌then◌else◌};
ghost use Rattle.bits_core.specs.declared.number.TheConstants.{MAX_WIDTH};
ghost use Rattle.bits_core.specs.Number.{slice_value, extend_value};
ghost use Rattle.bits_core.specs.Operator.{WidthsFit, shape_of, result_width, operator_value, test_value};
ghost use Rattle.bits_core.specs.declared.number.Bits.{Bits as Number};
ghost use Rattle.bits_core.specs.declared.operator.OpShape.TheVariants.{One, Test};
ghost use Rattle.concrete_domain.specs.Meaning.{Offers, meaning_of};

use bits_core::{Bits, Op, apply, extend, slice};
use p4_program::Resolution;
use std::alloc::AllocError;
use std::marker::Model;
use value_domain::Domain;

/// The domain of a resolution: a numbered read gives what the resolution has for it. Contracts see the resolution.
#[derive(Debug, Drop)]
pub struct ConcreteDomain<'a> {
    resolution: &'a Resolution,
}

impl<'a> Model for ConcreteDomain<'a> {
    ghost use Rattle.std.specs.Prelude.{List};
    ghost use Rattle.bits_core.specs.declared.number.Bits.{Bits as Number};

    ghost Value = { List Number };

    ghost view = { λ d. d.resolution.now };
}

impl<'a> ConcreteDomain<'a> {
    pub fn new(resolution: &'a Resolution) -> ConcreteDomain<'a>
        ensures { result ≡ resolution.now }
    {
        ConcreteDomain { resolution }
    }
}

impl<'a> Domain for ConcreteDomain<'a> {
    ghost use Rattle.std.specs.Prelude.{◌<◌, ◌^◌};
    ghost use Rattle.std.proofs.Common.{subst};

    type Val = Bits;

    type Flag = bool;

    ghost meaning = { meaning_of };

    fn constant(&mut self, b: Bits) -> Result<Bits, AllocError>
        ensures value { IsOkAnd result (λ v. v ≡ b) }
        ensures stays { self.new ≡ self.old }
    {
        Ok(b)
    }

    fn unspecified(&mut self, read: u32, width: u8) -> Result<Bits, AllocError>
        requires { Offers self.old read width }
        ensures value { IsOkAnd result (λ v. slice_get self.old read ≡ Some v) }
        ensures width { IsOkAnd result (λ v. v.width ≡ width) }
        ensures stays { self.new ≡ self.old }
    {
        let _ = width;
        Ok(self.resolution.as_slice()[read as usize])
    }

    fn binary(&mut self, op: Op, a: &Bits, b: &Bits) -> Result<Bits, AllocError>
        requires { WidthsFit (shape_of op) a.now.width b.now.width }
        ensures width { IsOkAnd result (λ v. v.width
            ≡ result_width (shape_of op) a.now.width b.now.width) }
        ensures value { IsOkAnd result (λ v. v.value
            ≡ operator_value op a.now.width a.now.value b.now.width b.now.value) }
        ensures stays { self.new ≡ self.old }
    {
        Ok(apply(op, *a, *b))
    }

    fn unary(&mut self, op: Op, a: &Bits) -> Result<Bits, AllocError>
        requires { shape_of op ≡ One }
        ensures width { IsOkAnd result (λ v. v.width ≡ a.now.width) }
        ensures value { IsOkAnd result (λ v. v.value
            ≡ operator_value op a.now.width a.now.value 0 0) }
        ensures stays { self.new ≡ self.old }
    {
        Ok(apply(op, *a, *a))
    }

    fn slice(&mut self, a: &Bits, high: u8, low: u8) -> Result<Bits, AllocError>
        requires ordered { low ≤ high }
        requires within { high < a.now.width }
        ensures width { IsOkAnd result (λ v. v.width ≡ high - low + 1) }
        ensures value { IsOkAnd result (λ v. v.value ≡ slice_value a.now.value high low) }
        ensures stays { self.new ≡ self.old }
    {
        Ok(slice(*a, high, low))
    }

    fn extend(&mut self, a: &Bits, width: u8, signed: bool) -> Result<Bits, AllocError>
        requires some_bit { 1 ≤ width }
        requires at_most_widest { width ≤ MAX_WIDTH }
        ensures width { IsOkAnd result (λ v. v.width ≡ width) }
        ensures value { IsOkAnd result (λ v. v.value
            ≡ extend_value signed a.now.width a.now.value width) }
        ensures stays { self.new ≡ self.old }
    {
        Ok(extend(*a, width, signed))
    }

    fn choose(&mut self, f: &bool, a: &Bits, b: &Bits) -> Result<Bits, AllocError>
        ensures value { IsOkAnd result (λ v. v ≡ (if f.now then a.now else b.now)) }
        ensures stays { self.new ≡ self.old }
    {
        Ok(if *f { *a } else { *b })
    }

    fn compare(&mut self, op: Op, a: &Bits, b: &Bits) -> Result<bool, AllocError>
        requires shape { shape_of op ≡ Test }
        requires fits { a.now.width ≡ b.now.width }
        ensures truth { IsOkAnd result (λ f. f
            ≡ test_value op a.now.width a.now.value b.now.value) }
        ensures stays { self.new ≡ self.old }
    {
        Ok(apply(op, *a, *b).value == 1)
    }

    fn both(&mut self, f: &bool, g: &bool) -> Result<bool, AllocError>
        ensures truth { IsOkAnd result (λ h. h ≡ (f.now && g.now)) }
        ensures stays { self.new ≡ self.old }
    {
        Ok(*f && *g)
    }

    fn either(&mut self, f: &bool, g: &bool) -> Result<bool, AllocError>
        ensures truth { IsOkAnd result (λ h. h ≡ (f.now || g.now)) }
        ensures stays { self.new ≡ self.old }
    {
        Ok(*f || *g)
    }

    fn not(&mut self, f: &bool) -> Result<bool, AllocError>
        ensures truth { IsOkAnd result (λ h. h ≡ not f.now) }
        ensures stays { self.new ≡ self.old }
    {
        Ok(!*f)
    }

    fn fixed(&mut self, f: bool) -> Result<bool, AllocError>
        ensures truth { IsOkAnd result (λ h. h ≡ f) }
        ensures stays { self.new ≡ self.old }
    {
        Ok(f)
    }

    ghost widths_are_those_of_bits = { λ d v known. (v.some_bit, v.at_most_widest) };

    ghost numbers_fit = { λ d v p x known spoken stands.
        subst (λ n. n < 2 ^ v.width) stands v.fits };
}
