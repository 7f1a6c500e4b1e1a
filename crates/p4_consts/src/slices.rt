//! The bits of a value from a high place down to a low one (P4-16, "Operations on fixed-width bit types").
ghost use Rattle.std.specs.Prelude.{◌≡◌, ◌≤◌, ◌+◌, ◌-◌, ℤ, Option, IfOk, OnOk, option_map};
ghost use Rattle.bits_core.specs.Number.{slice_value};
ghost use Rattle.p4_rules.specs.declared.faults.Pass.{Pass as APass};
ghost use Rattle.p4_rules.specs.declared.faults.Fault.{Fault as AFault};
ghost use Rattle.p4_rules.specs.Faults.{Checked, with_three};
ghost use Rattle.p4_rules.specs.Scopes.{Scope as RulesScope};
ghost use Rattle.p4_rules.specs.Operands.{Fixed, Placed as RulesPlaced};
ghost use Rattle.p4_rules.specs.declared.types.SourceType.TheVariants.{Bit};
ghost use Rattle.p4_rules.specs.Things.{Text};
ghost use Rattle.p4_rules.specs.Expressions.{judged_at, bits_of as bits_by_rules, bit_value as bit_value_by_rules};
ghost use Rattle.p4_rules.specs.Expressions.{slice_within as within_by_rules, sliced as sliced_by_rules};
ghost use Rattle.p4_consts.specs.Integers.{integer_of};
ghost use Rattle.p4_consts.specs.Noted.{noted, right_of};
ghost use Rattle.p4_consts.specs.Operands.{operand_of, placed_of};
ghost use Rattle.p4_consts.specs.Scopes.{scope_in};
ghost use Rattle.p4_consts.specs.Things.{thing_of, judged_of};

use crate::casts::as_bits;
use crate::constants::Constant;
use crate::faults::Faults;
use crate::folding::{fixed, width_in};
use crate::indexes::place_among;
use crate::integer::Integer;
use crate::literals::number_of;
use crate::operands::{Operand, Placed, core_of, type_of, varying_or};
use crate::places::Places;
use crate::scopes::Scope;
use crate::things::{Judged, Thing};
use crate::values::value_of;
use crate::wanted::is_of_bits;
use bits_core::{Bits, slice};
use p4_program::typed::Expression;
use p4_rules::{Pass, SourceType};
use std::alloc::{AllocError, Global};
use tg_base::{Code, Span};

/// The bits of a value from the high place down to the low one.
pub fn sliced(
    alloc: Global,
    scope: &Scope,
    pass: Pass,
    faults: &mut Faults,
    head: Judged,
    high: Judged,
    low: Judged,
) -> Result<Option<Thing>, AllocError>
    ensures value { IfOk result (λ v. option_map thing_of v
        ≡ right_of (sliced_by_rules (scope_in pass scope.now)
        (judged_of head) (judged_of high) (judged_of low))) }
    ensures faults { OnOk result (faults.new.first ≡ noted faults.old.first
        (sliced_by_rules (scope_in pass scope.now)
        (judged_of head) (judged_of high) (judged_of low))) }
{
    let (top, bottom) = (high.place, low.place);
    let value = bit_value(alloc, faults, head)?;
    let first = number_of(scope, pass, faults, high);
    let last = number_of(scope, pass, faults, low);
    slice_of(alloc, scope, faults, value, top, first, bottom, last)
}

/// The bits of a value between two bounds, where all three are right.
#[tactic(auto, using(crate::proofs::NotedLaws::with_three_right, crate::proofs::NotedLaws::with_three_first, crate::proofs::NotedLaws::with_three_second, crate::proofs::NotedLaws::with_three_third, crate::proofs::NotedLaws::with_three_noted))]
fn slice_of(
    alloc: Global,
    scope: &Scope,
    faults: &mut Faults,
    value: Option<Placed>,
    high: Span,
    first: Option<Integer>,
    low: Span,
    last: Option<Integer>,
) -> Result<Option<Thing>, AllocError>
    ensures value { (pass : APass) (p : Checked RulesPlaced) (q r : Checked ℤ) →
        option_map placed_of value ≡ right_of p →
        option_map integer_of first ≡ right_of q → option_map integer_of last ≡ right_of r →
        IfOk result (λ v. option_map thing_of v ≡ right_of (with_three
        (λ x m l. within_by_rules (scope_in pass scope.now) x
        (judged_at high Text) m (judged_at low Text) l) p q r)) }
    ensures faults { (pass : APass) (start : Option AFault)
        (p : Checked RulesPlaced) (q r : Checked ℤ) →
        option_map placed_of value ≡ right_of p →
        option_map integer_of first ≡ right_of q → option_map integer_of last ≡ right_of r →
        faults.old.first ≡ noted (noted (noted start p) q) r →
        OnOk result (faults.new.first ≡ noted start (with_three
        (λ x m l. within_by_rules (scope_in pass scope.now) x
        (judged_at high Text) m (judged_at low Text) l) p q r)) }
{
    let Some(placed) = value else {
        return Ok(None);
    };
    let Some(m) = first else {
        drop(placed);
        return Ok(None);
    };
    let Some(l) = last else {
        drop(placed);
        return Ok(None);
    };
    slice_within(alloc, scope, faults, placed, high, m, low, l)
}

/// A value of `bit`, or of an enumeration over bits as these.
fn bit_value(
    alloc: Global,
    faults: &mut Faults,
    judged: Judged,
) -> Result<Option<Placed>, AllocError>
    ensures value { (Γ : RulesScope) → IfOk result (λ v. option_map placed_of v
        ≡ right_of (bit_value_by_rules Γ (judged_of judged))) }
    ensures faults { (Γ : RulesScope) → OnOk result (faults.new.first
        ≡ noted faults.old.first (bit_value_by_rules Γ (judged_of judged))) }
{
    let Some(Placed { operand, place }) = value_of(faults, judged) else {
        return Ok(None);
    };
    let bits = as_bits(alloc, operand)?;
    if is_of_bits(&bits) {
        return Ok(Some(Placed {
            operand: bits,
            place,
        }));
    }
    drop(bits);
    faults.note(Pass::Checking, Code::Typing, place);
    Ok(None)
}

/// The bits of a value between two of its places. A bound that alone is wrong is refused at its place.
#[tactic(auto, using(crate::proofs::PlaceLaws::place_order))]
fn slice_within(
    alloc: Global,
    scope: &Scope,
    faults: &mut Faults,
    placed: Placed,
    high: Span,
    m: Integer,
    low: Span,
    l: Integer,
) -> Result<Option<Thing>, AllocError>
    ensures value { (pass : APass) → IfOk result (λ v. option_map thing_of v
        ≡ right_of (within_by_rules (scope_in pass scope.now) (placed_of placed)
        (judged_at high Text) (integer_of m) (judged_at low Text) (integer_of l))) }
    ensures faults { (pass : APass) → OnOk result (faults.new.first ≡ noted faults.old.first
        (within_by_rules (scope_in pass scope.now) (placed_of placed)
        (judged_at high Text) (integer_of m) (judged_at low Text) (integer_of l))) }
{
    let Placed { operand, place } = placed;
    let width = width_in(type_of(&operand));
    let Some(top) = place_among(width, m) else {
        drop(operand);
        faults.note(Pass::Checking, Code::Typing, high);
        return Ok(None);
    };
    let Some(bottom) = place_among(width, l) else {
        drop(operand);
        faults.note(Pass::Checking, Code::Typing, low);
        return Ok(None);
    };
    if top < bottom {
        drop(operand);
        faults.note(Pass::Checking, Code::Typing, place);
        return Ok(None);
    }
    let places = Places {
        high: top,
        low: bottom,
    };
    let bits = bits_of(alloc, scope, place, operand, places)?;
    Ok(Some(Thing::Value(bits)))
}

/// The bits of an operand at these places.
#[tactic(auto, using(crate::proofs::PlaceLaws::bits_of_run))]
fn bits_of(
    alloc: Global,
    scope: &Scope,
    place: Span,
    operand: Operand,
    places: Places,
) -> Result<Operand, AllocError>
    requires ordered { places.low ≤ places.high }
    ensures { (pass : APass) → IfOk result (λ x. operand_of x
        ≡ bits_by_rules (scope_in pass scope.now) place (operand_of operand)
        places.high places.low) }
{
    match operand {
        Operand::Fixed(constant) => bits_of_constant(constant, places),
        Operand::Stored(_, writable, path, at) => {
            Ok(Operand::Sliced(writable, path, places, at))
        }
        Operand::Sliced(writable, path, outer, at) => {
            Ok(Operand::Sliced(writable, path, places_in(outer, places)?, at))
        }
        other => {
            let at = varying_or(place, &other);
            let whole = Box::new(alloc, core_of(alloc, scope, other)?)?;
            let part = Expression::Slice(whole, places.high, places.low);
            let t = SourceType::Bit(places.high - places.low + 1);
            Ok(Operand::Computed(t, part, at))
        }
    }
}

/// The bits of a constant at these places. Places that it does not have are want of memory: no source comes here with any.
fn bits_of_constant(constant: Constant, places: Places) -> Result<Operand, AllocError>
    requires ordered { places.low ≤ places.high }
    ensures { IfOk result (λ x. operand_of x ≡ Fixed (Bit (places.high - places.low + 1))
        (slice_value constant.value places.high places.low)) }
{
    let Some(bits) = Bits::new(width_in(constant.type_of), constant.value) else {
        return Err(AllocError);
    };
    if bits.width <= places.high {
        return Err(AllocError);
    }
    let part = slice(bits, places.high, places.low);
    fixed(SourceType::Bit(part.width), part.value)
}

/// The places in a whole that are these places in its bits at the outer ones. Places that no width counts are want of
/// memory: no source comes here with any.
fn places_in(outer: Places, inner: Places) -> Result<Places, AllocError>
    ensures high { IfOk result (λ p. p.high ≡ outer.low + inner.high) }
    ensures low { IfOk result (λ p. p.low ≡ outer.low + inner.low) }
{
    let high = outer.low.checked_add(inner.high);
    let low = outer.low.checked_add(inner.low);
    let (Some(high), Some(low)) = (high, low) else {
        return Err(AllocError);
    };
    if high == u8::MAX {
        return Err(AllocError);
    }
    Ok(Places { high, low })
}
