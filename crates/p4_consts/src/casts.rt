//! Casts: those that are written, and those that a context makes of itself (P4-16, "Explicit casts", "Implicit casts").
ghost use Rattle.std.specs.Prelude.{◌≡◌, ℕ, true, false, IfOk, OnOk, option_map};
ghost use Rattle.p4_rules.specs.declared.faults.Pass.{Pass as APass};
ghost use Rattle.p4_rules.specs.declared.faults.Pass.TheVariants.{Checking};
ghost use Rattle.tg_base.specs.declared.place.Code.TheVariants.{Typing};
ghost use Rattle.p4_rules.specs.declared.types.SourceType.TheVariants.{Bit, Signed};
ghost use Rattle.p4_rules.specs.Faults.{provided as provided_by_rules};
ghost use Rattle.p4_rules.specs.Integers.{is_width as is_width_by_rules};
ghost use Rattle.p4_rules.specs.Scopes.{Scope as RulesScope};
ghost use Rattle.tg_base.specs.declared.place.Span.{Span};
ghost use Rattle.p4_rules.specs.Types.{is_sized};
ghost use Rattle.p4_rules.specs.Operands.{Operand as RulesOperand, type_of as type_by_rules, retyped as retyped_by_rules};
ghost use Rattle.p4_rules.specs.Casts.{integer_as as integer_by_rules, value_as as value_as_by_rules, cast_to as cast_to_by_rules, as_bits as bits_by_rules, resized as resized_by_rules, value_cast as value_cast_by_rules, cast as cast_by_rules};
ghost use Rattle.p4_consts.specs.declared.scopes.Scope.{Scope as AScope};
ghost use Rattle.p4_consts.specs.Fits.{value_fits, bits_fit};
ghost use Rattle.p4_consts.specs.Noted.{noted, right_of};
ghost use Rattle.p4_consts.specs.Integers.{integer_of};
ghost use Rattle.p4_consts.specs.Operands.{operand_of};
ghost use Rattle.p4_consts.specs.Scopes.{scope_in};

use crate::constants::{Constant, is_width};
use crate::faults::Faults;
use crate::integer::Integer;
use crate::operands::{Operand, core_of, retyped, type_of, varying_or};
use crate::scopes::Scope;
use crate::types::same_type;
use p4_program::typed::Expression;
use p4_rules::{Pass, SourceType};
use std::alloc::{AllocError, Global};
use tg_base::{Code, Span};

/// The operand where the test holds, else a fault of types.
pub fn provided(faults: &mut Faults, holds: bool, place: Span, operand: Operand) -> Option<Operand>
    ensures value { option_map operand_of result
        ≡ right_of (provided_by_rules holds Checking Typing place (operand_of operand)) }
    ensures faults { faults.new.first
        ≡ noted faults.old.first
        (provided_by_rules holds Checking Typing place (operand_of operand)) }
{
    if holds {
        return Some(operand);
    }
    drop(operand);
    faults.note(Pass::Checking, Code::Typing, place);
    None
}

/// The operand as a value of this type with the same bits where the test holds, else a fault of types.
fn provided_retyped(
    alloc: Global,
    faults: &mut Faults,
    holds: bool,
    t: SourceType,
    place: Span,
    operand: Operand,
) -> Result<Option<Operand>, AllocError>
    ensures value { (Γ : RulesScope) → IfOk result (λ v. option_map operand_of v
        ≡ right_of
        (provided_by_rules holds Checking Typing place
        (retyped_by_rules Γ t (operand_of operand)))) }
    ensures faults { (Γ : RulesScope) → OnOk result (faults.new.first
        ≡ noted faults.old.first
        (provided_by_rules holds Checking Typing place
        (retyped_by_rules Γ t (operand_of operand)))) }
{
    if holds {
        return Ok(Some(retyped(alloc, t, operand)?));
    }
    drop(operand);
    faults.note(Pass::Checking, Code::Typing, place);
    Ok(None)
}

/// A compile-time integer takes a sized type whose values have it.
pub fn integer_as(
    pass: Pass,
    faults: &mut Faults,
    t: SourceType,
    place: Span,
    number: Integer,
) -> Option<Operand>
    ensures value { (scope : AScope) → option_map operand_of result
        ≡ right_of (integer_by_rules (scope_in pass scope) t place (integer_of number)) }
    ensures faults { (scope : AScope) → faults.new.first
        ≡ noted faults.old.first
        (integer_by_rules (scope_in pass scope) t place (integer_of number)) }
{
    match t {
        SourceType::Bit(width) => {
            if !number.fits_bit(width) {
                faults.note(pass, Code::Constant, place);
                return None;
            }
            let value = number.wrapped(width);
            Some(Operand::Fixed(Constant { type_of: t, value }))
        }
        SourceType::Signed(width) => {
            if !number.fits_int(width) {
                faults.note(pass, Code::Constant, place);
                return None;
            }
            let value = number.wrapped(width);
            Some(Operand::Fixed(Constant { type_of: t, value }))
        }
        SourceType::Integer => Some(Operand::Whole(number)),
        _ => {
            faults.note(Pass::Checking, Code::Typing, place);
            None
        }
    }
}

/// A value where one of this type is wanted: an enumeration over bits is cast to these bits, and every other value has its
/// own type.
fn value_as(
    alloc: Global,
    faults: &mut Faults,
    t: SourceType,
    u: SourceType,
    place: Span,
    operand: Operand,
) -> Result<Option<Operand>, AllocError>
    ensures value { (Γ : RulesScope) → IfOk result (λ v. option_map operand_of v
        ≡ right_of (value_as_by_rules Γ t u place (operand_of operand))) }
    ensures faults { (Γ : RulesScope) → OnOk result (faults.new.first
        ≡ noted faults.old.first (value_as_by_rules Γ t u place (operand_of operand))) }
{
    match t {
        SourceType::Bit(width) => match u {
            SourceType::BitEnumeration(_, other) => {
                provided_retyped(
                    alloc,
                    faults,
                    other == width,
                    SourceType::Bit(width),
                    place,
                    operand,
                )
            }
            _ => Ok(provided(faults, same_type(t, u), place, operand)),
        },
        _ => Ok(provided(faults, same_type(t, u), place, operand)),
    }
}

/// An operand where a value of this type is wanted: by the target of an assignment, a parameter, or a declared type.
pub fn cast_to(
    alloc: Global,
    pass: Pass,
    faults: &mut Faults,
    t: SourceType,
    place: Span,
    operand: Operand,
) -> Result<Option<Operand>, AllocError>
    ensures value { (scope : AScope) → IfOk result (λ v. option_map operand_of v
        ≡ right_of (cast_to_by_rules (scope_in pass scope) t place (operand_of operand))) }
    ensures faults { (scope : AScope) → OnOk result (faults.new.first
        ≡ noted faults.old.first
        (cast_to_by_rules (scope_in pass scope) t place (operand_of operand))) }
{
    match operand {
        Operand::Whole(number) => Ok(integer_as(pass, faults, t, place, number)),
        other => {
            let u = type_of(&other);
            value_as(alloc, faults, t, u, place, other)
        }
    }
}

/// Where a rule wants a sized value, an enumeration over bits is cast.
pub fn as_bits(alloc: Global, operand: Operand) -> Result<Operand, AllocError>
    ensures { (Γ : RulesScope) → IfOk result (λ x. operand_of x
        ≡ bits_by_rules Γ (operand_of operand)) }
{
    match type_of(&operand) {
        SourceType::BitEnumeration(_, width) => retyped(alloc, SourceType::Bit(width), operand),
        _ => Ok(operand),
    }
}

/// A value of `w` bits at `v` bits, widened by copies of its sign or by zeros, or cut.
pub fn resized(
    alloc: Global,
    scope: &Scope,
    signed: bool,
    w: u8,
    v: u8,
    t: SourceType,
    place: Span,
    operand: Operand,
) -> Result<Operand, AllocError>
    requires width { is_width_by_rules v ≡ true }
    requires kind { (value : ℕ) → value_fits t value ≡ bits_fit v value }
    requires sign { signed ≡ true → type_by_rules (operand_of operand) ≡ Signed w }
    ensures { (pass : APass) → IfOk result (λ x. operand_of x
        ≡ resized_by_rules (scope_in pass scope.now) signed w v t place (operand_of operand)) }
{
    match operand {
        Operand::Fixed(constant) => {
            let value = if signed {
                Integer::from_signed(w, constant.value).wrapped(v)
            } else {
                Integer::from_u128(constant.value).wrapped(v)
            };
            Ok(Operand::Fixed(Constant { type_of: t, value }))
        }
        other => {
            let at = varying_or(place, &other);
            let expression = core_of(alloc, scope, other)?;
            if w == v {
                return Ok(Operand::Computed(t, expression, at));
            }
            let part = Box::new(alloc, expression)?;
            Ok(Operand::Computed(t, Expression::Resize(signed, v, part), at))
        }
    }
}

/// A value of bits at `v` bits, where a type may have so many, else a fault of types.
fn provided_resized(
    alloc: Global,
    scope: &Scope,
    faults: &mut Faults,
    signed: bool,
    w: u8,
    v: u8,
    t: SourceType,
    place: Span,
    operand: Operand,
) -> Result<Option<Operand>, AllocError>
    requires kind { (value : ℕ) → value_fits t value ≡ bits_fit v value }
    requires sign { signed ≡ true → type_by_rules (operand_of operand) ≡ Signed w }
    ensures value { (pass : APass) → IfOk result (λ o. option_map operand_of o
        ≡ right_of (provided_by_rules (is_width_by_rules v) Checking Typing place
        (resized_by_rules (scope_in pass scope.now) signed w v t place (operand_of operand)))) }
    ensures faults { (pass : APass) → OnOk result (faults.new.first
        ≡ noted faults.old.first (provided_by_rules (is_width_by_rules v) Checking Typing place
        (resized_by_rules (scope_in pass scope.now) signed w v t place (operand_of operand)))) }
{
    if is_width(v) {
        return Ok(Some(resized(alloc, scope, signed, w, v, t, place, operand)?));
    }
    drop(operand);
    faults.note(Pass::Checking, Code::Typing, place);
    Ok(None)
}

/// A written cast of a value to `bit`: from `bit`, cut or widened by zeros; from `int` and an enumeration of the same width;
/// from `bool` to one bit.
fn cast_to_bit(
    alloc: Global,
    scope: &Scope,
    faults: &mut Faults,
    v: u8,
    u: SourceType,
    place: Span,
    operand: Operand,
) -> Result<Option<Operand>, AllocError>
    requires { u ≡ type_by_rules (operand_of operand) }
    ensures value { (pass : APass) → IfOk result (λ o. option_map operand_of o
        ≡ right_of
        (value_cast_by_rules (scope_in pass scope.now) (Bit v) u place (operand_of operand))) }
    ensures faults { (pass : APass) → OnOk result (faults.new.first ≡ noted faults.old.first
        (value_cast_by_rules (scope_in pass scope.now) (Bit v) u place (operand_of operand))) }
{
    let t = SourceType::Bit(v);
    match u {
        SourceType::Bit(w) => {
            provided_resized(alloc, scope, faults, false, w, v, t, place, operand)
        }
        SourceType::Signed(w) => provided_retyped(alloc, faults, v == w, t, place, operand),
        SourceType::Boolean => provided_retyped(alloc, faults, v == 1, t, place, operand),
        SourceType::BitEnumeration(_, w) => {
            provided_retyped(alloc, faults, v == w, t, place, operand)
        }
        _ => provided_retyped(alloc, faults, false, t, place, operand),
    }
}

/// A written cast of a value to `int` with a width: from `int`, cut or widened by the sign; from `bit` of the same width.
fn cast_to_int(
    alloc: Global,
    scope: &Scope,
    faults: &mut Faults,
    v: u8,
    u: SourceType,
    place: Span,
    operand: Operand,
) -> Result<Option<Operand>, AllocError>
    requires { u ≡ type_by_rules (operand_of operand) }
    ensures value { (pass : APass) → IfOk result (λ o. option_map operand_of o
        ≡ right_of
        (value_cast_by_rules (scope_in pass scope.now) (Signed v) u place
        (operand_of operand))) }
    ensures faults { (pass : APass) → OnOk result (faults.new.first ≡ noted faults.old.first
        (value_cast_by_rules (scope_in pass scope.now) (Signed v) u place (operand_of operand))) }
{
    let t = SourceType::Signed(v);
    match u {
        SourceType::Signed(w) => {
            provided_resized(alloc, scope, faults, true, w, v, t, place, operand)
        }
        SourceType::Bit(w) => provided_retyped(alloc, faults, v == w, t, place, operand),
        _ => provided_retyped(alloc, faults, false, t, place, operand),
    }
}

/// A written cast of a value, by the type that it is cast to and its own.
fn value_cast(
    alloc: Global,
    scope: &Scope,
    faults: &mut Faults,
    t: SourceType,
    u: SourceType,
    place: Span,
    operand: Operand,
) -> Result<Option<Operand>, AllocError>
    requires { u ≡ type_by_rules (operand_of operand) }
    ensures value { (pass : APass) → IfOk result (λ o. option_map operand_of o
        ≡ right_of (value_cast_by_rules (scope_in pass scope.now) t u place (operand_of operand))) }
    ensures faults { (pass : APass) → OnOk result (faults.new.first ≡ noted faults.old.first
        (value_cast_by_rules (scope_in pass scope.now) t u place (operand_of operand))) }
{
    match t {
        SourceType::Bit(v) => cast_to_bit(alloc, scope, faults, v, u, place, operand),
        SourceType::Signed(v) => cast_to_int(alloc, scope, faults, v, u, place, operand),
        _ => {
            let holds = keeps_bits(t, u);
            provided_retyped(alloc, faults, holds, t, place, operand)
        }
    }
}

/// Whether a cast to a type that is not of numbers is from bits of its width or from the type itself.
fn keeps_bits(t: SourceType, u: SourceType) -> bool
    ensures { is_sized t ≡ false → (Γ : RulesScope) (place : Span) (x : RulesOperand) →
        value_cast_by_rules Γ t u place x
        ≡ provided_by_rules result Checking Typing place (retyped_by_rules Γ t x) }
{
    match t {
        SourceType::Boolean => match u {
            SourceType::Bit(w) => w == 1,
            _ => same_type(t, u),
        },
        SourceType::BitEnumeration(_, v) => match u {
            SourceType::Bit(w) => v == w,
            _ => same_type(t, u),
        },
        _ => same_type(t, u),
    }
}

/// A written cast. A compile-time integer takes `bit` or `int` with a width where it fits, or stays.
pub fn cast(
    alloc: Global,
    scope: &Scope,
    pass: Pass,
    faults: &mut Faults,
    t: SourceType,
    place: Span,
    operand: Operand,
) -> Result<Option<Operand>, AllocError>
    ensures value { IfOk result (λ v. option_map operand_of v
        ≡ right_of (cast_by_rules (scope_in pass scope.now) t place (operand_of operand))) }
    ensures faults { OnOk result (faults.new.first
        ≡ noted faults.old.first
        (cast_by_rules (scope_in pass scope.now) t place (operand_of operand))) }
{
    match operand {
        Operand::Whole(number) => Ok(integer_as(pass, faults, t, place, number)),
        other => {
            let u = type_of(&other);
            value_cast(alloc, scope, faults, t, u, place, other)
        }
    }
}
