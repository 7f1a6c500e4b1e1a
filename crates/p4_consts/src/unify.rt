//! Two operands of one type (P4-16, "Implicit casts").
ghost use Rattle.std.specs.Prelude.{◌≡◌, ◌≢◌, IfOk, OnOk, option_map};
ghost use Rattle.p4_rules.specs.declared.faults.Pass.TheVariants.{Checking};
ghost use Rattle.p4_rules.specs.declared.types.SourceType.TheVariants.{Integer as IntegerType};
ghost use Rattle.tg_base.specs.declared.place.Code.TheVariants.{Typing};
ghost use Rattle.p4_rules.specs.Faults.{provided as provided_by_rules};
ghost use Rattle.p4_rules.specs.Operands.{type_of as type_by_rules};
ghost use Rattle.p4_rules.specs.Operators.{is_number, unified as unified_by_rules, with_bits as with_bits_by_rules};
ghost use Rattle.p4_rules.specs.Scopes.{Scope as RulesScope};
ghost use Rattle.p4_consts.specs.declared.scopes.Scope.{Scope as AScope};
ghost use Rattle.p4_consts.specs.Noted.{noted, right_of};
ghost use Rattle.p4_consts.specs.Operands.{operand_of};
ghost use Rattle.p4_consts.specs.Pairs.{pair_of, operands_of, operands_in, fits_of, unified_each as unified_each_by_rules};
ghost use Rattle.p4_consts.specs.Scopes.{scope_in};

use crate::casts::{as_bits, cast_to};
use crate::faults::Faults;
use crate::operands::{Operand, type_of};
use crate::pairs::{Pair, each, with_bits};
use crate::types::{is_sized, same_type};
use crate::wanted::Wanted;
use p4_rules::{Pass, SourceType};
use std::alloc::{AllocError, Global};
use tg_base::Code;

/// Both operands in one type, where each alone is what its place wants.
pub fn unified_each(
    alloc: Global,
    pass: Pass,
    faults: &mut Faults,
    wanted: Wanted,
    pair: Pair,
) -> Result<Option<(Operand, Operand)>, AllocError>
    ensures value { (scope : AScope) → IfOk result (λ v. option_map operands_of v ≡ right_of
        (unified_each_by_rules (scope_in pass scope) (fits_of wanted) (pair_of pair))) }
    ensures faults { (scope : AScope) → OnOk result (faults.new.first ≡ noted faults.old.first
        (unified_each_by_rules (scope_in pass scope) (fits_of wanted) (pair_of pair))) }
{
    match each(faults, wanted, pair) {
        Some(fitting) => unified(alloc, pass, faults, fitting),
        None => Ok(None),
    }
}

/// Both operands in one type, where each alone is a number. Enumerations over bits are cast to these.
pub fn unified_numbers(
    alloc: Global,
    pass: Pass,
    faults: &mut Faults,
    pair: Pair,
) -> Result<Option<(Operand, Operand)>, AllocError>
    ensures value { (scope : AScope) → IfOk result (λ v. option_map operands_of v
        ≡ right_of (unified_each_by_rules (scope_in pass scope) is_number
        (with_bits_by_rules (scope_in pass scope) (pair_of pair)))) }
    ensures faults { (scope : AScope) → OnOk result (faults.new.first
        ≡ noted faults.old.first (unified_each_by_rules (scope_in pass scope) is_number
        (with_bits_by_rules (scope_in pass scope) (pair_of pair)))) }
{
    let bits = with_bits(alloc, pair)?;
    unified_each(alloc, pass, faults, Wanted::Number, bits)
}

/// Both operands in one type. A compile-time integer takes the other's sized type, and so does an enumeration over bits beside
/// a compile-time integer or these bits.
pub fn unified(
    alloc: Global,
    pass: Pass,
    faults: &mut Faults,
    pair: Pair,
) -> Result<Option<(Operand, Operand)>, AllocError>
    ensures value { (scope : AScope) → IfOk result (λ v. option_map operands_of v
        ≡ right_of (unified_by_rules (scope_in pass scope) (pair_of pair))) }
    ensures faults { (scope : AScope) → OnOk result (faults.new.first
        ≡ noted faults.old.first (unified_by_rules (scope_in pass scope) (pair_of pair))) }
{
    let t = type_of(&pair.left.operand);
    let u = type_of(&pair.right.operand);
    match t {
        SourceType::Integer => match u {
            SourceType::Integer => Ok(Some((pair.left.operand, pair.right.operand))),
            _ => left_unified(alloc, pass, faults, pair),
        },
        _ => match u {
            SourceType::Integer => right_unified(alloc, pass, faults, pair),
            _ => values_unified(alloc, faults, pair),
        },
    }
}

/// The left operand, a compile-time integer, in the type of the right one.
fn left_unified(
    alloc: Global,
    pass: Pass,
    faults: &mut Faults,
    pair: Pair,
) -> Result<Option<(Operand, Operand)>, AllocError>
    requires integer { type_by_rules (operand_of pair.left.operand) ≡ IntegerType }
    requires value { type_by_rules (operand_of pair.right.operand) ≢ IntegerType }
    ensures value { (scope : AScope) → IfOk result (λ v. option_map operands_of v
        ≡ right_of (unified_by_rules (scope_in pass scope) (pair_of pair))) }
    ensures faults { (scope : AScope) → OnOk result (faults.new.first
        ≡ noted faults.old.first (unified_by_rules (scope_in pass scope) (pair_of pair))) }
{
    let Pair { left, right, place } = pair;
    let other = as_bits(alloc, right.operand)?;
    let t = type_of(&other);
    if !is_sized(t) {
        drop(left);
        drop(other);
        faults.note(Pass::Checking, Code::Typing, place);
        return Ok(None);
    }
    match cast_to(alloc, pass, faults, t, left.place, left.operand)? {
        Some(one) => Ok(Some((one, other))),
        None => {
            drop(other);
            Ok(None)
        }
    }
}

/// The right operand, a compile-time integer, in the type of the left one.
fn right_unified(
    alloc: Global,
    pass: Pass,
    faults: &mut Faults,
    pair: Pair,
) -> Result<Option<(Operand, Operand)>, AllocError>
    requires value { type_by_rules (operand_of pair.left.operand) ≢ IntegerType }
    requires integer { type_by_rules (operand_of pair.right.operand) ≡ IntegerType }
    ensures value { (scope : AScope) → IfOk result (λ v. option_map operands_of v
        ≡ right_of (unified_by_rules (scope_in pass scope) (pair_of pair))) }
    ensures faults { (scope : AScope) → OnOk result (faults.new.first
        ≡ noted faults.old.first (unified_by_rules (scope_in pass scope) (pair_of pair))) }
{
    let Pair { left, right, place } = pair;
    let one = as_bits(alloc, left.operand)?;
    let t = type_of(&one);
    if !is_sized(t) {
        drop(one);
        drop(right);
        faults.note(Pass::Checking, Code::Typing, place);
        return Ok(None);
    }
    match cast_to(alloc, pass, faults, t, right.place, right.operand)? {
        Some(other) => Ok(Some((one, other))),
        None => {
            drop(one);
            Ok(None)
        }
    }
}

/// Two operands of which neither is a compile-time integer.
fn values_unified(
    alloc: Global,
    faults: &mut Faults,
    pair: Pair,
) -> Result<Option<(Operand, Operand)>, AllocError>
    requires left { type_by_rules (operand_of pair.left.operand) ≢ IntegerType }
    requires right { type_by_rules (operand_of pair.right.operand) ≢ IntegerType }
    ensures value { (Γ : RulesScope) → IfOk result (λ v. option_map operands_of v
        ≡ right_of (unified_by_rules Γ (pair_of pair))) }
    ensures faults { (Γ : RulesScope) → OnOk result (faults.new.first
        ≡ noted faults.old.first (unified_by_rules Γ (pair_of pair))) }
{
    let t = type_of(&pair.left.operand);
    let u = type_of(&pair.right.operand);
    match t {
        SourceType::Bit(w) => match u {
            SourceType::BitEnumeration(_, v) => provided_bits(alloc, faults, w == v, pair),
            _ => Ok(provided_both(faults, same_type(t, u), pair)),
        },
        SourceType::BitEnumeration(_, v) => match u {
            SourceType::Bit(w) => provided_bits(alloc, faults, v == w, pair),
            _ => Ok(provided_both(faults, same_type(t, u), pair)),
        },
        _ => Ok(provided_both(faults, same_type(t, u), pair)),
    }
}

/// The operands, with enumerations over bits cast to these, where the test holds, else a fault of types.
fn provided_bits(
    alloc: Global,
    faults: &mut Faults,
    holds: bool,
    pair: Pair,
) -> Result<Option<(Operand, Operand)>, AllocError>
    ensures value { (Γ : RulesScope) → IfOk result (λ v. option_map operands_of v
        ≡ right_of (provided_by_rules holds Checking Typing pair.place
        (operands_in (with_bits_by_rules Γ (pair_of pair))))) }
    ensures faults { (Γ : RulesScope) → OnOk result (faults.new.first
        ≡ noted faults.old.first (provided_by_rules holds Checking Typing pair.place
        (operands_in (with_bits_by_rules Γ (pair_of pair))))) }
{
    if holds {
        let Pair { left, right, .. } = with_bits(alloc, pair)?;
        return Ok(Some((left.operand, right.operand)));
    }
    let place = pair.place;
    drop(pair);
    faults.note(Pass::Checking, Code::Typing, place);
    Ok(None)
}

/// The operands where the test holds, else a fault of types.
fn provided_both(faults: &mut Faults, holds: bool, pair: Pair) -> Option<(Operand, Operand)>
    ensures value { option_map operands_of result
        ≡ right_of (provided_by_rules holds Checking Typing pair.place
        (operands_in (pair_of pair))) }
    ensures faults { faults.new.first
        ≡ noted faults.old.first (provided_by_rules holds Checking Typing pair.place
        (operands_in (pair_of pair))) }
{
    if holds {
        return Some((pair.left.operand, pair.right.operand));
    }
    let place = pair.place;
    drop(pair);
    faults.note(Pass::Checking, Code::Typing, place);
    None
}
