//! Comparisons (P4-16, "Operations on fixed-width bit types", "Operations on error types", "Operations on enum types").
ghost use Rattle.std.specs.Prelude.{◌≡◌, ◌&&◌, IfOk, OnOk, option_map};
ghost use Rattle.p4_rules.specs.declared.faults.Pass.{Pass as APass};
ghost use Rattle.p4_rules.specs.Operands.{type_of as type_by_rules};
ghost use Rattle.p4_rules.specs.Operators.{order as order_by_rules, order_on as order_on_by_rules, equality as equality_by_rules, equality_on as equality_on_by_rules, has_fields as has_fields_by_rules};
ghost use Rattle.p4_rules.specs.Types.{same_type as same_type_by_rules};
ghost use Rattle.p4_consts.specs.Noted.{noted, right_of};
ghost use Rattle.p4_consts.specs.Operands.{operand_of};
ghost use Rattle.p4_consts.specs.Pairs.{pair_of};
ghost use Rattle.p4_consts.specs.Scopes.{scope_in};

use crate::applying::applied_with;
use crate::faults::Faults;
use crate::folding::{core_operator, fixed, integer_order, is_signed, one_where};
use crate::operands::{Operand, type_of};
use crate::pairs::{Pair, whole_numbers};
use crate::scopes::Scope;
use crate::types::same_type;
use crate::unify::{unified_each, unified_numbers};
use crate::wanted::{Wanted, has_fields};
use p4_rules::{Pass, SourceType};
use p4_tree::Operator;
use std::alloc::{AllocError, Global};
use tg_base::{Code, Span};

/// `<` and its like: both of one sized type, or two compile-time integers.
pub fn order(
    alloc: Global,
    scope: &Scope,
    pass: Pass,
    faults: &mut Faults,
    goes_on: bool,
    sign: Operator,
    pair: Pair,
) -> Result<Option<Operand>, AllocError>
    ensures value { IfOk result (λ o. option_map operand_of o ≡ right_of
        (order_by_rules (scope_in pass scope.now) goes_on sign (pair_of pair))) }
    ensures faults { OnOk result (faults.new.first ≡ noted faults.old.first
        (order_by_rules (scope_in pass scope.now) goes_on sign (pair_of pair))) }
{
    let place = pair.place;
    match unified_numbers(alloc, pass, faults, pair)? {
        Some((one, other)) => { order_on(alloc, scope, faults, goes_on, sign, place, one, other) }
        None => Ok(None),
    }
}

/// The order of two operands of one type.
fn order_on(
    alloc: Global,
    scope: &Scope,
    faults: &mut Faults,
    goes_on: bool,
    sign: Operator,
    place: Span,
    one: Operand,
    other: Operand,
) -> Result<Option<Operand>, AllocError>
    ensures value { (pass : APass) → IfOk result (λ o. option_map operand_of o ≡ right_of
        (order_on_by_rules (scope_in pass scope.now) goes_on sign place
        (operand_of one, operand_of other))) }
    ensures faults { (pass : APass) → OnOk result (faults.new.first ≡ noted faults.old.first
        (order_on_by_rules (scope_in pass scope.now) goes_on sign place
        (operand_of one, operand_of other))) }
{
    match whole_numbers(&one, &other) {
        Some((a, b)) => {
            drop(one);
            drop(other);
            let value = one_where(integer_order(sign, a, b));
            Ok(Some(fixed(SourceType::Boolean, value)?))
        }
        None => {
            let operator = core_operator(sign, is_signed(type_of(&one)));
            let t = SourceType::Boolean;
            applied_with(
                alloc, scope, faults, goes_on, t, operator, place, one, other,
            )
        }
    }
}

/// `==` and `!=`: both of one type among those that may be compared.
pub fn equality(
    alloc: Global,
    scope: &Scope,
    pass: Pass,
    faults: &mut Faults,
    goes_on: bool,
    sign: Operator,
    pair: Pair,
) -> Result<Option<Operand>, AllocError>
    ensures value { IfOk result (λ o. option_map operand_of o ≡ right_of
        (equality_by_rules (scope_in pass scope.now) goes_on sign (pair_of pair))) }
    ensures faults { OnOk result (faults.new.first ≡ noted faults.old.first
        (equality_by_rules (scope_in pass scope.now) goes_on sign (pair_of pair))) }
{
    let place = pair.place;
    if are_alike_with_fields(&pair) {
        drop(pair);
        faults.note(Pass::Checking, Code::Unsupported, place);
        return Ok(None);
    }
    match unified_each(alloc, pass, faults, Wanted::Comparable, pair)? {
        Some((one, other)) => {
            equality_on(alloc, scope, faults, goes_on, sign, place, one, other)
        }
        None => Ok(None),
    }
}

/// Whether both are of one header type, or of one struct.
fn are_alike_with_fields(pair: &Pair) -> bool
    ensures { result ≡ (has_fields_by_rules (type_by_rules (operand_of pair.now.left.operand))
        && same_type_by_rules (type_by_rules (operand_of pair.now.left.operand))
        (type_by_rules (operand_of pair.now.right.operand))) }
{
    let t = type_of(&pair.left.operand);
    has_fields(t) && same_type(t, type_of(&pair.right.operand))
}

/// Whether two operands of one type are equal. Two compile-time integers may not be compared so.
fn equality_on(
    alloc: Global,
    scope: &Scope,
    faults: &mut Faults,
    goes_on: bool,
    sign: Operator,
    place: Span,
    one: Operand,
    other: Operand,
) -> Result<Option<Operand>, AllocError>
    ensures value { (pass : APass) → IfOk result (λ o. option_map operand_of o ≡ right_of
        (equality_on_by_rules (scope_in pass scope.now) goes_on sign place
        (operand_of one, operand_of other))) }
    ensures faults { (pass : APass) → OnOk result (faults.new.first ≡ noted faults.old.first
        (equality_on_by_rules (scope_in pass scope.now) goes_on sign place
        (operand_of one, operand_of other))) }
{
    match whole_numbers(&one, &other) {
        Some(_) => {
            drop(one);
            drop(other);
            faults.note(Pass::Checking, Code::Typing, place);
            Ok(None)
        }
        None => {
            let operator = core_operator(sign, false);
            let t = SourceType::Boolean;
            applied_with(
                alloc, scope, faults, goes_on, t, operator, place, one, other,
            )
        }
    }
}
