//! Sums, products and quotients, and what is computed bit by bit (P4-16, "Operations on fixed-width bit types", "Operations on
//! fixed-width signed integers", "Operations on arbitrary-precision integers").
ghost use Rattle.std.specs.Prelude.{◌≡◌, false, ◌==◌, IfOk, OnOk, option_map, unsigned_abs};
ghost use Rattle.p4_rules.specs.Integers.{is_negative as is_below_zero};
ghost use Rattle.p4_rules.specs.Operands.{Whole};
ghost use Rattle.p4_rules.specs.Operators.{arithmetic as arithmetic_by_rules, arithmetic_on as arithmetic_on_by_rules, folded_integers as folded_by_rules, integer_result, division as division_by_rules, division_on as division_on_by_rules, divided as divided_by_rules};
ghost use Rattle.p4_consts.specs.declared.scopes.Scope.{Scope as AScope};
ghost use Rattle.p4_consts.specs.Integers.{integer_of};
ghost use Rattle.p4_consts.specs.Noted.{noted, right_of};
ghost use Rattle.p4_consts.specs.Operands.{operand_of};
ghost use Rattle.p4_consts.specs.Pairs.{pair_of};
ghost use Rattle.p4_consts.specs.Scopes.{scope_in};

use crate::applying::applied_with;
use crate::faults::Faults;
use crate::folding::{core_operator, is_signed};
use crate::integer::Integer;
use crate::operands::{Operand, type_of};
use crate::pairs::{Pair, each, whole_numbers};
use crate::scopes::Scope;
use crate::shifts::kept;
use crate::unify::unified_numbers;
use crate::wanted::Wanted;
use p4_rules::Pass;
use p4_tree::Operator;
use std::alloc::{AllocError, Global};
use tg_base::{Code, Span};

/// `+`, `*`, `&` and their like: both of one sized type, or two compile-time integers.
pub fn arithmetic(
    alloc: Global,
    scope: &Scope,
    pass: Pass,
    faults: &mut Faults,
    goes_on: bool,
    sign: Operator,
    pair: Pair,
) -> Result<Option<Operand>, AllocError>
    ensures value { IfOk result (λ o. option_map operand_of o ≡ right_of
        (arithmetic_by_rules (scope_in pass scope.now) goes_on sign (pair_of pair))) }
    ensures faults { OnOk result (faults.new.first ≡ noted faults.old.first
        (arithmetic_by_rules (scope_in pass scope.now) goes_on sign (pair_of pair))) }
{
    let place = pair.place;
    match unified_numbers(alloc, pass, faults, pair)? {
        Some((one, other)) => {
            arithmetic_on(alloc, scope, pass, faults, goes_on, sign, place, one, other)
        }
        None => Ok(None),
    }
}

/// Arithmetic on two operands of one type, which is that of the result.
fn arithmetic_on(
    alloc: Global,
    scope: &Scope,
    pass: Pass,
    faults: &mut Faults,
    goes_on: bool,
    sign: Operator,
    place: Span,
    one: Operand,
    other: Operand,
) -> Result<Option<Operand>, AllocError>
    ensures value { IfOk result (λ o. option_map operand_of o ≡ right_of
        (arithmetic_on_by_rules (scope_in pass scope.now) goes_on sign place
        (operand_of one, operand_of other))) }
    ensures faults { OnOk result (faults.new.first ≡ noted faults.old.first
        (arithmetic_on_by_rules (scope_in pass scope.now) goes_on sign place
        (operand_of one, operand_of other))) }
{
    match whole_numbers(&one, &other) {
        Some((a, b)) => {
            drop(one);
            drop(other);
            Ok(integers_folded(pass, faults, sign, place, a, b))
        }
        None => {
            let t = type_of(&one);
            let operator = core_operator(sign, is_signed(t));
            applied_with(
                alloc, scope, faults, goes_on, t, operator, place, one, other,
            )
        }
    }
}

/// The sum, the difference or the product of two compile-time integers. They have no other operator of this row.
fn integers_folded(
    pass: Pass,
    faults: &mut Faults,
    sign: Operator,
    place: Span,
    a: Integer,
    b: Integer,
) -> Option<Operand>
    ensures value { (scope : AScope) → option_map operand_of result ≡ right_of (folded_by_rules
        (scope_in pass scope) place (integer_result sign (integer_of a) (integer_of b))) }
    ensures faults { (scope : AScope) → faults.new.first ≡ noted faults.old.first (folded_by_rules
        (scope_in pass scope) place (integer_result sign (integer_of a) (integer_of b))) }
{
    match sign {
        Operator::Plus => kept(pass, faults, place, a.plus(b)),
        Operator::Minus => kept(pass, faults, place, a.minus(b)),
        Operator::Times => kept(pass, faults, place, a.times(b)),
        _ => {
            faults.note(Pass::Checking, Code::Typing, place);
            None
        }
    }
}

/// `/` and `%`, which stand between compile-time integers that are not negative, the second above 0.
pub fn division(pass: Pass, faults: &mut Faults, sign: Operator, pair: Pair) -> Option<Operand>
    ensures value { (scope : AScope) → option_map operand_of result
        ≡ right_of (division_by_rules (scope_in pass scope) sign (pair_of pair)) }
    ensures faults { (scope : AScope) → faults.new.first
        ≡ noted faults.old.first (division_by_rules (scope_in pass scope) sign (pair_of pair)) }
{
    match each(faults, Wanted::Integer, pair) {
        Some(fitting) => division_on(pass, faults, sign, fitting),
        None => None,
    }
}

/// Division of two operands that have the type of compile-time integers.
fn division_on(pass: Pass, faults: &mut Faults, sign: Operator, pair: Pair) -> Option<Operand>
    ensures value { (scope : AScope) → option_map operand_of result
        ≡ right_of (division_on_by_rules (scope_in pass scope) sign (pair_of pair)
        (operand_of pair.left.operand) (operand_of pair.right.operand)) }
    ensures faults { (scope : AScope) → faults.new.first
        ≡ noted faults.old.first (division_on_by_rules (scope_in pass scope) sign (pair_of pair)
        (operand_of pair.left.operand) (operand_of pair.right.operand)) }
{
    match whole_numbers(&pair.left.operand, &pair.right.operand) {
        Some((a, b)) => integers_divided(pass, faults, sign, pair, a, b),
        None => {
            let place = pair.place;
            drop(pair);
            faults.note(Pass::Checking, Code::Typing, place);
            None
        }
    }
}

/// Division of two compile-time integers.
#[tactic(auto, using(crate::proofs::OperatorLaws::zero_signed))]
fn integers_divided(
    pass: Pass,
    faults: &mut Faults,
    sign: Operator,
    pair: Pair,
    a: Integer,
    b: Integer,
) -> Option<Operand>
    ensures value { (scope : AScope) → option_map operand_of result
        ≡ right_of (division_on_by_rules (scope_in pass scope) sign (pair_of pair)
        (Whole (integer_of a)) (Whole (integer_of b))) }
    ensures faults { (scope : AScope) → faults.new.first
        ≡ noted faults.old.first (division_on_by_rules (scope_in pass scope) sign (pair_of pair)
        (Whole (integer_of a)) (Whole (integer_of b))) }
{
    let (left, right) = (pair.left.place, pair.right.place);
    drop(pair);
    if a.is_negative() {
        faults.note(Pass::Checking, Code::Typing, left);
        return None;
    }
    if b.is_negative() {
        faults.note(Pass::Checking, Code::Typing, right);
        return None;
    }
    if b.magnitude == 0 {
        faults.note(pass, Code::Constant, right);
        return None;
    }
    Some(Operand::Whole(divided(sign, a, b)))
}

/// The quotient or the remainder.
#[tactic(auto, using(crate::proofs::OperatorLaws::divided_other))]
fn divided(sign: Operator, a: Integer, b: Integer) -> Integer
    requires left { is_below_zero (integer_of a) ≡ false }
    requires right { is_below_zero (integer_of b) ≡ false }
    requires some { (unsigned_abs (integer_of b) == 0) ≡ false }
    ensures { integer_of result ≡ divided_by_rules sign (integer_of a) (integer_of b) }
{
    match sign {
        Operator::Divide => a.quotient(b),
        _ => a.remainder(b),
    }
}
