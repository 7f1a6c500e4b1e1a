//! Shifts (P4-16, "A note about shifts").
ghost use Rattle.std.specs.Prelude.{◌≡◌, ℤ, IfOk, OnOk, option_map};
ghost use Rattle.p4_rules.specs.declared.faults.Pass.{Pass as APass};
ghost use Rattle.p4_rules.specs.Faults.{made_of};
ghost use Rattle.p4_rules.specs.Integers.{kept as kept_by_rules};
ghost use Rattle.p4_rules.specs.Operands.{Whole, Fixed};
ghost use Rattle.p4_rules.specs.Operators.{Pair as RulesPair, shift as shift_by_rules, shift_of as shift_of_by_rules, shift_amount as amount_by_rules, shifted as shifted_by_rules, integer_shift as integer_shift_by_rules, value_shift as value_shift_by_rules};
ghost use Rattle.p4_consts.specs.declared.scopes.Scope.{Scope as AScope};
ghost use Rattle.p4_consts.specs.Integers.{integer_of, kept_or_none};
ghost use Rattle.p4_consts.specs.Noted.{noted, right_of};
ghost use Rattle.p4_consts.specs.Operands.{operand_of};
ghost use Rattle.p4_consts.specs.Pairs.{pair_of};
ghost use Rattle.p4_consts.specs.Scopes.{scope_in};
ghost use Rattle.p4_consts.specs.Shifts.{sized_shift as sized_shift_by_rules};

use crate::applying::applied_with;
use crate::constants::Constant;
use crate::faults::Faults;
use crate::folding::{core_operator, fixed, is_signed};
use crate::integer::Integer;
use crate::operands::{Operand, Placed, type_of};
use crate::pairs::{Pair, with_bits};
use crate::scopes::Scope;
use crate::wanted::{is_sized_value, may_be_amount};
use p4_rules::{Pass, SourceType};
use p4_tree::Operator;
use std::alloc::{AllocError, Global};
use tg_base::{Code, Span};

/// `<<` or `>>`. The amount is a `bit` value or a compile-time integer that is not negative; the result has the left operand's
/// type. A compile-time integer is shifted by a constant amount alone.
pub fn shift(
    alloc: Global,
    scope: &Scope,
    pass: Pass,
    faults: &mut Faults,
    goes_on: bool,
    sign: Operator,
    pair: Pair,
) -> Result<Option<Operand>, AllocError>
    ensures value { IfOk result (λ o. option_map operand_of o ≡ right_of
        (shift_by_rules (scope_in pass scope.now) goes_on sign (pair_of pair))) }
    ensures faults { OnOk result (faults.new.first ≡ noted faults.old.first
        (shift_by_rules (scope_in pass scope.now) goes_on sign (pair_of pair))) }
{
    let bits = with_bits(alloc, pair)?;
    shift_of(alloc, scope, pass, faults, goes_on, sign, bits)
}

/// A shift of operands with enumerations over bits cast to these.
fn shift_of(
    alloc: Global,
    scope: &Scope,
    pass: Pass,
    faults: &mut Faults,
    goes_on: bool,
    sign: Operator,
    pair: Pair,
) -> Result<Option<Operand>, AllocError>
    ensures value { IfOk result (λ o. option_map operand_of o ≡ right_of
        (shift_of_by_rules (scope_in pass scope.now) goes_on sign
        (operand_of pair.left.operand) (operand_of pair.right.operand) (pair_of pair))) }
    ensures faults { OnOk result (faults.new.first ≡ noted faults.old.first
        (shift_of_by_rules (scope_in pass scope.now) goes_on sign
        (operand_of pair.left.operand) (operand_of pair.right.operand) (pair_of pair))) }
{
    let Pair { left, right, place } = pair;
    let Placed { operand, place: at } = left;
    match operand {
        Operand::Whole(number) => {
            let amount = shift_amount(&right.operand);
            drop(right);
            Ok(integer_shift(pass, faults, sign, number, amount, place))
        }
        other => {
            let left = Placed {
                operand: other,
                place: at,
            };
            let pair = Pair { left, right, place };
            sized_shift(alloc, scope, faults, goes_on, sign, pair)
        }
    }
}

/// A compile-time integer by the number of a constant amount.
fn integer_shift(
    pass: Pass,
    faults: &mut Faults,
    sign: Operator,
    number: Integer,
    amount: Option<Integer>,
    place: Span,
) -> Option<Operand>
    ensures value { (scope : AScope) (p : RulesPair) → p.place ≡ place →
        option_map operand_of result ≡ right_of
        (integer_shift_by_rules (scope_in pass scope) sign (integer_of number)
        (option_map integer_of amount) p) }
    ensures faults { (scope : AScope) (p : RulesPair) → p.place ≡ place →
        faults.new.first ≡ noted faults.old.first
        (integer_shift_by_rules (scope_in pass scope) sign (integer_of number)
        (option_map integer_of amount) p) }
{
    match amount {
        Some(by) if !by.is_negative() => {
            let result = shifted(sign, number, by.magnitude);
            kept(pass, faults, place, result)
        }
        _ => {
            faults.note(pass, Code::Constant, place);
            None
        }
    }
}

/// The integer that an operator gives, where this profile keeps it, else a fault of constants.
pub fn kept(
    pass: Pass,
    faults: &mut Faults,
    place: Span,
    number: Option<Integer>,
) -> Option<Operand>
    ensures value { (z : ℤ) → option_map integer_of number ≡ kept_or_none z →
        option_map operand_of result
        ≡ right_of (made_of (λ k. Whole k) (kept_by_rules pass place z)) }
    ensures faults { (z : ℤ) → option_map integer_of number ≡ kept_or_none z →
        faults.new.first
        ≡ noted faults.old.first (made_of (λ k. Whole k) (kept_by_rules pass place z)) }
{
    match number {
        Some(value) => Some(Operand::Whole(value)),
        None => {
            faults.note(pass, Code::Constant, place);
            None
        }
    }
}

/// A compile-time integer shifted so far.
#[tactic(auto, using(crate::proofs::ArithmeticLaws::kept_signed))]
fn shifted(sign: Operator, number: Integer, amount: u128) -> Option<Integer>
    ensures { option_map integer_of result
        ≡ kept_or_none (shifted_by_rules sign (integer_of number) amount) }
{
    match sign {
        Operator::ShiftLeft => number.shifted_left(amount),
        _ => Some(number.shifted_right(amount)),
    }
}

/// The number of a constant amount, which is a compile-time integer or of `bit`.
fn shift_amount(operand: &Operand) -> Option<Integer>
    ensures { option_map integer_of result ≡ amount_by_rules (operand_of operand.now) }
{
    match operand {
        Operand::Whole(number) => Some(*number),
        Operand::Fixed(constant) => bit_number(*constant),
        Operand::Stored(_, _, _, _) => None,
        Operand::Sliced(_, _, _, _) => None,
        Operand::Computed(_, _, _) => None,
    }
}

/// The number of a constant of `bit`.
fn bit_number(constant: Constant) -> Option<Integer>
    ensures { option_map integer_of result
        ≡ amount_by_rules (Fixed constant.type_of constant.value) }
{
    match constant.type_of {
        SourceType::Bit(_) => Some(Integer::from_u128(constant.value)),
        _ => None,
    }
}

/// What is no compile-time integer, which is a sized value, by what may be an amount.
fn sized_shift(
    alloc: Global,
    scope: &Scope,
    faults: &mut Faults,
    goes_on: bool,
    sign: Operator,
    pair: Pair,
) -> Result<Option<Operand>, AllocError>
    ensures value { (pass : APass) → IfOk result (λ o. option_map operand_of o ≡ right_of
        (sized_shift_by_rules (scope_in pass scope.now) goes_on sign (pair_of pair))) }
    ensures faults { (pass : APass) → OnOk result (faults.new.first ≡ noted faults.old.first
        (sized_shift_by_rules (scope_in pass scope.now) goes_on sign (pair_of pair))) }
{
    let (left, right) = (pair.left.place, pair.right.place);
    if !is_sized_value(&pair.left.operand) {
        drop(pair);
        faults.note(Pass::Checking, Code::Typing, left);
        return Ok(None);
    }
    if !may_be_amount(&pair.right.operand) {
        drop(pair);
        faults.note(Pass::Checking, Code::Typing, right);
        return Ok(None);
    }
    value_shift(alloc, scope, faults, goes_on, sign, pair)
}

/// A sized value by an amount. A compile-time integer has the most bits beside a constant.
fn value_shift(
    alloc: Global,
    scope: &Scope,
    faults: &mut Faults,
    goes_on: bool,
    sign: Operator,
    pair: Pair,
) -> Result<Option<Operand>, AllocError>
    ensures value { (pass : APass) → IfOk result (λ o. option_map operand_of o ≡ right_of
        (value_shift_by_rules (scope_in pass scope.now) goes_on sign
        (operand_of pair.left.operand) (operand_of pair.right.operand) pair.place)) }
    ensures faults { (pass : APass) → OnOk result (faults.new.first ≡ noted faults.old.first
        (value_shift_by_rules (scope_in pass scope.now) goes_on sign
        (operand_of pair.left.operand) (operand_of pair.right.operand) pair.place)) }
{
    let Pair { left, right, place } = pair;
    let (one, other) = (left.operand, right.operand);
    let t = type_of(&one);
    let o = core_operator(sign, is_signed(t));
    match one {
        Operand::Fixed(a) => match other {
            Operand::Whole(b) => {
                let amount = fixed(SourceType::Bit(128), b.magnitude)?;
                let value = Operand::Fixed(a);
                applied_with(alloc, scope, faults, goes_on, t, o, place, value, amount)
            }
            amount => {
                let value = Operand::Fixed(a);
                applied_with(alloc, scope, faults, goes_on, t, o, place, value, amount)
            }
        },
        value => applied_with(alloc, scope, faults, goes_on, t, o, place, value, other),
    }
}
