//! Integer literals, and constant numbers.
ghost use Rattle.std.specs.Prelude.{◌≡◌, option_map};
ghost use Rattle.p4_rules.specs.Things.{literal as literal_by_rules, literal_at as literal_at_by_rules};
ghost use Rattle.p4_rules.specs.Things.{literal_in as literal_in_by_rules, number_of as number_by_rules};
ghost use Rattle.p4_rules.specs.Things.{constant_in as constant_by_rules};
ghost use Rattle.p4_consts.specs.Integers.{integer_of};
ghost use Rattle.p4_consts.specs.Noted.{noted, right_of};
ghost use Rattle.p4_consts.specs.Operands.{operand_of};
ghost use Rattle.p4_consts.specs.Scopes.{scope_in};
ghost use Rattle.p4_consts.specs.Things.{judged_of};

use crate::constants::Constant;
use crate::faults::Faults;
use crate::integer::Integer;
use crate::operands::{Operand, Placed, constant_number, varying_or};
use crate::scopes::Scope;
use crate::things::{Judged, Thing};
use crate::values::value_of;
use p4_rules::{Pass, SourceType};
use tg_base::{Code, IntType, IntValue, Literal, Span};

/// A constant number: a compile-time integer, or a constant of bits.
pub fn number_of(scope: &Scope, pass: Pass, faults: &mut Faults, judged: Judged) -> Option<Integer>
    ensures value { option_map integer_of result
        ≡ right_of (number_by_rules (scope_in pass scope.now) (judged_of judged)) }
    ensures faults { faults.new.first
        ≡ noted faults.old.first (number_by_rules (scope_in pass scope.now) (judged_of judged)) }
{
    let Placed { operand, place } = value_of(faults, judged)?;
    let number = constant_number(&operand);
    let found = constant_in(scope, pass, faults, place, &operand, number);
    drop(operand);
    found
}

/// The number of an operand that is one. What is no constant is refused at its first part that is none.
fn constant_in(
    scope: &Scope,
    pass: Pass,
    faults: &mut Faults,
    place: Span,
    operand: &Operand,
    number: Option<Integer>,
) -> Option<Integer>
    ensures value { option_map integer_of result ≡ right_of (constant_by_rules
        (scope_in pass scope.now) place (operand_of operand.now) (option_map integer_of number)) }
    ensures faults { faults.new.first ≡ noted faults.old.first (constant_by_rules
        (scope_in pass scope.now) place (operand_of operand.now) (option_map integer_of number)) }
{
    if number.is_some() {
        return number;
    }
    match operand {
        Operand::Fixed(_) => faults.note(Pass::Checking, Code::Typing, place),
        other => faults.note(pass, Code::Constant, varying_or(place, other)),
    }
    None
}

/// An integer literal (P4-16, "Integer literals").
pub fn literal(faults: &mut Faults, literal: &Literal, place: Span) -> Option<Judged>
    ensures value { option_map judged_of result ≡ right_of (literal_by_rules literal.now place) }
    ensures faults { faults.new.first
        ≡ noted faults.old.first (literal_by_rules literal.now place) }
{
    let operand = literal_at(faults, literal.int_type, literal.value, place)?;
    Some(Judged {
        thing: Thing::Value(operand),
        place,
    })
}

fn literal_at(
    faults: &mut Faults,
    int_type: IntType,
    value: IntValue,
    place: Span,
) -> Option<Operand>
    ensures value { option_map operand_of result
        ≡ right_of (literal_at_by_rules int_type value place) }
    ensures faults { faults.new.first
        ≡ noted faults.old.first (literal_at_by_rules int_type value place) }
{
    match value {
        IntValue::Exact(value) => literal_in(faults, int_type, value, place),
        IntValue::TooLarge => {
            faults.note(Pass::Folding, Code::Constant, place);
            None
        }
    }
}

/// A number of the type of its prefix. One past this type is refused when constants are folded.
#[tactic(auto, using(crate::proofs::LiteralLaws::bit_literal, crate::proofs::LiteralLaws::int_literal))]
fn literal_in(faults: &mut Faults, int_type: IntType, value: u128, place: Span) -> Option<Operand>
    ensures value { option_map operand_of result
        ≡ right_of (literal_in_by_rules int_type value place) }
    ensures faults { faults.new.first
        ≡ noted faults.old.first (literal_in_by_rules int_type value place) }
{
    let number = Integer::from_u128(value);
    match int_type {
        IntType::Integer => Some(Operand::Whole(number)),
        IntType::Unsigned(width) => {
            if !number.fits_bit(width) {
                faults.note(Pass::Folding, Code::Constant, place);
                return None;
            }
            Some(Operand::Fixed(Constant {
                type_of: SourceType::Bit(width),
                value,
            }))
        }
        IntType::Signed(width) => {
            if !number.fits_int(width) {
                faults.note(Pass::Folding, Code::Constant, place);
                return None;
            }
            Some(Operand::Fixed(Constant {
                type_of: SourceType::Signed(width),
                value,
            }))
        }
    }
}
