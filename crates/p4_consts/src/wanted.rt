//! What the places of operands want of them.
ghost use Rattle.std.specs.Prelude.{◌≡◌};
ghost use Rattle.p4_rules.specs.Operators.{is_number as is_number_by_rules, is_of_bits as is_of_bits_by_rules, is_sized_value as is_sized_value_by_rules, is_integer as is_integer_by_rules, is_boolean as is_boolean_by_rules, is_comparable as is_comparable_by_rules, has_fields as has_fields_by_rules, may_be_amount as may_be_amount_by_rules};
ghost use Rattle.p4_consts.specs.Operands.{operand_of};

use crate::operands::{Operand, type_of};
use crate::types::is_sized;
use p4_rules::SourceType;

/// What the places of both operands of an operator want of each.
#[derive(Clone, Copy, Debug, PartialEq, Eq)]
pub enum Wanted {
    Number,
    Integer,
    /// A value of `bit`.
    Bits,
    Boolean,
    Comparable,
}

/// An integer of compile time or a sized value.
pub fn is_number(operand: &Operand) -> bool
    ensures { result ≡ is_number_by_rules (operand_of operand.now) }
{
    match type_of(operand) {
        SourceType::Integer => true,
        t => is_sized(t),
    }
}

pub fn is_of_bits(operand: &Operand) -> bool
    ensures { result ≡ is_of_bits_by_rules (operand_of operand.now) }
{
    matches!(type_of(operand), SourceType::Bit(_))
}

pub fn is_sized_value(operand: &Operand) -> bool
    ensures { result ≡ is_sized_value_by_rules (operand_of operand.now) }
{
    is_sized(type_of(operand))
}

pub fn is_integer(operand: &Operand) -> bool
    ensures { result ≡ is_integer_by_rules (operand_of operand.now) }
{
    matches!(type_of(operand), SourceType::Integer)
}

pub fn is_boolean(operand: &Operand) -> bool
    ensures { result ≡ is_boolean_by_rules (operand_of operand.now) }
{
    matches!(type_of(operand), SourceType::Boolean)
}

/// What `==` takes ("Operations on error types", "Operations on enum types").
pub fn is_comparable(operand: &Operand) -> bool
    ensures { result ≡ is_comparable_by_rules (operand_of operand.now) }
{
    match type_of(operand) {
        SourceType::Structure(_) | SourceType::Header(_) => false,
        SourceType::Stack(_, _) | SourceType::Opaque(_) => false,
        _ => true,
    }
}

/// Headers and structs, whose comparison this profile leaves out.
pub fn has_fields(t: SourceType) -> bool
    ensures { result ≡ has_fields_by_rules t }
{
    matches!(t, SourceType::Structure(_) | SourceType::Header(_))
}

/// What a value is shifted by ("A note about shifts").
pub fn may_be_amount(operand: &Operand) -> bool
    ensures { result ≡ may_be_amount_by_rules (operand_of operand.now) }
{
    match operand {
        Operand::Whole(number) => !number.is_negative(),
        Operand::Fixed(_) => is_of_bits(operand),
        Operand::Stored(_, _, _, _) => is_of_bits(operand),
        Operand::Sliced(_, _, _, _) => is_of_bits(operand),
        Operand::Computed(_, _, _) => is_of_bits(operand),
    }
}
