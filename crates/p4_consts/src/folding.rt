//! The values of operators on constants (P4-16, "Operations on fixed-width bit types", "Operations on fixed-width signed
//! integers"). What no constants of a source can have, as operands of two widths, is want of memory.
ghost use Rattle.std.specs.Prelude.{◌≡◌, true, IfOk, if◌then◌else◌};
ghost use Rattle.bits_core.specs.Operator.{WidthsFit, shape_of, operator_value};
ghost use Rattle.p4_program.specs.declared.typed.expressions.Operator.TheVariants.{Plain};
ghost use Rattle.p4_rules.specs.Operands.{Fixed};
ghost use Rattle.p4_rules.specs.Operators.{core_operator as core_operator_by_rules, constant_value as constant_value_by_rules, width_in as width_in_by_rules, is_signed as is_signed_by_rules, integer_order as integer_order_by_rules, bool_value as bool_value_by_rules};
ghost use Rattle.p4_consts.specs.Integers.{integer_of};
ghost use Rattle.p4_consts.specs.Operands.{operand_of};

use crate::constants::Constant;
use crate::integer::Integer;
use crate::operands::Operand;
use bits_core::{Bits, Op, OpShape, apply};
use p4_program::typed::Operator as CoreOperator;
use p4_rules::SourceType;
use p4_tree::Operator;
use std::alloc::AllocError;

/// The operator of a run: the signedness of its operands stands in its name. There is none for `/` and `%`.
pub fn core_operator(o: Operator, signed: bool) -> Option<CoreOperator>
    ensures { result ≡ core_operator_by_rules o signed }
{
    match o {
        Operator::Times => Some(CoreOperator::Plain(Op::Mul)),
        Operator::Plus => Some(CoreOperator::Plain(Op::Add)),
        Operator::Minus => Some(CoreOperator::Plain(Op::Sub)),
        Operator::SaturatingPlus => by_sign(signed, Op::AddSatS, Op::AddSatU),
        Operator::SaturatingMinus => by_sign(signed, Op::SubSatS, Op::SubSatU),
        Operator::BitAnd => Some(CoreOperator::Plain(Op::And)),
        Operator::BitXor => Some(CoreOperator::Plain(Op::Xor)),
        Operator::BitOr => Some(CoreOperator::Plain(Op::Or)),
        Operator::ShiftLeft => Some(CoreOperator::Plain(Op::Shl)),
        Operator::ShiftRight => by_sign(signed, Op::ShrS, Op::ShrU),
        Operator::Concat => Some(CoreOperator::Plain(Op::Cat)),
        Operator::Less => by_sign(signed, Op::LtS, Op::LtU),
        Operator::AtMost => by_sign(signed, Op::LeS, Op::LeU),
        Operator::Greater if signed => Some(CoreOperator::GreaterS),
        Operator::Greater => Some(CoreOperator::GreaterU),
        Operator::AtLeast if signed => Some(CoreOperator::AtLeastS),
        Operator::AtLeast => Some(CoreOperator::AtLeastU),
        Operator::Equal => Some(CoreOperator::Plain(Op::Eq)),
        Operator::NotEqual => Some(CoreOperator::NotEqual),
        Operator::And => Some(CoreOperator::LogicalAnd),
        Operator::Or => Some(CoreOperator::LogicalOr),
        Operator::Divide => None,
        Operator::Remainder => None,
    }
}

/// One operator on `int`, another on `bit`.
fn by_sign(signed: bool, one: Op, other: Op) -> Option<CoreOperator>
    ensures { result ≡ Some (Plain (if signed then one else other)) }
{
    if signed {
        Some(CoreOperator::Plain(one))
    } else {
        Some(CoreOperator::Plain(other))
    }
}

/// The width of the values of a type of bits; a member's number has no width, and none is used of it.
pub fn width_in(t: SourceType) -> u8
    ensures { result ≡ width_in_by_rules t }
{
    match t {
        SourceType::Bit(width) => width,
        SourceType::Signed(width) => width,
        SourceType::Boolean => 1,
        SourceType::BitEnumeration(_, width) => width,
        _ => 8,
    }
}

pub fn is_signed(t: SourceType) -> bool
    ensures { result ≡ is_signed_by_rules t }
{
    matches!(t, SourceType::Signed(_))
}

/// The value of an operator on two constants, as runs have it.
pub fn constant_value(o: CoreOperator, a: Constant, b: Constant) -> Result<u128, AllocError>
    ensures { IfOk result (λ n. n
        ≡ constant_value_by_rules o (width_in_by_rules a.type_of) a.value
        (width_in_by_rules b.type_of) b.value) }
{
    match o {
        CoreOperator::Plain(op) => plain_value(op, a, b),
        CoreOperator::NotEqual => Ok(one_where(a.value != b.value)),
        CoreOperator::GreaterU => plain_value(Op::LtU, b, a),
        CoreOperator::GreaterS => plain_value(Op::LtS, b, a),
        CoreOperator::AtLeastU => plain_value(Op::LeU, b, a),
        CoreOperator::AtLeastS => plain_value(Op::LeS, b, a),
        CoreOperator::LogicalAnd => match a.value.checked_mul(b.value) {
            Some(value) => Ok(value),
            None => Err(AllocError),
        },
        CoreOperator::LogicalOr => Ok(a.value.max(b.value)),
    }
}

/// The value of an operator on bits.
pub fn plain_value(op: Op, a: Constant, b: Constant) -> Result<u128, AllocError>
    ensures { IfOk result (λ n. n
        ≡ operator_value op (width_in_by_rules a.type_of) a.value
        (width_in_by_rules b.type_of) b.value) }
{
    match op {
        Op::Eq => Ok(one_where(a.value == b.value)),
        other => {
            let one = Bits::new(width_in(a.type_of), a.value);
            let two = Bits::new(width_in(b.type_of), b.value);
            let (Some(one), Some(two)) = (one, two) else {
                return Err(AllocError);
            };
            if !widths_fit(other, one.width, two.width) {
                return Err(AllocError);
            }
            Ok(apply(other, one, two).value)
        }
    }
}

/// Whether operands of these widths may stand under an operator.
fn widths_fit(op: Op, w: u8, v: u8) -> bool
    ensures { result ≡ true → WidthsFit (shape_of op) w v }
{
    match op.shape() {
        OpShape::One => true,
        OpShape::Same => w == v,
        OpShape::Shift => true,
        OpShape::Join => w <= 128 && v <= 128 - w,
        OpShape::Test => w == v,
    }
}

/// 1 or 0.
pub fn one_where(holds: bool) -> u128
    ensures { result ≡ bool_value_by_rules holds }
{
    if holds { 1 } else { 0 }
}

/// A constant of this type.
pub fn fixed(t: SourceType, value: u128) -> Result<Operand, AllocError>
    ensures { IfOk result (λ x. operand_of x ≡ Fixed t value) }
{
    match Constant::new(t, value) {
        Some(constant) => Ok(Operand::Fixed(constant)),
        None => Err(AllocError),
    }
}

/// Two integers in an order.
pub fn integer_order(o: Operator, a: Integer, b: Integer) -> bool
    ensures { result ≡ integer_order_by_rules o (integer_of a) (integer_of b) }
{
    match o {
        Operator::Less => a.is_less(b),
        Operator::AtMost => a.is_at_most(b),
        Operator::Greater => b.is_less(a),
        _ => b.is_at_most(a),
    }
}
