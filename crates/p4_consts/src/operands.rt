//! What an expression that has a value is: a constant, what a path leads to, or what is computed in a run.
ghost use Rattle.std.specs.Prelude.{◌≡◌, IfOk, option_map, length, slice_get};
ghost use Rattle.p4_program.specs.Trees.Expressions.{expression_of};
ghost use Rattle.p4_program.specs.Syntax.Expressions.{Read, Slice};
ghost use Rattle.p4_rules.specs.declared.faults.Pass.{Pass};
ghost use Rattle.p4_rules.specs.Scopes.{listed, Scope as RulesScope};
ghost use Rattle.p4_rules.specs.Operands.{type_of as type_by_rules, varies_at as variation_by_rules, varying_or as place_by_rules, scalar_of as scalar_by_rules, core_of as core_by_rules, retyped as retyped_by_rules, number_in as number_in_by_rules, constant_number as number_by_rules};
ghost use Rattle.p4_consts.specs.Integers.{integer_of};
ghost use Rattle.p4_consts.specs.Operands.{operand_of};
ghost use Rattle.p4_consts.specs.Scopes.{scope_in};

use crate::constants::Constant;
use crate::integer::Integer;
use crate::places::Places;
use crate::scopes::Scope;
use p4_program::typed::{Expression, Path, Scalar};
use p4_rules::SourceType;
use std::alloc::{AllocError, Global};
use tg_base::Span;

/// A value. A constant has it before any run; each of the others has the place of its first part that is no constant.
#[derive(Drop)]
pub enum Operand {
    /// A compile-time integer.
    Whole(Integer),
    Fixed(Constant),
    /// What a path leads to, and whether it may be assigned to.
    Stored(SourceType, bool, Path, Span),
    /// The bits of what a path leads to at these places, and whether they may be assigned to.
    Sliced(bool, Path, Places, Span),
    Computed(SourceType, Expression, Span),
}

/// An operand, and the first token of it within all parentheses, where it is refused.
#[derive(Drop)]
pub struct Placed {
    pub operand: Operand,
    pub place: Span,
}

/// The type of an operand. A slice is of `bit`.
pub fn type_of(operand: &Operand) -> SourceType
    ensures { result ≡ type_by_rules (operand_of operand.now) }
{
    match operand {
        Operand::Whole(_) => SourceType::Integer,
        Operand::Fixed(constant) => constant.type_of,
        Operand::Stored(t, _, _, _) => *t,
        Operand::Sliced(_, _, places, _) => {
            SourceType::Bit(places.high.saturating_sub(places.low) + 1)
        }
        Operand::Computed(t, _, _) => *t,
    }
}

/// The first part that is no constant.
pub fn varies_at(operand: &Operand) -> Option<Span>
    ensures { result ≡ variation_by_rules (operand_of operand.now) }
{
    match operand {
        Operand::Whole(_) => None,
        Operand::Fixed(_) => None,
        Operand::Stored(_, _, _, at) => Some(*at),
        Operand::Sliced(_, _, _, at) => Some(*at),
        Operand::Computed(_, _, at) => Some(*at),
    }
}

/// The first part that is no constant, or this place where the operand is one.
pub fn varying_or(place: Span, operand: &Operand) -> Span
    ensures { result ≡ place_by_rules place (operand_of operand.now) }
{
    match varies_at(operand) {
        Some(at) => at,
        None => place,
    }
}

/// What a value of this type is in a run.
pub fn scalar_of(scope: &Scope, t: SourceType) -> Scalar
    ensures { (pass : Pass) → result ≡ scalar_by_rules (scope_in pass scope.now) t }
{
    match t {
        SourceType::Bit(width) => Scalar::Sized(width),
        SourceType::Signed(width) => Scalar::Sized(width),
        SourceType::BitEnumeration(_, width) => Scalar::Sized(width),
        SourceType::Error => Scalar::Members(scope.error_count),
        SourceType::Enumeration(number) => Scalar::Members(member_count(scope, number)),
        _ => Scalar::Sized(1),
    }
}

/// How many members an enumeration has so far.
fn member_count(scope: &Scope, number: u32) -> u32
    ensures { (pass : Pass) → result
        ≡ length (listed (slice_get (scope_in pass scope.now).enumerations number)) }
{
    match scope.enumerations.get(number as usize) {
        Some(members) => members.len(),
        None => 0,
    }
}

/// The expression of a value in a run. A compile-time integer that stands alone is an amount, in the most bits.
pub fn core_of(alloc: Global, scope: &Scope, operand: Operand) -> Result<Expression, AllocError>
    ensures { (pass : Pass) → IfOk result (λ e. expression_of e
        ≡ core_by_rules (scope_in pass scope.now) (operand_of operand)) }
{
    match operand {
        Operand::Whole(number) => Ok(Expression::Constant(Scalar::Sized(128), number.wrapped(128))),
        Operand::Fixed(constant) => Ok(Expression::Constant(
            scalar_of(scope, constant.type_of),
            constant.value,
        )),
        Operand::Stored(_, _, path, _) => Ok(Expression::Read(path)),
        Operand::Sliced(_, path, places, _) => sliced_path(alloc, path, places),
        Operand::Computed(_, expression, _) => Ok(expression),
    }
}

/// The bits of what a path leads to.
fn sliced_path(alloc: Global, path: Path, places: Places) -> Result<Expression, AllocError>
    ensures { IfOk result (λ e. expression_of e ≡ Slice (Read path) places.high places.low) }
{
    let whole = Box::new(alloc, Expression::Read(path))?;
    Ok(Expression::Slice(whole, places.high, places.low))
}

/// The operand as a value of this type with the same bits. Bits that the type does not have are want of memory: no source
/// comes here with any.
pub fn retyped(alloc: Global, t: SourceType, operand: Operand) -> Result<Operand, AllocError>
    ensures { (Γ : RulesScope) → IfOk result (λ x. operand_of x
        ≡ retyped_by_rules Γ t (operand_of operand)) }
{
    match operand {
        Operand::Whole(number) => Ok(Operand::Whole(number)),
        Operand::Fixed(constant) => match Constant::new(t, constant.value) {
            Some(other) => Ok(Operand::Fixed(other)),
            None => Err(AllocError),
        },
        Operand::Stored(_, _, path, at) => Ok(Operand::Computed(t, Expression::Read(path), at)),
        Operand::Sliced(_, path, places, at) => {
            Ok(Operand::Computed(t, sliced_path(alloc, path, places)?, at))
        }
        Operand::Computed(_, expression, at) => Ok(Operand::Computed(t, expression, at)),
    }
}

/// The number of a constant, where the operand is a constant number.
pub fn constant_number(operand: &Operand) -> Option<Integer>
    ensures { option_map integer_of result ≡ number_by_rules (operand_of operand.now) }
{
    match operand {
        Operand::Whole(number) => Some(*number),
        Operand::Fixed(constant) => number_in(*constant),
        Operand::Stored(_, _, _, _) => None,
        Operand::Sliced(_, _, _, _) => None,
        Operand::Computed(_, _, _) => None,
    }
}

/// The number of a constant of a type of bits.
fn number_in(constant: Constant) -> Option<Integer>
    ensures { option_map integer_of result ≡ number_in_by_rules constant.type_of constant.value }
{
    match constant.type_of {
        SourceType::Bit(_) => Some(Integer::from_u128(constant.value)),
        SourceType::Signed(width) => Some(Integer::from_signed(width, constant.value)),
        SourceType::BitEnumeration(_, _) => Some(Integer::from_u128(constant.value)),
        _ => None,
    }
}
