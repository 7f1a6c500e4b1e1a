//! Operators between two operands, each by the rule of its row.
ghost use Rattle.std.specs.Prelude.{◌≡◌, IfOk, OnOk, option_map};
ghost use Rattle.p4_rules.specs.Operators.{binary as binary_by_rules, binary_in as binary_in_by_rules, row_of as row_by_rules};
ghost use Rattle.p4_consts.specs.Noted.{noted, right_of};
ghost use Rattle.p4_consts.specs.Operands.{operand_of};
ghost use Rattle.p4_consts.specs.Pairs.{pair_of};
ghost use Rattle.p4_consts.specs.OperatorRows.{row_in};
ghost use Rattle.p4_consts.specs.Scopes.{scope_in};

use crate::booleans::logic;
use crate::calculations::{arithmetic, division};
use crate::comparisons::{equality, order};
use crate::concatenations::concatenation;
use crate::faults::Faults;
use crate::operands::Operand;
use crate::pairs::Pair;
use crate::scopes::Scope;
use crate::shifts::shift;
use p4_rules::Pass;
use p4_tree::Operator;
use std::alloc::{AllocError, Global};

/// The operators of one rule.
#[derive(Clone, Copy, Debug, PartialEq, Eq)]
pub enum Row {
    Arithmetic,
    Division,
    Shift,
    Concatenation,
    Order,
    Equality,
    Logic,
}

/// What an operator between two operands gives. `goes_on`: the left one is a row of operators of this level, which goes on.
pub fn binary(
    alloc: Global,
    scope: &Scope,
    pass: Pass,
    faults: &mut Faults,
    goes_on: bool,
    sign: Operator,
    pair: Pair,
) -> Result<Option<Operand>, AllocError>
    ensures value { IfOk result (λ o. option_map operand_of o ≡ right_of
        (binary_by_rules (scope_in pass scope.now) goes_on sign (pair_of pair))) }
    ensures faults { OnOk result (faults.new.first ≡ noted faults.old.first
        (binary_by_rules (scope_in pass scope.now) goes_on sign (pair_of pair))) }
{
    binary_in(
        alloc,
        scope,
        pass,
        faults,
        row_of(sign),
        goes_on,
        sign,
        pair,
    )
}

/// The rule of an operator.
fn row_of(sign: Operator) -> Row
    ensures { row_in result ≡ row_by_rules sign }
{
    match sign {
        Operator::Divide | Operator::Remainder => Row::Division,
        Operator::ShiftLeft | Operator::ShiftRight => Row::Shift,
        Operator::Concat => Row::Concatenation,
        Operator::Less | Operator::AtMost => Row::Order,
        Operator::Greater | Operator::AtLeast => Row::Order,
        Operator::Equal | Operator::NotEqual => Row::Equality,
        Operator::And | Operator::Or => Row::Logic,
        Operator::Times | Operator::Plus | Operator::Minus => Row::Arithmetic,
        Operator::SaturatingPlus | Operator::SaturatingMinus => Row::Arithmetic,
        Operator::BitAnd | Operator::BitXor | Operator::BitOr => Row::Arithmetic,
    }
}

/// What an operator gives by the rule of its row.
fn binary_in(
    alloc: Global,
    scope: &Scope,
    pass: Pass,
    faults: &mut Faults,
    row: Row,
    goes_on: bool,
    sign: Operator,
    pair: Pair,
) -> Result<Option<Operand>, AllocError>
    ensures value { IfOk result (λ o. option_map operand_of o ≡ right_of
        (binary_in_by_rules (row_in row) (scope_in pass scope.now) goes_on sign (pair_of pair))) }
    ensures faults { OnOk result (faults.new.first ≡ noted faults.old.first
        (binary_in_by_rules (row_in row) (scope_in pass scope.now) goes_on sign (pair_of pair))) }
{
    match row {
        Row::Arithmetic => arithmetic(alloc, scope, pass, faults, goes_on, sign, pair),
        Row::Division => Ok(division(pass, faults, sign, pair)),
        Row::Shift => shift(alloc, scope, pass, faults, goes_on, sign, pair),
        Row::Concatenation => concatenation(alloc, scope, faults, goes_on, sign, pair),
        Row::Order => order(alloc, scope, pass, faults, goes_on, sign, pair),
        Row::Equality => equality(alloc, scope, pass, faults, goes_on, sign, pair),
        Row::Logic => logic(alloc, scope, faults, goes_on, sign, pair),
    }
}
