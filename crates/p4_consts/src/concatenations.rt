//! `++` (P4-16, "Concatenation").
ghost use Rattle.std.specs.Prelude.{◌≡◌, ◌+◌, nat_le, IfOk, OnOk, option_map, if◌then◌else◌};
ghost use Rattle.p4_rules.specs.declared.faults.Pass.{Pass as APass};
ghost use Rattle.p4_rules.specs.Integers.{widest};
ghost use Rattle.p4_rules.specs.Operators.{concatenation as concatenation_by_rules};
ghost use Rattle.p4_consts.specs.Concatenations.{joined as joined_by_rules};
ghost use Rattle.p4_consts.specs.Noted.{noted, right_of};
ghost use Rattle.p4_consts.specs.Operands.{operand_of};
ghost use Rattle.p4_consts.specs.Pairs.{pair_of};
ghost use Rattle.p4_consts.specs.Scopes.{scope_in};

use crate::applying::applied_with;
use crate::faults::Faults;
use crate::folding::{core_operator, width_in};
use crate::operands::{Operand, type_of};
use crate::pairs::{Pair, each, with_bits};
use crate::scopes::Scope;
use crate::wanted::Wanted;
use bits_core::MAX_WIDTH;
use p4_rules::{Pass, SourceType};
use p4_tree::Operator;
use std::alloc::{AllocError, Global};
use tg_base::{Code, Span};

/// Two `bit` values, together of no more bits than a value has.
pub fn concatenation(
    alloc: Global,
    scope: &Scope,
    faults: &mut Faults,
    goes_on: bool,
    sign: Operator,
    pair: Pair,
) -> Result<Option<Operand>, AllocError>
    ensures value { (pass : APass) → IfOk result (λ o. option_map operand_of o ≡ right_of
        (concatenation_by_rules (scope_in pass scope.now) goes_on sign (pair_of pair))) }
    ensures faults { (pass : APass) → OnOk result (faults.new.first ≡ noted faults.old.first
        (concatenation_by_rules (scope_in pass scope.now) goes_on sign (pair_of pair))) }
{
    let bits = with_bits(alloc, pair)?;
    match each(faults, Wanted::Bits, bits) {
        Some(both) => joined(alloc, scope, faults, goes_on, sign, both),
        None => Ok(None),
    }
}

/// Two `bit` values in one, which is refused where it has too many bits.
fn joined(
    alloc: Global,
    scope: &Scope,
    faults: &mut Faults,
    goes_on: bool,
    sign: Operator,
    pair: Pair,
) -> Result<Option<Operand>, AllocError>
    ensures value { (pass : APass) → IfOk result (λ o. option_map operand_of o ≡ right_of
        (joined_by_rules (scope_in pass scope.now) goes_on sign (pair_of pair))) }
    ensures faults { (pass : APass) → OnOk result (faults.new.first ≡ noted faults.old.first
        (joined_by_rules (scope_in pass scope.now) goes_on sign (pair_of pair))) }
{
    let Pair { left, right, place } = pair;
    let (one, other) = (left.operand, right.operand);
    let (w, v) = (width_in(type_of(&one)), width_in(type_of(&other)));
    match width_together(w, v) {
        Some(width) => {
            let (t, o) = (SourceType::Bit(width), core_operator(sign, false));
            applied_with(alloc, scope, faults, goes_on, t, o, place, one, other)
        }
        None => {
            drop(one);
            drop(other);
            faults.note(Pass::Checking, Code::Typing, place);
            Ok(None)
        }
    }
}

/// The width of two values in one, where a value may have it.
fn width_together(w: u8, v: u8) -> Option<u8>
    ensures { result ≡ (if nat_le (w + v) widest then Some (w + v) else None) }
{
    if w <= MAX_WIDTH && v <= MAX_WIDTH - w {
        Some(w + v)
    } else {
        None
    }
}
