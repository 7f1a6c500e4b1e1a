//! Elements of stacks (P4-16, "Operations on header stacks").
ghost use Rattle.std.specs.Prelude.{◌≡◌, ◌<◌, ℤ, is_some, IfSome, IfOk, OnOk, option_map, unsigned_abs};
ghost use Rattle.p4_rules.specs.Expressions.{is_bit_place as is_place_by_rules, element_at as element_by_rules};
ghost use Rattle.p4_rules.specs.Expressions.{run_time_index as run_time_by_rules, index_in as index_by_rules};
ghost use Rattle.p4_rules.specs.Expressions.{indexed_in as indexed_in_by_rules, indexed as indexed_by_rules};
ghost use Rattle.p4_rules.specs.Operands.{constant_number as number_by_rules};
ghost use Rattle.p4_consts.specs.Integers.{integer_of};
ghost use Rattle.p4_consts.specs.Noted.{noted, right_of};
ghost use Rattle.p4_consts.specs.Operands.{operand_of, placed_of};
ghost use Rattle.p4_consts.specs.Scopes.{scope_in};
ghost use Rattle.p4_consts.specs.Things.{thing_of, judged_of};

use crate::faults::Faults;
use crate::integer::Integer;
use crate::operands::{Operand, Placed, constant_number, type_of};
use crate::paths::step_from;
use crate::scopes::Scope;
use crate::things::{Judged, Thing};
use crate::values::value_of;
use crate::wanted::is_number;
use p4_program::typed::Step;
use p4_rules::{Pass, SourceType};
use std::alloc::{AllocError, Global};
use tg_base::{Code, Span};

/// The element of a stack at an index.
#[tactic(auto, using(crate::proofs::NotedLaws::with_both_right, crate::proofs::NotedLaws::with_both_first, crate::proofs::NotedLaws::with_both_second, crate::proofs::NotedLaws::with_both_noted))]
pub fn indexed(
    alloc: Global,
    scope: &Scope,
    pass: Pass,
    faults: &mut Faults,
    whole: Span,
    head: Judged,
    index: Judged,
) -> Result<Option<Thing>, AllocError>
    ensures value { IfOk result (λ v. option_map thing_of v
        ≡ right_of (indexed_by_rules (scope_in pass scope.now) whole
        (judged_of head) (judged_of index))) }
    ensures faults { OnOk result (faults.new.first ≡ noted faults.old.first
        (indexed_by_rules (scope_in pass scope.now) whole (judged_of head) (judged_of index))) }
{
    let stack = value_of(faults, head);
    let number = value_of(faults, index);
    let Some(placed) = stack else {
        drop(number);
        return Ok(None);
    };
    let Some(at) = number else {
        drop(placed);
        return Ok(None);
    };
    let t = type_of(&placed.operand);
    indexed_in(alloc, scope, pass, faults, t, whole, placed, at)
}

/// The element of a value of this type, which is to be a stack.
fn indexed_in(
    alloc: Global,
    scope: &Scope,
    pass: Pass,
    faults: &mut Faults,
    t: SourceType,
    whole: Span,
    placed: Placed,
    index: Placed,
) -> Result<Option<Thing>, AllocError>
    ensures value { IfOk result (λ v. option_map thing_of v
        ≡ right_of (indexed_in_by_rules (scope_in pass scope.now) t whole
        (placed_of placed) (placed_of index))) }
    ensures faults { OnOk result (faults.new.first ≡ noted faults.old.first
        (indexed_in_by_rules (scope_in pass scope.now) t whole
        (placed_of placed) (placed_of index))) }
{
    let Placed { operand, place } = placed;
    match t {
        SourceType::Stack(header, size) => index_in(
            alloc, scope, pass, faults, header, size, operand, whole, index,
        ),
        _ => {
            drop(operand);
            drop(index);
            faults.note(Pass::Checking, Code::Typing, place);
            Ok(None)
        }
    }
}

/// The element of a stack of headers at an index, which is to be a constant.
fn index_in(
    alloc: Global,
    scope: &Scope,
    pass: Pass,
    faults: &mut Faults,
    header: u32,
    size: u8,
    operand: Operand,
    whole: Span,
    index: Placed,
) -> Result<Option<Thing>, AllocError>
    ensures value { IfOk result (λ v. option_map thing_of v
        ≡ right_of (index_by_rules (scope_in pass scope.now) header size (operand_of operand)
        whole (placed_of index) (number_by_rules (operand_of index.operand)))) }
    ensures faults { OnOk result (faults.new.first ≡ noted faults.old.first
        (index_by_rules (scope_in pass scope.now) header size (operand_of operand)
        whole (placed_of index) (number_by_rules (operand_of index.operand)))) }
{
    let Placed { operand: at, place } = index;
    match constant_number(&at) {
        Some(number) => {
            drop(at);
            element_at(
                alloc, scope, pass, faults, header, size, operand, place, number,
            )
        }
        None => {
            drop(operand);
            run_time_index(faults, whole, place, &at);
            drop(at);
            Ok(None)
        }
    }
}

/// The element of a stack at a constant index, where the stack has it.
fn element_at(
    alloc: Global,
    scope: &Scope,
    pass: Pass,
    faults: &mut Faults,
    header: u32,
    size: u8,
    operand: Operand,
    place: Span,
    number: Integer,
) -> Result<Option<Thing>, AllocError>
    ensures value { IfOk result (λ v. option_map thing_of v
        ≡ right_of (element_by_rules (scope_in pass scope.now) header size (operand_of operand)
        place (integer_of number))) }
    ensures faults { OnOk result (faults.new.first ≡ noted faults.old.first
        (element_by_rules (scope_in pass scope.now) header size (operand_of operand)
        place (integer_of number))) }
{
    let Some(at) = place_among(size, number) else {
        drop(operand);
        faults.note(Pass::Checking, Code::Typing, place);
        return Ok(None);
    };
    let (step, t) = (Step::Element(at), SourceType::Header(header));
    let element = step_from(alloc, scope, pass, step, t, operand)?;
    Ok(Some(Thing::Value(element)))
}

/// The place of this number among so many, where there is one.
#[tactic(auto, using(crate::proofs::PlaceLaws::place_below, crate::proofs::PlaceLaws::place_past, crate::proofs::PlaceLaws::place_kept, crate::proofs::ArithmeticLaws::abs_signed))]
pub(crate) fn place_among(count: u8, number: Integer) -> Option<u8>
    ensures some { is_some result ≡ is_place_by_rules count (integer_of number) }
    ensures place { IfSome result (λ place. place ≡ unsigned_abs (integer_of number)) }
    ensures within { IfSome result (λ place. place < count) }
{
    if number.is_negative() || number.magnitude >= count as u128 {
        return None;
    }
    Some(number.magnitude as u8)
}

/// An index that a run computes is left out, and what is no number is no index.
fn run_time_index(faults: &mut Faults, whole: Span, place: Span, operand: &Operand)
    ensures { faults.new.first
        ≡ noted faults.old.first (run_time_by_rules whole place (operand_of operand.now)) }
{
    match operand {
        Operand::Fixed(_) => faults.note(Pass::Checking, Code::Typing, place),
        other => {
            if is_number(other) {
                faults.note(Pass::Checking, Code::Unsupported, whole);
            } else {
                faults.note(Pass::Checking, Code::Typing, place);
            }
        }
    }
}
