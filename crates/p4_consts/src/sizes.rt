//! Widths and the sizes of stacks (P4-16, "Base types", "Header stacks"), and the types that names stand for.
ghost use Rattle.std.specs.Prelude.{◌≡◌, IfOk, OnOk, option_map};
ghost use Rattle.p4_rules.specs.Expressions.{size_within as within_by_rules, sized_number as sized_by_rules, named_number as named_by_rules};
ghost use Rattle.p4_rules.specs.Expressions.{stack_of as stack_by_rules, kept_type as kept_by_rules, named_type as type_by_rules};
ghost use Rattle.p4_consts.specs.Integers.{integer_of};
ghost use Rattle.p4_consts.specs.Noted.{noted, right_of};
ghost use Rattle.p4_consts.specs.Scopes.{scope_in};
ghost use Rattle.p4_consts.specs.Things.{judged_of};

use crate::faults::Faults;
use crate::found::{as_type, meaning_of, type_meaning};
use crate::integer::Integer;
use crate::literals::number_of;
use crate::named::thing_of;
use crate::scopes::Scope;
use crate::things::Judged;
use p4_rules::{Object, Pass, SourceType};
use p4_tree::Name;
use std::alloc::{AllocError, Global};
use tg_base::{Code, Span};

/// The greatest size of a stack.
pub const LARGEST_STACK: u8 = 16;

/// A width or a size: at least 1, else no constant for its place; more than there may be passes a limit.
#[tactic(auto, using(crate::proofs::SizeLaws::size_below, crate::proofs::SizeLaws::size_past, crate::proofs::SizeLaws::size_kept))]
fn size_within(faults: &mut Faults, most: u8, place: Span, number: Integer) -> Option<u8>
    ensures value { result ≡ right_of (within_by_rules most place (integer_of number)) }
    ensures faults { faults.new.first
        ≡ noted faults.old.first (within_by_rules most place (integer_of number)) }
{
    if number.negative || number.magnitude == 0 {
        faults.note(Pass::Folding, Code::Constant, place);
        return None;
    }
    if number.magnitude > most as u128 {
        faults.note(Pass::Checking, Code::Limit, place);
        return None;
    }
    Some(number.magnitude as u8)
}

/// The number of a size. It is refused where it stands.
pub fn sized_number(
    scope: &Scope,
    pass: Pass,
    faults: &mut Faults,
    most: u8,
    judged: Judged,
) -> Option<u8>
    ensures value { result
        ≡ right_of (sized_by_rules (scope_in pass scope.now) most (judged_of judged)) }
    ensures faults { faults.new.first
        ≡ noted faults.old.first
        (sized_by_rules (scope_in pass scope.now) most (judged_of judged)) }
{
    let place = judged.place;
    let number = number_of(scope, pass, faults, judged)?;
    size_within(faults, most, place, number)
}

/// What a name stands for where a number is wanted.
pub fn named_number(
    alloc: Global,
    scope: &Scope,
    pass: Pass,
    faults: &mut Faults,
    name: &Name,
) -> Result<Option<Judged>, AllocError>
    ensures value { IfOk result (λ v. option_map judged_of v
        ≡ right_of (named_by_rules (scope_in pass scope.now) name.now)) }
    ensures faults { OnOk result (faults.new.first
        ≡ noted faults.old.first (named_by_rules (scope_in pass scope.now) name.now)) }
{
    let place = name.span;
    match meaning_of(scope, pass, faults, name) {
        Some(meaning) => match thing_of(alloc, scope, pass, faults, place, meaning)? {
            Some(thing) => Ok(Some(Judged { thing, place })),
            None => Ok(None),
        },
        None => Ok(None),
    }
}

/// A type with a size is a stack, whose elements are headers; another is refused where the type stands in something.
pub fn stack_of(faults: &mut Faults, place: Span, t: SourceType, size: u8) -> Option<SourceType>
    ensures value { result ≡ right_of (stack_by_rules place t size) }
    ensures faults { faults.new.first ≡ noted faults.old.first (stack_by_rules place t size) }
{
    match t {
        SourceType::Header(number) => Some(SourceType::Stack(number, size)),
        _ => {
            faults.note(Pass::Checking, Code::Typing, place);
            None
        }
    }
}

/// A type that this profile keeps: a register is left out.
fn kept_type(faults: &mut Faults, place: Span, t: SourceType) -> Option<SourceType>
    ensures value { result ≡ right_of (kept_by_rules place t) }
    ensures faults { faults.new.first ≡ noted faults.old.first (kept_by_rules place t) }
{
    match t {
        SourceType::Opaque(Object::Register) => {
            faults.note(Pass::Checking, Code::Unsupported, place);
            None
        }
        other => Some(other),
    }
}

/// The type that a name stands for, where one is written.
pub fn named_type(scope: &Scope, pass: Pass, faults: &mut Faults, name: &Name) -> Option<SourceType>
    ensures value { result ≡ right_of (type_by_rules (scope_in pass scope.now) name.now) }
    ensures faults { faults.new.first
        ≡ noted faults.old.first (type_by_rules (scope_in pass scope.now) name.now) }
{
    let meaning = type_meaning(scope, pass, faults, name)?;
    let t = as_type(faults, name.span, meaning)?;
    kept_type(faults, name.span, t)
}
