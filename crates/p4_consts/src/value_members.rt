//! What stands behind the `.` of a value: fields, and the methods and elements of headers and stacks.
ghost use Rattle.std.specs.Prelude.{◌≡◌, map, option_map, slice_get, IfOk, OnOk};
ghost use Rattle.p4_rules.specs.declared.types.SourceType.TheVariants.{Structure, Header};
ghost use Rattle.p4_rules.specs.Scopes.{listed};
ghost use Rattle.p4_rules.specs.Things.{field_in as field_by_rules, header_method as header_by_rules};
ghost use Rattle.p4_rules.specs.Things.{next_of as next_by_rules, last_of as last_by_rules};
ghost use Rattle.p4_rules.specs.Things.{stack_member as stack_by_rules, value_member as value_by_rules};
ghost use Rattle.p4_consts.specs.Noted.{noted, right_of};
ghost use Rattle.p4_consts.specs.Operands.{operand_of};
ghost use Rattle.p4_consts.specs.Scopes.{scope_in, fields_of};
ghost use Rattle.p4_consts.specs.Things.{thing_of};

use crate::faults::Faults;
use crate::named::is_word;
use crate::names::Names;
use crate::operands::Operand;
use crate::paths::{step_from, step_on, value_type};
use crate::scopes::Scope;
use crate::things::{Method, Thing};
use p4_program::typed::Step;
use p4_rules::{Here, Pass, SourceType};
use p4_tree::Name;
use std::alloc::{AllocError, Global};
use tg_base::{Code, Span};

/// What stands behind the `.` of a value, by its type.
pub(crate) fn value_member(
    alloc: Global,
    scope: &Scope,
    pass: Pass,
    faults: &mut Faults,
    t: SourceType,
    place: Span,
    operand: Operand,
    name: &Name,
) -> Result<Option<Thing>, AllocError>
    ensures value { IfOk result (λ v. option_map thing_of v ≡ right_of
        (value_by_rules (scope_in pass scope.now) t place (operand_of operand) name.now)) }
    ensures faults { OnOk result (faults.new.first ≡ noted faults.old.first
        (value_by_rules (scope_in pass scope.now) t place (operand_of operand) name.now)) }
{
    match t {
        SourceType::Structure(number) => {
            struct_member(alloc, scope, pass, faults, number, place, operand, name)
        }
        SourceType::Header(number) => {
            header_member(alloc, scope, pass, faults, number, place, operand, name)
        }
        SourceType::Stack(number, _) => {
            stack_member(alloc, scope, pass, faults, number, place, operand, name)
        }
        _ => {
            drop(operand);
            faults.note(pass, Code::Name, name.span);
            Ok(None)
        }
    }
}

/// A field of a struct (P4-16, "Operations on struct types").
fn struct_member(
    alloc: Global,
    scope: &Scope,
    pass: Pass,
    faults: &mut Faults,
    number: u32,
    place: Span,
    operand: Operand,
    name: &Name,
) -> Result<Option<Thing>, AllocError>
    ensures value { IfOk result (λ v. option_map thing_of v ≡ right_of (value_by_rules
        (scope_in pass scope.now) (Structure number) place (operand_of operand) name.now)) }
    ensures faults { OnOk result (faults.new.first ≡ noted faults.old.first (value_by_rules
        (scope_in pass scope.now) (Structure number) place (operand_of operand) name.now)) }
{
    match field_in(scope.structs.as_slice(), number, name.text.as_slice()) {
        Some((field, t)) => {
            let part = step_from(alloc, scope, pass, Step::Field(field), t, operand)?;
            Ok(Some(Thing::Value(part)))
        }
        None => {
            drop(operand);
            faults.note(pass, Code::Name, name.span);
            Ok(None)
        }
    }
}

/// A field or a method of a header (P4-16, "Operations on headers").
fn header_member(
    alloc: Global,
    scope: &Scope,
    pass: Pass,
    faults: &mut Faults,
    number: u32,
    place: Span,
    operand: Operand,
    name: &Name,
) -> Result<Option<Thing>, AllocError>
    ensures value { IfOk result (λ v. option_map thing_of v ≡ right_of (value_by_rules
        (scope_in pass scope.now) (Header number) place (operand_of operand) name.now)) }
    ensures faults { OnOk result (faults.new.first ≡ noted faults.old.first (value_by_rules
        (scope_in pass scope.now) (Header number) place (operand_of operand) name.now)) }
{
    match field_in(scope.headers.as_slice(), number, name.text.as_slice()) {
        Some((field, t)) => {
            let part = step_from(alloc, scope, pass, Step::Field(field), t, operand)?;
            Ok(Some(Thing::Value(part)))
        }
        None => Ok(header_method(scope, pass, faults, operand, name)),
    }
}

/// The place and the type of a field of the struct or header with this number.
#[tactic(auto, using(crate::proofs::MemberLaws::no_fields, crate::proofs::MemberLaws::fields_at))]
fn field_in(rows: &[Names<SourceType>], number: u32, name: &[u8]) -> Option<(u32, SourceType)>
    ensures { result
        ≡ field_by_rules (listed (slice_get (map fields_of rows.now) number)) name.now }
{
    match rows.get(number as usize) {
        Some(fields) => field_of(fields, name),
        None => None,
    }
}

/// The place and the type of a field.
#[tactic(auto, using(crate::proofs::MemberLaws::no_field, crate::proofs::MemberLaws::field_at))]
fn field_of(fields: &Names<SourceType>, name: &[u8]) -> Option<(u32, SourceType)>
    ensures { result ≡ field_by_rules (fields_of fields.now) name.now }
{
    let place = fields.position(name)?;
    let t = fields.at(place)?;
    Some((place, *t))
}

/// The methods of a header (P4-16, "Operations on headers").
fn header_method(
    scope: &Scope,
    pass: Pass,
    faults: &mut Faults,
    operand: Operand,
    name: &Name,
) -> Option<Thing>
    ensures value { option_map thing_of result ≡ right_of
        (header_by_rules (scope_in pass scope.now) (operand_of operand) name.now) }
    ensures faults { faults.new.first ≡ noted faults.old.first
        (header_by_rules (scope_in pass scope.now) (operand_of operand) name.now) }
{
    if is_word(name, "isValid") {
        return Some(Thing::MethodOf(Method::IsValid(operand)));
    }
    if is_word(name, "setValid") {
        return Some(Thing::MethodOf(Method::SetValid(operand)));
    }
    if is_word(name, "setInvalid") {
        return Some(Thing::MethodOf(Method::SetInvalid(operand)));
    }
    drop(operand);
    faults.note(pass, Code::Name, name.span);
    None
}

/// The elements and methods of a stack (P4-16, "Operations on header stacks").
fn stack_member(
    alloc: Global,
    scope: &Scope,
    pass: Pass,
    faults: &mut Faults,
    number: u32,
    place: Span,
    operand: Operand,
    name: &Name,
) -> Result<Option<Thing>, AllocError>
    ensures value { IfOk result (λ v. option_map thing_of v ≡ right_of
        (stack_by_rules (scope_in pass scope.now) number place (operand_of operand) name.now)) }
    ensures faults { OnOk result (faults.new.first ≡ noted faults.old.first
        (stack_by_rules (scope_in pass scope.now) number place (operand_of operand) name.now)) }
{
    if is_word(name, "next") {
        return next_of(scope, pass, faults, number, place, operand);
    }
    if is_word(name, "last") {
        return last_of(alloc, scope, pass, faults, number, place, operand);
    }
    if is_word(name, "push_front") {
        return Ok(Some(Thing::MethodOf(Method::PushFront(operand))));
    }
    if is_word(name, "pop_front") {
        return Ok(Some(Thing::MethodOf(Method::PopFront(operand))));
    }
    drop(operand);
    if is_word(name, "lastIndex") {
        faults.note(Pass::Checking, Code::Unsupported, place);
    } else {
        faults.note(pass, Code::Name, name.span);
    }
    Ok(None)
}

/// The element of a stack that is filled next.
fn next_of(
    scope: &Scope,
    pass: Pass,
    faults: &mut Faults,
    number: u32,
    place: Span,
    operand: Operand,
) -> Result<Option<Thing>, AllocError>
    ensures value { IfOk result (λ v. option_map thing_of v ≡ right_of
        (next_by_rules (scope_in pass scope.now) number place (operand_of operand))) }
    ensures faults { OnOk result (faults.new.first ≡ noted faults.old.first
        (next_by_rules (scope_in pass scope.now) number place (operand_of operand))) }
{
    match operand {
        Operand::Stored(_, writable, path, _) => {
            let header = SourceType::Header(number);
            let path = step_on(Step::Next, value_type(scope, header), path)?;
            Ok(Some(Thing::NextOf(header, writable, path)))
        }
        other => {
            drop(other);
            faults.note(Pass::Checking, Code::Typing, place);
            Ok(None)
        }
    }
}

/// The element of a stack that was filled last, in a parser alone.
fn last_of(
    alloc: Global,
    scope: &Scope,
    pass: Pass,
    faults: &mut Faults,
    number: u32,
    place: Span,
    operand: Operand,
) -> Result<Option<Thing>, AllocError>
    ensures value { IfOk result (λ v. option_map thing_of v ≡ right_of
        (last_by_rules (scope_in pass scope.now) number place (operand_of operand))) }
    ensures faults { OnOk result (faults.new.first ≡ noted faults.old.first
        (last_by_rules (scope_in pass scope.now) number place (operand_of operand))) }
{
    if scope.here != Here::InParser {
        drop(operand);
        faults.note(Pass::Checking, Code::Typing, place);
        return Ok(None);
    }
    let header = SourceType::Header(number);
    let part = step_from(alloc, scope, pass, Step::Last, header, operand)?;
    Ok(Some(Thing::Value(part)))
}
