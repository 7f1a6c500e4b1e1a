//! What stands behind a `.` (P4-16, "Operations on enum types", "Operations on struct types", "Operations on headers").
ghost use Rattle.std.specs.Prelude.{◌≡◌, ◌||◌, codes, map, option_map, position, slice_get, IfOk, OnOk};
ghost use Rattle.std.specs.Map.{lookup};
ghost use Rattle.std.specs.Str.{bytes_eq};
ghost use Rattle.p4_rules.specs.declared.faults.Pass.TheVariants.{Checking};
ghost use Rattle.p4_rules.specs.declared.types.SourceType.TheVariants.{Enumeration};
ghost use Rattle.p4_rules.specs.Scopes.{listed};
ghost use Rattle.p4_rules.specs.Things.{member_of as member_by_rules, member_in as found_by_rules};
ghost use Rattle.p4_rules.specs.Things.{member_named as named_by_rules, type_member as type_by_rules};
ghost use Rattle.p4_rules.specs.Things.{type_apply as apply_by_rules, error_member as error_by_rules};
ghost use Rattle.p4_rules.specs.Things.{applied_member as applied_by_rules};
ghost use Rattle.p4_consts.specs.Meanings.{meaning_of};
ghost use Rattle.p4_consts.specs.Noted.{noted, right_of};
ghost use Rattle.p4_consts.specs.Scopes.{scope_in, members_of};
ghost use Rattle.p4_consts.specs.Things.{thing_of as thing_in_rules};

use crate::constants::Constant;
use crate::faults::Faults;
use crate::meanings::Meaning;
use crate::named::{is_word, named_member, thing_of};
use crate::names::Names;
use crate::operands::{Operand, type_of};
use crate::scopes::Scope;
use crate::things::Thing;
use crate::value_members::value_member;
use bits_core::Op;
use p4_program::typed::Expression;
use p4_rules::{Object, Pass, SourceType};
use p4_tree::Name;
use std::alloc::{AllocError, Global};
use tg_base::{Code, Span};

/// What stands behind a `.`.
pub fn member_of(
    alloc: Global,
    scope: &Scope,
    pass: Pass,
    faults: &mut Faults,
    thing: Thing,
    place: Span,
    name: &Name,
) -> Result<Option<Thing>, AllocError>
    ensures value { IfOk result (λ v. option_map thing_in_rules v ≡ right_of
        (member_by_rules (scope_in pass scope.now) (thing_in_rules thing) place name.now)) }
    ensures faults { OnOk result (faults.new.first ≡ noted faults.old.first
        (member_by_rules (scope_in pass scope.now) (thing_in_rules thing) place name.now)) }
{
    match thing {
        Thing::Value(operand) => {
            let t = type_of(&operand);
            value_member(alloc, scope, pass, faults, t, place, operand, name)
        }
        Thing::TypeName(t) => type_member(alloc, scope, pass, faults, t, place, name),
        Thing::Errors => {
            let found = error_number(scope, name);
            Ok(error_member(scope, pass, faults, name, found))
        }
        Thing::Named(meaning) => Ok(named_member(scope, pass, faults, meaning, name)),
        Thing::Applied(number) => applied_member(alloc, scope, pass, faults, number, place, name),
        Thing::Braced(values) => {
            drop(values);
            faults.note(Pass::Checking, Code::Unsupported, place);
            Ok(None)
        }
        other => {
            drop(other);
            faults.note(pass, Code::Name, name.span);
            Ok(None)
        }
    }
}

/// What stands behind the `.` of a type's name (P4-16, "Enumeration types").
fn type_member(
    alloc: Global,
    scope: &Scope,
    pass: Pass,
    faults: &mut Faults,
    t: SourceType,
    place: Span,
    name: &Name,
) -> Result<Option<Thing>, AllocError>
    ensures value { IfOk result (λ v. option_map thing_in_rules v
        ≡ right_of (type_by_rules (scope_in pass scope.now) t place name.now)) }
    ensures faults { OnOk result (faults.new.first
        ≡ noted faults.old.first (type_by_rules (scope_in pass scope.now) t place name.now)) }
{
    match t {
        SourceType::Enumeration(number) => {
            enumeration_member(alloc, scope, pass, faults, number, place, name)
        }
        SourceType::BitEnumeration(number, _) => {
            member_at(alloc, scope, pass, faults, number, name)
        }
        SourceType::Opaque(Object::ControlType(_)) => {
            Ok(type_apply(scope, pass, faults, place, name))
        }
        SourceType::Opaque(Object::ParserType(_)) => {
            Ok(type_apply(scope, pass, faults, place, name))
        }
        _ => {
            faults.note(pass, Code::Name, name.span);
            Ok(None)
        }
    }
}

/// A member of an enumeration without a width. The algorithms that this profile leaves out are refused at `HashAlgorithm`.
fn enumeration_member(
    alloc: Global,
    scope: &Scope,
    pass: Pass,
    faults: &mut Faults,
    number: u32,
    place: Span,
    name: &Name,
) -> Result<Option<Thing>, AllocError>
    ensures value { IfOk result (λ v. option_map thing_in_rules v ≡ right_of
        (type_by_rules (scope_in pass scope.now) (Enumeration number) place name.now)) }
    ensures faults { OnOk result (faults.new.first ≡ noted faults.old.first
        (type_by_rules (scope_in pass scope.now) (Enumeration number) place name.now)) }
{
    if number == 0 && is_left_out(name) {
        faults.note(Pass::Checking, Code::Unsupported, place);
        return Ok(None);
    }
    member_at(alloc, scope, pass, faults, number, name)
}

/// Whether an algorithm is one that this profile leaves out.
fn is_left_out(name: &Name) -> bool
    ensures { result
        ≡ bytes_eq name.now.text (codes "crc16") || bytes_eq name.now.text (codes "crc32") }
{
    is_word(name, "crc16") || is_word(name, "crc32")
}

/// A member of the enumeration with this number, where it has one of this name.
fn member_at(
    alloc: Global,
    scope: &Scope,
    pass: Pass,
    faults: &mut Faults,
    number: u32,
    name: &Name,
) -> Result<Option<Thing>, AllocError>
    ensures value { IfOk result (λ v. option_map thing_in_rules v ≡ right_of
        (found_by_rules (scope_in pass scope.now) name.now
        (named_by_rules (scope_in pass scope.now) number name.now.text))) }
    ensures faults { OnOk result (faults.new.first ≡ noted faults.old.first
        (found_by_rules (scope_in pass scope.now) name.now
        (named_by_rules (scope_in pass scope.now) number name.now.text))) }
{
    let found = member_named(scope, number, name);
    member_in(alloc, scope, pass, faults, name, found)
}

/// A member of the enumeration with this number.
fn member_named(scope: &Scope, number: u32, name: &Name) -> Option<Meaning>
    ensures { option_map meaning_of result
        ≡ named_by_rules (scope_in Checking scope.now) number name.now.text }
{
    found_among(scope.enumerations.as_slice(), number, name.text.as_slice())
}

/// A member of the enumeration with this number among all.
#[tactic(auto, using(crate::proofs::MemberLaws::no_members, crate::proofs::MemberLaws::members_at))]
fn found_among(rows: &[Names<Meaning>], number: u32, name: &[u8]) -> Option<Meaning>
    ensures { option_map meaning_of result
        ≡ lookup (λ other. bytes_eq other name.now)
        (listed (slice_get (map members_of rows.now) number)) }
{
    match rows.get(number as usize) {
        Some(members) => found_in(members, name),
        None => None,
    }
}

/// A member of an enumeration.
fn found_in(members: &Names<Meaning>, name: &[u8]) -> Option<Meaning>
    ensures { option_map meaning_of result
        ≡ lookup (λ other. bytes_eq other name.now) (members_of members.now) }
{
    members.find(name).copied()
}

/// A member that was found or not.
fn member_in(
    alloc: Global,
    scope: &Scope,
    pass: Pass,
    faults: &mut Faults,
    name: &Name,
    found: Option<Meaning>,
) -> Result<Option<Thing>, AllocError>
    ensures value { IfOk result (λ v. option_map thing_in_rules v ≡ right_of
        (found_by_rules (scope_in pass scope.now) name.now (option_map meaning_of found))) }
    ensures faults { OnOk result (faults.new.first ≡ noted faults.old.first
        (found_by_rules (scope_in pass scope.now) name.now (option_map meaning_of found))) }
{
    match found {
        Some(meaning) => thing_of(alloc, scope, pass, faults, name.span, meaning),
        None => {
            faults.note(pass, Code::Name, name.span);
            Ok(None)
        }
    }
}

/// `apply` of a control's or a parser's type, which this profile leaves out.
fn type_apply(
    scope: &Scope,
    pass: Pass,
    faults: &mut Faults,
    place: Span,
    name: &Name,
) -> Option<Thing>
    ensures value { option_map thing_in_rules result
        ≡ right_of (apply_by_rules (scope_in pass scope.now) place name.now) }
    ensures faults { faults.new.first
        ≡ noted faults.old.first (apply_by_rules (scope_in pass scope.now) place name.now) }
{
    if is_word(name, "apply") {
        faults.note(Pass::Checking, Code::Unsupported, place);
    } else {
        faults.note(pass, Code::Name, name.span);
    }
    None
}

/// The number of a member of `error`.
fn error_number(scope: &Scope, name: &Name) -> Option<u32>
    ensures { result ≡ position (λ other. bytes_eq other name.now.text)
        (scope_in Checking scope.now).errors }
{
    scope.errors.position(name.text.as_slice())
}

/// A member of `error` (P4-16, "The error type").
fn error_member(
    scope: &Scope,
    pass: Pass,
    faults: &mut Faults,
    name: &Name,
    found: Option<u32>,
) -> Option<Thing>
    ensures value { option_map thing_in_rules result
        ≡ right_of (error_by_rules (scope_in pass scope.now) name.now found) }
    ensures faults { faults.new.first
        ≡ noted faults.old.first (error_by_rules (scope_in pass scope.now) name.now found) }
{
    match found {
        Some(number) => Some(Thing::Value(Operand::Fixed(Constant {
            type_of: SourceType::Error,
            value: u128::from(number),
        }))),
        None => {
            faults.note(pass, Code::Name, name.span);
            None
        }
    }
}

/// What an application of a table tells (P4-16, "Match-action unit invocation").
fn applied_member(
    alloc: Global,
    scope: &Scope,
    pass: Pass,
    faults: &mut Faults,
    number: u32,
    place: Span,
    name: &Name,
) -> Result<Option<Thing>, AllocError>
    ensures value { IfOk result (λ v. option_map thing_in_rules v
        ≡ right_of (applied_by_rules (scope_in pass scope.now) number place name.now)) }
    ensures faults { OnOk result (faults.new.first ≡ noted faults.old.first
        (applied_by_rules (scope_in pass scope.now) number place name.now)) }
{
    if is_word(name, "hit") {
        let hit = Operand::Computed(SourceType::Boolean, Expression::Hit(number), place);
        return Ok(Some(Thing::Value(hit)));
    }
    if is_word(name, "miss") {
        let hit = Box::new(alloc, Expression::Hit(number))?;
        let miss = Expression::Unary(Op::Not, hit);
        return Ok(Some(Thing::Value(Operand::Computed(SourceType::Boolean, miss, place))));
    }
    if is_word(name, "action_run") {
        return Ok(Some(Thing::ActionRun(number)));
    }
    faults.note(pass, Code::Name, name.span);
    Ok(None)
}
