//! What names stand for as expressions, and what stands behind the `.` of a name that has no value.
ghost use Rattle.std.specs.Prelude.{◌≡◌, option_map, IfOk, OnOk};
ghost use Rattle.std.specs.Str.{bytes_eq};
ghost use Rattle.p4_rules.specs.Things.{Named, thing_of as thing_by_rules};
ghost use Rattle.p4_rules.specs.Things.{method_named as method_by_rules, named_member as named_by_rules};
ghost use Rattle.p4_rules.specs.Things.{lookahead_of as lookahead_by_rules};
ghost use Rattle.p4_consts.specs.Meanings.{meaning_of as as_by_rules};
ghost use Rattle.p4_consts.specs.Noted.{noted, right_of};
ghost use Rattle.p4_consts.specs.Scopes.{scope_in};
ghost use Rattle.p4_consts.specs.Things.{thing_of as thing_in_rules, method_of};

use crate::faults::Faults;
use crate::meanings::Meaning;
use crate::operands::Operand;
use crate::paths::path_of;
use crate::scopes::Scope;
use crate::things::{Method, Thing};
use p4_rules::{Function, Object, Pass, SourceType};
use p4_tree::Name;
use std::alloc::{AllocError, Global};
use tg_base::{Code, Span};

/// What a name stands for as an expression.
pub fn thing_of(
    alloc: Global,
    scope: &Scope,
    pass: Pass,
    faults: &mut Faults,
    place: Span,
    meaning: Meaning,
) -> Result<Option<Thing>, AllocError>
    ensures value { IfOk result (λ v. option_map thing_in_rules v
        ≡ right_of (thing_by_rules (scope_in pass scope.now) place (as_by_rules meaning))) }
    ensures faults { OnOk result (faults.new.first
        ≡ noted faults.old.first
        (thing_by_rules (scope_in pass scope.now) place (as_by_rules meaning))) }
{
    match meaning {
        Meaning::IntegerOf(number) => Ok(Some(Thing::Value(Operand::Whole(number)))),
        Meaning::ConstantOf(constant) => Ok(Some(Thing::Value(Operand::Fixed(constant)))),
        Meaning::VariableOf(t, writable, root) => {
            let path = path_of(alloc, scope, t, root);
            Ok(Some(Thing::Value(Operand::Stored(t, writable, path, place))))
        }
        Meaning::FunctionOf(Function::LeftOut) => {
            faults.note(Pass::Checking, Code::Unsupported, place);
            Ok(None)
        }
        other => Ok(Some(Thing::Named(other))),
    }
}

/// Whether a name is this word.
pub(crate) fn is_word(name: &Name, word: &str) -> bool
    ensures { result ≡ bytes_eq name.now.text word.now }
{
    name.text.as_slice() == word.as_bytes()
}

/// A method by its name.
fn method_named(
    scope: &Scope,
    pass: Pass,
    faults: &mut Faults,
    name: &Name,
    own: &str,
    method: Method,
) -> Option<Thing>
    ensures value { option_map thing_in_rules result
        ≡ right_of (method_by_rules (scope_in pass scope.now) name.now own.now (method_of method)) }
    ensures faults { faults.new.first
        ≡ noted faults.old.first
        (method_by_rules (scope_in pass scope.now) name.now own.now (method_of method)) }
{
    if is_word(name, own) {
        return Some(Thing::MethodOf(method));
    }
    drop(method);
    faults.note(pass, Code::Name, name.span);
    None
}

/// The methods of externs, of a table and of an instance.
pub(crate) fn named_member(
    scope: &Scope,
    pass: Pass,
    faults: &mut Faults,
    meaning: Meaning,
    name: &Name,
) -> Option<Thing>
    ensures value { option_map thing_in_rules result
        ≡ right_of (named_by_rules (scope_in pass scope.now) (as_by_rules meaning) name.now) }
    ensures faults { faults.new.first
        ≡ noted faults.old.first
        (named_by_rules (scope_in pass scope.now) (as_by_rules meaning) name.now) }
{
    match meaning {
        Meaning::ObjectOf(object) => object_member(scope, pass, faults, object, name),
        Meaning::TableOf(number) => {
            method_named(
                scope,
                pass,
                faults,
                name,
                "apply",
                Method::ApplyTable(number),
            )
        }
        Meaning::InstanceOf(number, control) => {
            let method = Method::ApplyControl(number, control);
            method_named(scope, pass, faults, name, "apply", method)
        }
        _ => {
            faults.note(pass, Code::Name, name.span);
            None
        }
    }
}

/// The methods of externs.
fn object_member(
    scope: &Scope,
    pass: Pass,
    faults: &mut Faults,
    object: Object,
    name: &Name,
) -> Option<Thing>
    ensures value { option_map thing_in_rules result
        ≡ right_of
        (named_by_rules (scope_in pass scope.now) (as_by_rules (Meaning.ObjectOf object))
        name.now) }
    ensures faults { faults.new.first
        ≡ noted faults.old.first
        (named_by_rules (scope_in pass scope.now) (as_by_rules (Meaning.ObjectOf object))
        name.now) }
{
    match object {
        Object::PacketIn => {
            if is_word(name, "extract") {
                return Some(Thing::MethodOf(Method::Extract));
            }
            method_named(scope, pass, faults, name, "advance", Method::Advance)
        }
        Object::PacketOut => method_named(scope, pass, faults, name, "emit", Method::Emit),
        Object::Counter => method_named(scope, pass, faults, name, "count", Method::Count),
        Object::DirectCounter => {
            method_named(scope, pass, faults, name, "count", Method::CountDirect)
        }
        Object::Meter => {
            method_named(
                scope,
                pass,
                faults,
                name,
                "execute_meter",
                Method::ExecuteMeter,
            )
        }
        _ => {
            faults.note(pass, Code::Name, name.span);
            None
        }
    }
}

/// `lookahead` behind a packet that is read.
pub fn lookahead_of(
    scope: &Scope,
    pass: Pass,
    faults: &mut Faults,
    thing: Thing,
    t: SourceType,
    word: Span,
) -> Option<Thing>
    ensures value { option_map thing_in_rules result
        ≡ right_of (lookahead_by_rules (scope_in pass scope.now) (thing_in_rules thing) t word) }
    ensures faults { faults.new.first
        ≡ noted faults.old.first
        (lookahead_by_rules (scope_in pass scope.now) (thing_in_rules thing) t word) }
{
    match thing {
        Thing::Named(meaning) => lookahead_named(scope, pass, faults, meaning, t, word),
        other => {
            drop(other);
            faults.note(pass, Code::Name, word);
            None
        }
    }
}

fn lookahead_named(
    scope: &Scope,
    pass: Pass,
    faults: &mut Faults,
    meaning: Meaning,
    t: SourceType,
    word: Span,
) -> Option<Thing>
    ensures value { option_map thing_in_rules result
        ≡ right_of
        (lookahead_by_rules (scope_in pass scope.now) (Named (as_by_rules meaning)) t word) }
    ensures faults { faults.new.first
        ≡ noted faults.old.first
        (lookahead_by_rules (scope_in pass scope.now) (Named (as_by_rules meaning)) t word) }
{
    match meaning {
        Meaning::ObjectOf(Object::PacketIn) => Some(Thing::MethodOf(Method::Lookahead(t))),
        _ => {
            faults.note(pass, Code::Name, word);
            None
        }
    }
}
