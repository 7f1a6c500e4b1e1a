//! What names stand for where they are used (P4-16, "Name resolution").
ghost use Rattle.std.specs.Prelude.{◌≡◌, ◌==◌, map, reverse, option_map};
ghost use Rattle.p4_rules.specs.Chains.{depth_in};
ghost use Rattle.p4_rules.specs.declared.faults.Pass.TheVariants.{Checking};
ghost use Rattle.p4_rules.specs.Scopes.{found_in as found_by_rules, found_within as found_within_by_rules};
ghost use Rattle.p4_rules.specs.Scopes.{declared_or as declared_by_rules, meaning_of as meaning_by_rules};
ghost use Rattle.p4_rules.specs.Scopes.{type_meaning as type_meaning_by_rules, as_type as type_by_rules};
ghost use Rattle.p4_rules.specs.Scopes.{once as once_by_rules, shapes_of as shapes_by_rules};
ghost use Rattle.p4_consts.specs.Noted.{noted, right_of};
ghost use Rattle.p4_consts.specs.Meanings.{meaning_of as as_by_rules, told_meaning};
ghost use Rattle.p4_consts.specs.Scopes.{scope_in, told_names};

use crate::faults::Faults;
use crate::meanings::Meaning;
use crate::names::Names;
use crate::numbered::Numbered;
use crate::scopes::Scope;
use p4_rules::{Fault, ParameterShape, Pass, SourceType};
use p4_tree::Name;
use tg_base::{Code, Span};

/// What a name stands for where a value may stand.
pub fn meaning_of(scope: &Scope, pass: Pass, faults: &mut Faults, name: &Name) -> Option<Meaning>
    ensures value { option_map as_by_rules result
        ≡ right_of (meaning_by_rules (scope_in pass scope.now) name.now) }
    ensures faults { faults.new.first
        ≡ noted faults.old.first (meaning_by_rules (scope_in pass scope.now) name.now) }
{
    let text = name.text.as_slice();
    match found_within(scope.inner.as_slice(), text) {
        Some(found) => declared_or(faults, pass, name.span, Some(found)),
        None => declared_or(faults, pass, name.span, found_in(&scope.top, text)),
    }
}

/// What a type's name stands for.
pub fn type_meaning(scope: &Scope, pass: Pass, faults: &mut Faults, name: &Name) -> Option<Meaning>
    ensures value { option_map as_by_rules result
        ≡ right_of (type_meaning_by_rules (scope_in pass scope.now) name.now) }
    ensures faults { faults.new.first
        ≡ noted faults.old.first (type_meaning_by_rules (scope_in pass scope.now) name.now) }
{
    let found = found_in(&scope.top, name.text.as_slice());
    declared_or(faults, Pass::Checking, name.span, found)
}

/// The type that a name stands for.
pub fn as_type(faults: &mut Faults, place: Span, meaning: Meaning) -> Option<SourceType>
    ensures value { result ≡ right_of (type_by_rules place (as_by_rules meaning)) }
    ensures faults { faults.new.first
        ≡ noted faults.old.first (type_by_rules place (as_by_rules meaning)) }
{
    match meaning {
        Meaning::TypeOf(t) => Some(t),
        _ => {
            faults.note(Pass::Checking, Code::Typing, place);
            None
        }
    }
}

/// Whether a name is declared here for the first time.
pub fn once(faults: &mut Faults, names: &Names<Result<Meaning, Fault>>, name: &Name) -> Option<()>
    ensures value { result ≡ right_of (once_by_rules (told_names names.now) name.now) }
    ensures faults { faults.new.first
        ≡ noted faults.old.first (once_by_rules (told_names names.now) name.now) }
{
    match found_in(names, name.text.as_slice()) {
        Some(_) => {
            faults.note(Pass::Checking, Code::Name, name.span);
            None
        }
        None => Some(()),
    }
}

/// What a name stands for in one scope.
#[tactic(auto, using(crate::proofs::ScopeLaws::told_lookup))]
fn found_in(names: &Names<Result<Meaning, Fault>>, name: &[u8]) -> Option<Result<Meaning, Fault>>
    ensures { option_map told_meaning result ≡ found_by_rules (told_names names.now) name.now }
{
    names.find(name).copied()
}

/// What a name stands for in the innermost of these scopes that has it.
#[tactic(auto, using(crate::proofs::ScopeLaws::within_pushed))]
fn found_within(
    inner: &[Names<Result<Meaning, Fault>>],
    name: &[u8],
) -> Option<Result<Meaning, Fault>>
    ensures { option_map told_meaning result
        ≡ found_within_by_rules (reverse (map told_names inner.now)) name.now }
{
    let mut left = inner;
    while let Some((names, outer)) = left.split_last() {
        if let Some(found) = found_in(names, name) {
            return Some(found);
        }
        left = outer;
    }
    None
}

/// What a name stands for that was found or not.
fn declared_or(
    faults: &mut Faults,
    pass: Pass,
    place: Span,
    found: Option<Result<Meaning, Fault>>,
) -> Option<Meaning>
    ensures value { option_map as_by_rules result
        ≡ right_of (declared_by_rules pass place (option_map told_meaning found)) }
    ensures faults { faults.new.first
        ≡ noted faults.old.first (declared_by_rules pass place (option_map told_meaning found)) }
{
    match found {
        Some(Ok(meaning)) => Some(meaning),
        Some(Err(fault)) => {
            faults.note(fault.pass, fault.code, fault.place);
            None
        }
        None => {
            faults.note(pass, Code::Name, place);
            None
        }
    }
}

/// The parameters of a callable.
pub fn shapes_of(scope: &Scope, number: u32) -> &[ParameterShape]
    ensures { result.now ≡ shapes_by_rules (scope_in Checking scope.now) number }
{
    match scope.shapes.find(number) {
        Some(shapes) => shapes.as_slice(),
        None => &[],
    }
}

/// The length of the longest chain of calls below what has this number.
pub fn depth_of(known: &Numbered<u32>, number: u32) -> u32
    ensures { result ≡ depth_in known.now number }
{
    match known.find(number) {
        Some(depth) => *depth,
        None => 0,
    }
}
