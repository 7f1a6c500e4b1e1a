//! What stands before a `.` as a name of its own: `error`, or a type's name.
ghost use Rattle.std.specs.Prelude.{◌≡◌, option_map};
ghost use Rattle.p4_rules.specs.Expressions.{base_thing as base_by_rules};
ghost use Rattle.p4_consts.specs.Noted.{noted, right_of};
ghost use Rattle.p4_consts.specs.Scopes.{scope_in};
ghost use Rattle.p4_consts.specs.Things.{thing_of};

use crate::faults::Faults;
use crate::found::{as_type, type_meaning};
use crate::named::is_word;
use crate::scopes::Scope;
use crate::things::Thing;
use p4_rules::Pass;
use p4_tree::Name;

/// `error` before a `.`, or the type of this name.
pub fn base_thing(scope: &Scope, pass: Pass, faults: &mut Faults, name: &Name) -> Option<Thing>
    ensures value { option_map thing_of result
        ≡ right_of (base_by_rules (scope_in pass scope.now) name.now) }
    ensures faults { faults.new.first
        ≡ noted faults.old.first (base_by_rules (scope_in pass scope.now) name.now) }
{
    if is_word(name, "error") {
        return Some(Thing::Errors);
    }
    let meaning = type_meaning(scope, pass, faults, name)?;
    let t = as_type(faults, name.span, meaning)?;
    Some(Thing::TypeName(t))
}
