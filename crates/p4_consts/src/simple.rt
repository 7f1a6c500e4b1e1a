//! What expressions of one token stand for.
ghost use Rattle.std.specs.Prelude.{◌≡◌, ℕ, List, option_map, IfOk, OnOk};
ghost use Rattle.p4_tree.specs.declared.expressions.ExpressionKind.TheVariants.{Text as TextKind, Bool, Name as NameKind, Base};
ghost use Rattle.p4_rules.specs.Expressions.{judged as judged_by_rules};
ghost use Rattle.p4_rules.specs.declared.faults.Pass.{Pass as APass};
ghost use Rattle.p4_consts.specs.Noted.{noted, right_of};
ghost use Rattle.p4_consts.specs.Scopes.{scope_in};
ghost use Rattle.p4_consts.specs.declared.scopes.Scope.{Scope as AScope};
ghost use Rattle.p4_consts.specs.Things.{judged_of};
ghost use Rattle.p4_rules.specs.Faults.{Right};

use crate::base::base_thing;
use crate::constants::Constant;
use crate::faults::Faults;
use crate::found::meaning_of;
use crate::named::thing_of;
use crate::operands::Operand;
use crate::scopes::Scope;
use crate::things::{Judged, Thing};
use p4_rules::{Pass, SourceType};
use p4_tree::Name;
use std::alloc::{AllocError, Global};
use tg_base::Span;

/// A string.
pub(crate) fn text_at(place: Span) -> Judged
    ensures { (pass : APass) (scope : AScope) (text : List ℕ) →
        judged_by_rules (scope_in pass scope) (TextKind text) place ≡ Right (judged_of result) }
{
    Judged {
        thing: Thing::Text,
        place,
    }
}

/// `true` or `false`.
pub(crate) fn truth_at(place: Span, bit: bool) -> Judged
    ensures { (pass : APass) (scope : AScope) →
        judged_by_rules (scope_in pass scope) (Bool bit) place ≡ Right (judged_of result) }
{
    let value = if bit { 1 } else { 0 };
    let constant = Constant {
        type_of: SourceType::Boolean,
        value,
    };
    let thing = Thing::Value(Operand::Fixed(constant));
    Judged { thing, place }
}

/// What a name stands for where it is an expression.
pub(crate) fn name_at(
    alloc: Global,
    scope: &Scope,
    pass: Pass,
    faults: &mut Faults,
    place: Span,
    name: &Name,
) -> Result<Option<Judged>, AllocError>
    ensures value { IfOk result (λ v. option_map judged_of v
        ≡ right_of (judged_by_rules (scope_in pass scope.now) (NameKind name.now) place)) }
    ensures faults { OnOk result (faults.new.first ≡ noted faults.old.first
        (judged_by_rules (scope_in pass scope.now) (NameKind name.now) place)) }
{
    let Some(meaning) = meaning_of(scope, pass, faults, name) else {
        return Ok(None);
    };
    let Some(thing) = thing_of(alloc, scope, pass, faults, name.span, meaning)? else {
        return Ok(None);
    };
    Ok(Some(Judged { thing, place }))
}

/// The name of a type, or `error`, before a `.`.
pub(crate) fn base_at(
    scope: &Scope,
    pass: Pass,
    faults: &mut Faults,
    place: Span,
    name: &Name,
) -> Option<Judged>
    ensures value { option_map judged_of result
        ≡ right_of (judged_by_rules (scope_in pass scope.now) (Base name.now) place) }
    ensures faults { faults.new.first ≡ noted faults.old.first
        (judged_by_rules (scope_in pass scope.now) (Base name.now) place) }
{
    let thing = base_thing(scope, pass, faults, name)?;
    Some(Judged { thing, place })
}
