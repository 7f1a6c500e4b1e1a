//! How a scope changes where something is declared, or begins or ends (P4-16, "Scoping").
ghost use Rattle.std.specs.Prelude.{◌≡◌, OnOk, OnErr};
ghost use Rattle.p4_rules.specs.Faults.{Right, of_told};
ghost use Rattle.p4_rules.specs.Scopes.{within as within_by_rules, with_name as named_by_rules};
ghost use Rattle.p4_rules.specs.Scopes.{with_top_name as top_named_by_rules, more_shapes};
ghost use Rattle.p4_rules.specs.Scopes.{with_callable_depth as callable_by_rules};
ghost use Rattle.p4_rules.specs.Scopes.{with_table_depth as table_by_rules, with_child_depth as child_by_rules};
ghost use Rattle.p4_consts.specs.Meanings.{told_meaning};
ghost use Rattle.p4_consts.specs.Scopes.{scope_in, left};

use crate::meanings::Meaning;
use crate::names::Names;
use crate::scopes::Scope;
use p4_rules::{Fault, ParameterShape, Pass};
use sqlite_items::Items;
use std::alloc::{AllocError, Global};

/// A new scope within.
#[tactic(auto, using(crate::proofs::ScopeLaws::reverse_pushed))]
pub fn within(alloc: Global, scope: &mut Scope) -> Result<(), AllocError>
    ensures ok { (pass : Pass) → OnOk result
        (scope_in pass scope.new ≡ within_by_rules (scope_in pass scope.old)) }
{
    scope.inner.push(Names::new(alloc))?;
    Ok(())
}

/// The scope around the innermost one.
#[tactic(auto, using(crate::proofs::ScopeLaws::reverse_pushed))]
pub fn leave(scope: &mut Scope)
    ensures { (pass : Pass) → scope_in pass scope.new ≡ left (scope_in pass scope.old) }
{
    scope.inner.pop();
}

/// One more name in the innermost scope, with what it stands for or the first fault of its declaration. A name that is there
/// already stays as it is.
pub fn with_name(
    alloc: Global,
    scope: &mut Scope,
    name: &[u8],
    meaning: Result<Meaning, Fault>,
) -> Result<(), AllocError>
    ensures ok { (pass : Pass) → OnOk result (scope_in pass scope.new
        ≡ named_by_rules (scope_in pass scope.old) name.now (of_told (told_meaning meaning))) }
{
    let Some(mut innermost) = scope.inner.pop() else {
        return Ok(());
    };
    innermost.declare(alloc, name, meaning)?;
    scope.inner.push(innermost)?;
    Ok(())
}

/// One more name at the top.
pub fn with_top_name(
    alloc: Global,
    scope: &mut Scope,
    name: &[u8],
    meaning: Result<Meaning, Fault>,
) -> Result<(), AllocError>
    ensures ok { (pass : Pass) → OnOk result (scope_in pass scope.new
        ≡ top_named_by_rules (scope_in pass scope.old) name.now (of_told (told_meaning meaning))) }
    ensures err { OnErr result (scope.new ≡ scope.old) }
{
    scope.top.declare(alloc, name, meaning)
}

/// The parameters of a callable.
pub fn with_shapes(
    scope: &mut Scope,
    number: u32,
    shapes: Items<ParameterShape>,
) -> Result<(), AllocError>
    ensures ok { (pass : Pass) → OnOk result (scope_in pass scope.new
        ≡ more_shapes number (Right shapes) (scope_in pass scope.old)) }
    ensures err { OnErr result (scope.new ≡ scope.old) }
{
    scope.shapes.add(number, shapes)
}

/// The chains of calls below a callable.
pub fn with_callable_depth(scope: &mut Scope, number: u32, depth: u32) -> Result<(), AllocError>
    ensures ok { (pass : Pass) → OnOk result (scope_in pass scope.new
        ≡ callable_by_rules number depth (scope_in pass scope.old)) }
    ensures err { OnErr result (scope.new ≡ scope.old) }
{
    scope.depths.callables.add(number, depth)
}

/// The chains of calls below a table of the control.
pub fn with_table_depth(scope: &mut Scope, number: u32, depth: u32) -> Result<(), AllocError>
    ensures ok { (pass : Pass) → OnOk result (scope_in pass scope.new
        ≡ table_by_rules number depth (scope_in pass scope.old)) }
    ensures err { OnErr result (scope.new ≡ scope.old) }
{
    scope.depths.tables.add(number, depth)
}

/// The chains of calls below an instance of the control.
pub fn with_child_depth(scope: &mut Scope, number: u32, depth: u32) -> Result<(), AllocError>
    ensures ok { (pass : Pass) → OnOk result (scope_in pass scope.new
        ≡ child_by_rules number depth (scope_in pass scope.old)) }
    ensures err { OnErr result (scope.new ≡ scope.old) }
{
    scope.depths.children.add(number, depth)
}
