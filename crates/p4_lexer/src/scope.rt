//! What is in force at a place of a text: the conditions that are open there, and the names that are defined.
ghost use Rattle.std.specs.Prelude.{◌≡◌, ◌&&◌, ℕ, not, Bool, List, [], IfOk, OnOk, IsTrue, is_some};
ghost use Rattle.p4_lexer.specs.Scope.{Scope, outermost, is_taken, is_defined, with_condition, turned_over, turn_innermost, end_innermost, has_turned, belongs};
ghost use Rattle.p4_lexer.specs.Cuts.{Cut};
ghost use Rattle.p4_lexer.specs.Directives.{Else as ElseDirective, EndIf as EndIfDirective};
ghost use Rattle.p4_lexer.specs.ScopeState.{condition_at, StandsFor, turned_scope, ended_scope, defined_scope, undefined_scope};

use sqlite_items::Items;
use std::alloc::{AllocError, Global};
use std::collections::HashSet;
use tg_base::Span;

/// A condition that is open.
#[derive(Clone, Copy)]
pub(crate) struct ConditionAt {
    /// Where its `#` stands.
    pub(crate) place: Span,
    /// Whether the branch at hand is taken.
    pub(crate) chosen: bool,
    /// Whether its `#else` came.
    pub(crate) turned: bool,
    /// Whether the part around it is taken.
    pub(crate) outside: bool,
}

/// What is in force at a place.
#[derive(Drop)]
pub(crate) struct ScopeAt<'a> {
    /// The innermost last.
    pub(crate) conditions: Items<ConditionAt>,
    pub(crate) taken: bool,
    pub(crate) names: HashSet<&'a [u8]>,
}

/// The other branch of a condition.
fn turned_over(condition: ConditionAt) -> ConditionAt
    ensures condition { condition_at result ≡ turned_over (condition_at condition) }
    ensures outside { result.outside ≡ condition.outside }
{
    if condition.turned {
        condition
    } else {
        ConditionAt {
            place: condition.place,
            chosen: !condition.chosen,
            turned: true,
            outside: condition.outside,
        }
    }
}

/// Whether a part is taken whose condition is in this branch, inside of a part that is taken or not.
fn is_taken_within(chosen: bool, outside: bool) -> bool
    ensures { result ≡ (chosen && outside) }
{
    chosen && outside
}

impl<'a> ScopeAt<'a> {
    pub(crate) fn new(alloc: Global) -> ScopeAt<'a>
        ensures { StandsFor result outermost }
    {
        ScopeAt {
            conditions: Items::new(alloc),
            taken: true,
            names: HashSet::new(alloc),
        }
    }

    /// Whether this name is defined.
    pub(crate) fn is_defined(&self, name: &[u8]) -> bool
        ensures { (scope : Scope) → StandsFor self.now scope → result ≡ is_defined scope name.now }
    {
        self.names.contains(name)
    }

    /// Opens a condition.
    pub(crate) fn open(&mut self, place: Span, chosen: bool) -> Result<(), AllocError>
        ensures { OnOk result ((scope : Scope) → StandsFor self.old scope
            → StandsFor self.new (with_condition scope place chosen)) }
    {
        let outside = self.taken;
        self.conditions.push(ConditionAt {
            place,
            chosen,
            turned: false,
            outside,
        })?;
        self.taken = is_taken_within(chosen, outside);
        Ok(())
    }

    /// Goes to the other branch of the innermost condition, and tells whether it had not yet.
    pub(crate) fn turn(&mut self) -> Result<bool, AllocError>
        ensures { IfOk result (λ r. (scope : Scope) → StandsFor self.old scope
            → (r ≡ belongs scope ElseDirective) × StandsFor self.new (turned_scope scope)) }
    {
        let Some(condition) = self.conditions.pop() else {
            return Ok(false);
        };
        let turned = turned_over(condition);
        self.conditions.push(turned)?;
        self.taken = is_taken_within(turned.chosen, turned.outside);
        Ok(!condition.turned)
    }

    /// Ends the innermost condition, and tells whether there was one.
    pub(crate) fn end(&mut self) -> bool
        ensures { (scope : Scope) → StandsFor self.old scope
            → (result ≡ belongs scope EndIfDirective) × StandsFor self.new (ended_scope scope) }
    {
        match self.conditions.pop() {
            Some(condition) => {
                self.taken = condition.outside;
                true
            }
            None => false,
        }
    }

    /// Defines a name.
    pub(crate) fn define(&mut self, name: &'a [u8]) -> Result<(), AllocError>
        ensures { OnOk result ((scope : Scope) (words : List Cut) → StandsFor self.old scope
            → StandsFor self.new (defined_scope scope name.now words)) }
    {
        self.names.insert(name)?;
        Ok(())
    }

    /// Lets a name be defined no longer.
    pub(crate) fn undefine(&mut self, name: &[u8])
        ensures { (scope : Scope) → StandsFor self.old scope
            → StandsFor self.new (undefined_scope scope name.now) }
    {
        self.names.remove(name);
    }
}
