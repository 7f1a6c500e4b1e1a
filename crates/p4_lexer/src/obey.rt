//! What directives do: they open, turn and end conditions, and change the macros.
ghost use Rattle.std.specs.Prelude.{◌≤◌, IfOk, OnOk, All, true, map, drop, length};
ghost use Rattle.p4_lexer.specs.Directives.{Define as DefineDirective, Undefine as UndefineDirective};
ghost use Rattle.p4_lexer.specs.Scope.{Scope};
ghost use Rattle.p4_lexer.specs.ScopeState.{StandsFor};
ghost use Rattle.p4_lexer.specs.Extents.{bytes_at, cut_at, IsIn};
ghost use Rattle.p4_lexer.specs.DirectiveExtents.{IsPieceAt, DirectiveFits, directive_at};
ghost use Rattle.p4_lexer.specs.PartSteps.{Obeys};

use crate::directives::DirectiveAt;
use crate::extents::{Event, Extent, PieceAt, bytes_of};
use crate::scope::ScopeAt;
use sqlite_items::Items;
use std::alloc::{AllocError, Global};
use tg_base::Span;

/// Defines a name in a part that is taken.
fn define<'a>(
    scope: &mut ScopeAt<'a>,
    events: &mut Items<Event>,
    alloc: Global,
    text: &'a [u8],
    name: Extent,
    words: &[PieceAt],
) -> Result<(), AllocError>
    requires name { IsIn text.now name }
    requires words { All (IsPieceAt text.now) words.now }
    ensures { OnOk result ((in_force : Scope) (place : Span) → StandsFor scope.old in_force
        → Obeys text.now in_force place
        (DefineDirective (bytes_at text.now name) (map (cut_at text.now) words.now))
        scope.new events.old events.new true) }
{
    if !scope.taken {
        return Ok(());
    }
    scope.define(bytes_of(text, name))?;
    events.push(Event::Define(name, Items::from_slice(alloc, words)?))?;
    Ok(())
}

/// Lets a name be defined no longer, in a part that is taken.
fn undefine<'a>(
    scope: &mut ScopeAt<'a>,
    events: &mut Items<Event>,
    text: &'a [u8],
    name: Extent,
) -> Result<(), AllocError>
    requires { IsIn text.now name }
    ensures { OnOk result ((in_force : Scope) (place : Span) → StandsFor scope.old in_force
        → Obeys text.now in_force place (UndefineDirective (bytes_at text.now name))
        scope.new events.old events.new true) }
{
    if !scope.taken {
        return Ok(());
    }
    scope.undefine(bytes_of(text, name));
    events.push(Event::Undefine(name))?;
    Ok(())
}

/// Does what the directive says, and tells whether it belongs to a condition, if it is an `#else` or an `#endif`.
pub(crate) fn obey<'a>(
    scope: &mut ScopeAt<'a>,
    events: &mut Items<Event>,
    alloc: Global,
    text: &'a [u8],
    place: Span,
    pieces: &[PieceAt],
    directive: DirectiveAt,
) -> Result<bool, AllocError>
    requires pieces { All (IsPieceAt text.now) pieces.now }
    requires fits { DirectiveFits text.now pieces.now directive }
    ensures { IfOk result (λ answer. (in_force : Scope) → StandsFor scope.old in_force
        → Obeys text.now in_force place (directive_at text.now pieces.now directive)
        scope.new events.old events.new answer) }
{
    match directive {
        DirectiveAt::Include => Ok(true),
        DirectiveAt::Define(name, first) => {
            define(scope, events, alloc, text, name, &pieces[first..])?;
            Ok(true)
        }
        DirectiveAt::Undefine(name) => {
            undefine(scope, events, text, name)?;
            Ok(true)
        }
        DirectiveAt::IfDefined(name) => {
            let defined = scope.is_defined(bytes_of(text, name));
            scope.open(place, defined)?;
            Ok(true)
        }
        DirectiveAt::IfNotDefined(name) => {
            let defined = scope.is_defined(bytes_of(text, name));
            scope.open(place, !defined)?;
            Ok(true)
        }
        DirectiveAt::Else => scope.turn(),
        DirectiveAt::EndIf => Ok(scope.end()),
    }
}
