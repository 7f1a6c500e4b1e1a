//! The places of the statements of a program.
ghost use Rattle.std.specs.Prelude.{◌≡◌, ◌≤◌, ◌++◌, length, map, flat_map, IfOk, OnOk};
ghost use Rattle.p4_program.specs.declared.program.TheConstants.{MAX_STATEMENTS};
ghost use Rattle.p4_program.specs.Numbered.{numbers_from};
ghost use Rattle.p4_program.specs.Syntax.Numbering.{place_of, numbered_in, numbered_in_all, numbered_in_cases, numbered_in_state, numbered_in_callable, statements_numbered};
ghost use Rattle.p4_program.specs.Trees.Callables.{callable_of, state_of};
ghost use Rattle.p4_program.specs.Trees.Programs.{core_of};
ghost use Rattle.p4_program.specs.Trees.Statements.{statement_of, statements_of, switch_cases_of};

use crate::typed::callables::{Callable, State};
use crate::typed::program::Program;
use crate::typed::statements::{Statement, SwitchCase};
use sqlite_items::Items;
use std::alloc::{AllocError, Global};
use tg_base::Span;

/// A list of places.
pub type Places = Items<Span>;

/// The place of each statement that has a number, in the order of the numbers, the first of which is 1.
pub fn statement_places(alloc: Global, program: &Program) -> Result<Places, AllocError>
    ensures places { IfOk result
        (λ places. places ≡ map place_of (statements_numbered (core_of program.now))) }
    ensures numbers { IfOk result
        (λ places. map (λ s. s.number) (statements_numbered (core_of program.now))
        ≡ numbers_from 1 (length places)) }
    ensures few { IfOk result (λ places. length places ≤ MAX_STATEMENTS) }
{
    let mut places = Items::new(alloc);
    for callable in program.callables.as_slice() {
        push_callable(&mut places, callable)?;
    }
    Ok(places)
}

fn push_callable(places: &mut Places, callable: &Callable) -> Result<(), AllocError>
    ensures { OnOk result (places.new
        ≡ places.old ++ map place_of (numbered_in_callable (callable_of callable.now))) }
{
    match callable {
        Callable::OfAction(action) => push_statements(places, action.body.as_slice()),
        Callable::OfControl(control) => push_statements(places, control.body.as_slice()),
        Callable::OfParser(parser) => {
            push_statements(places, parser.beginning.as_slice())?;
            push_states(places, parser.states.as_slice())
        }
    }
}

fn push_states(places: &mut Places, states: &[State]) -> Result<(), AllocError>
    ensures { OnOk result (places.new ≡ places.old
        ++ map place_of (flat_map (λ s. numbered_in_state (state_of s)) states.now)) }
{
    for state in states {
        push_statements(places, state.statements.as_slice())?;
    }
    Ok(())
}

#[cycle(places)]
fn push_statements(places: &mut Places, statements: &[Statement]) -> Result<(), AllocError>
    ensures { OnOk result (places.new
        ≡ places.old ++ map place_of (numbered_in_all (statements_of statements.now))) }
{
    for statement in statements {
        push_statement(places, statement)?;
    }
    Ok(())
}

#[cycle(places)]
fn push_statement(places: &mut Places, statement: &Statement) -> Result<(), AllocError>
    ensures { OnOk result (places.new
        ≡ places.old ++ map place_of (numbered_in (statement_of statement.now))) }
{
    match statement {
        Statement::Numbered(_, place, _) => places.push(*place),
        Statement::Declare(_, _, _) => Ok(()),
        Statement::If(_, _, yes, no) => {
            push_statements(places, yes.as_slice())?;
            push_statements(places, no.as_slice())
        }
        Statement::Switch(_, cases) => push_cases(places, cases.as_slice()),
    }
}

#[cycle(places)]
fn push_cases(places: &mut Places, cases: &[SwitchCase]) -> Result<(), AllocError>
    ensures { OnOk result (places.new
        ≡ places.old ++ map place_of (numbered_in_cases (switch_cases_of cases.now))) }
{
    for case in cases {
        push_statements(places, case.body.as_slice())?;
    }
    Ok(())
}
