//! The test whether statements with a number stand in a body.
ghost use Rattle.std.specs.Prelude.{◌≡◌, ◌↔◌, IsTrue, All};
ghost use Rattle.p4_program.specs.Built.{Unnumbered, AllUnnumbered, CasesUnnumbered, ParserUnnumbered, CallableUnnumbered};
ghost use Rattle.p4_program.specs.Syntax.Statements.{NoStatements};
ghost use Rattle.p4_program.specs.Trees.Callables.{callable_of, parser_of, state_of};
ghost use Rattle.p4_program.specs.Trees.Statements.{statement_of, statements_of, switch_cases_of};

use crate::typed::callables::{Callable, Parser, State};
use crate::typed::statements::{Statement, SwitchCase};

/// Whether no statement with a number stands in the callable.
pub(crate) fn callable_unnumbered(callable: &Callable) -> bool
    ensures { IsTrue result ↔ CallableUnnumbered (callable_of callable.now) }
{
    match callable {
        Callable::OfAction(action) => all_unnumbered(action.body.as_slice()),
        Callable::OfParser(parser) => parser_unnumbered(parser),
        Callable::OfControl(control) => all_unnumbered(control.body.as_slice()),
    }
}

fn parser_unnumbered(parser: &Parser) -> bool
    ensures { IsTrue result ↔ ParserUnnumbered (parser_of parser.now) }
{
    all_unnumbered(parser.beginning.as_slice()) && states_unnumbered(parser.states.as_slice())
}

fn states_unnumbered(states: &[State]) -> bool
    ensures { IsTrue result ↔ All (λ s. AllUnnumbered (state_of s).statements) states.now }
{
    states.iter().all(state_unnumbered)
}

fn state_unnumbered(state: &State) -> bool
    ensures { IsTrue result ↔ AllUnnumbered (state_of state.now).statements }
{
    all_unnumbered(state.statements.as_slice())
}

/// Whether there is no statement.
#[tactic(auto, using(crate::proofs::Bodies::none_from, crate::proofs::Bodies::none_there))]
pub(crate) fn no_statement(statements: &[Statement]) -> bool
    ensures { IsTrue result ↔ (statements_of statements.now ≡ NoStatements) }
{
    statements.is_empty()
}

#[cycle(unnumbered)]
fn all_unnumbered(statements: &[Statement]) -> bool
    ensures { IsTrue result ↔ AllUnnumbered (statements_of statements.now) }
{
    for statement in statements {
        if !unnumbered(statement) {
            return false;
        }
    }
    true
}

#[cycle(unnumbered)]
fn unnumbered(statement: &Statement) -> bool
    ensures { IsTrue result ↔ Unnumbered (statement_of statement.now) }
{
    match statement {
        Statement::Numbered(_, _, _) => false,
        Statement::Declare(_, _, _) => true,
        Statement::If(_, _, yes, no) => {
            all_unnumbered(yes.as_slice()) && all_unnumbered(no.as_slice())
        }
        Statement::Switch(_, cases) => cases_unnumbered(cases.as_slice()),
    }
}

#[cycle(unnumbered)]
fn cases_unnumbered(cases: &[SwitchCase]) -> bool
    ensures { IsTrue result ↔ CasesUnnumbered (switch_cases_of cases.now) }
{
    for case in cases {
        if !all_unnumbered(case.body.as_slice()) {
            return false;
        }
    }
    true
}
