//! The test of programs: whether tests are made for them so far.
ghost use Rattle.std.specs.Prelude.{◌≡◌, ◌↔◌, IsTrue, [], All, IsSomeAnd, map};
ghost use Rattle.p4_program.specs.Built.{AcceptsAtOnce, BuiltParser, IsNotOf, DeclaresNothing, EmptyControl, NoOtherNumbered, BuiltIngress, OfInstance, Built};
ghost use Rattle.p4_program.specs.declared.typed.callables.Target.TheVariants.{Accept};
ghost use Rattle.p4_program.specs.Syntax.Callables.{To};
ghost use Rattle.p4_program.specs.Syntax.Lookup.{control_at};
ghost use Rattle.p4_program.specs.Trees.Callables.{callable_of, control_of, parser_of, state_of, transition_of};
ghost use Rattle.p4_program.specs.Trees.Programs.{core_of};
ghost use Rattle.p4_program.specs.WellFormed.Programs.{parser_at};

use crate::typed::built_statements::built_statements;
use crate::typed::callables::{Callable, Control, Parser, State, Target, Transition};
use crate::typed::program::Program;
use crate::typed::unnumbered::{callable_unnumbered, no_statement};

/// Whether tests are made for the program so far: its parser accepts at once, and of its controls only ingress has
/// statements, which set the port or drop the packet.
pub fn built(program: &Program) -> bool
    ensures { IsTrue result ↔ Built (core_of program.now) }
{
    parser_built(program)
        && ingress_built(program)
        && block_empty(program, program.blocks.verify)
        && block_empty(program, program.blocks.egress)
        && block_empty(program, program.blocks.compute)
        && block_empty(program, program.blocks.deparser)
}

fn parser_built(program: &Program) -> bool
    ensures { IsTrue result
        ↔ IsSomeAnd (parser_at (core_of program.now) program.now.blocks.parser) BuiltParser }
{
    match program.parser(program.blocks.parser) {
        Some(parser) => accepts_alone(parser),
        None => false,
    }
}

fn accepts_alone(parser: &Parser) -> bool
    ensures { IsTrue result ↔ BuiltParser (parser_of parser.now) }
{
    parser.variables.is_empty()
        && no_statement(parser.beginning.as_slice())
        && parser.states.len() == 1
        && states_accept(parser)
}

fn states_accept(parser: &Parser) -> bool
    ensures { IsTrue result ↔ All AcceptsAtOnce (parser_of parser.now).states }
{
    all_accept(parser.states.as_slice())
}

fn all_accept(states: &[State]) -> bool
    ensures { IsTrue result ↔ All (λ state. AcceptsAtOnce (state_of state)) states.now }
{
    states.iter().all(accepts_at_once)
}

fn accepts_at_once(state: &State) -> bool
    ensures { IsTrue result ↔ AcceptsAtOnce (state_of state.now) }
{
    no_statement(state.statements.as_slice()) && accepts(&state.transition)
}

fn accepts(transition: &Transition) -> bool
    ensures { IsTrue result ↔ (transition_of transition.now ≡ To Accept) }
{
    matches!(transition, Transition::To(Target::Accept))
}

/// Whether the control of the instance declares nothing and does nothing.
fn block_empty(program: &Program, instance: u32) -> bool
    ensures { IsTrue result
        ↔ OfInstance (core_of program.now) instance (EmptyControl (core_of program.now)) }
{
    match program.control_of(instance) {
        Some(number) => control_empty(program, number),
        None => false,
    }
}

fn control_empty(program: &Program, number: u32) -> bool
    ensures { IsTrue result ↔ IsSomeAnd (control_at (core_of program.now) number)
        (EmptyControl (core_of program.now) number) }
{
    match program.control(number) {
        Some(control) => declares_nothing(program, number, control)
            && no_statement(control.body.as_slice()),
        None => false,
    }
}

fn declares_nothing(program: &Program, number: u32, control: &Control) -> bool
    ensures { IsTrue result
        ↔ DeclaresNothing (core_of program.now) number (control_of control.now) }
{
    control.variables.is_empty()
        && no_table(control)
        && control.children.is_empty()
        && no_action_of(program, number)
}

#[tactic(auto, using(crate::proofs::Bodies::none_mapped))]
fn no_table(control: &Control) -> bool
    ensures { IsTrue result ↔ ((control_of control.now).tables ≡ []) }
{
    control.tables.is_empty()
}

fn no_action_of(program: &Program, number: u32) -> bool
    ensures { IsTrue result ↔ All (IsNotOf number) (core_of program.now).callables }
{
    none_of(program.callables.as_slice(), number)
}

fn none_of(callables: &[Callable], number: u32) -> bool
    ensures { IsTrue result ↔ All (λ c. IsNotOf number (callable_of c)) callables.now }
{
    callables.iter().all(|callable| is_not_of(number, callable))
}

/// Whether the callable is no action of the control of this number.
fn is_not_of(number: u32, callable: &Callable) -> bool
    ensures { IsTrue result ↔ IsNotOf number (callable_of callable.now) }
{
    match callable {
        Callable::OfAction(action) => action.within != Some(number),
        Callable::OfParser(_) | Callable::OfControl(_) => true,
    }
}

fn ingress_built(program: &Program) -> bool
    ensures { IsTrue result ↔ OfInstance (core_of program.now) program.now.blocks.ingress
        (BuiltIngress (core_of program.now)) }
{
    match program.control_of(program.blocks.ingress) {
        Some(number) => control_built(program, number),
        None => false,
    }
}

fn control_built(program: &Program, number: u32) -> bool
    ensures { IsTrue result ↔ IsSomeAnd (control_at (core_of program.now) number)
        (BuiltIngress (core_of program.now) number) }
{
    match program.control(number) {
        Some(control) => {
            declares_nothing(program, number, control)
                && built_statements(control.body.as_slice())
                && no_other_numbered(program, number)
        }
        None => false,
    }
}

fn no_other_numbered(program: &Program, number: u32) -> bool
    ensures { IsTrue result ↔ NoOtherNumbered number (core_of program.now).callables }
{
    others_unnumbered(program.callables.as_slice(), number)
}

fn others_unnumbered(callables: &[Callable], number: u32) -> bool
    ensures { IsTrue result ↔ NoOtherNumbered number (map callable_of callables.now) }
{
    for (k, callable) in callables.iter().enumerate() {
        if k != number as usize && !callable_unnumbered(callable) {
            return false;
        }
    }
    true
}
