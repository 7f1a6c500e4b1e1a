//! The actions, controls and instances of a source, along its derivation.

ghost use Rattle.std.specs.Prelude.{◌≡◌, Some, IfOk};
ghost use Rattle.p4_grammar.specs.declared.symbols.TheConstants.{ACTION, CONTROL, CONTROL_PARTS, INSTANCE_ARGUMENT, INSTANCE_ARGUMENTS, INSTANCE_ARGUMENTS_LIST, LOCAL, LOCAL_REST};
ghost use Rattle.p4_grammar.specs.Ahead.{Begins, below, after};
ghost use Rattle.p4_grammar.specs.Controls.{action, control, control_parts, instance_argument, instance_arguments, instance_arguments_list, local_of, local_rest};

use crate::cursor::Cursor;
use crate::expressions::{expression, type_form};
use crate::names::{annotations, name, name_at};
use crate::parsers::parameters;
use crate::statements::{block, constant, variable_behind};
use crate::symbols::{ACTION, CONSTANT, EXPRESSION, NAME, TABLE};
use crate::tables::table;
use p4_tree::{
    Action, Control, ControlPart, Instance, InstanceArgument, InstanceArgumentKind, Local, TypeForm,
};
use sqlite_items::Items;
use std::alloc::{AllocError, Global};
use tg_base::Span;

/// CONTROL.
#[tactic(auto, using(crate::proofs::ControlRows::control_row, crate::proofs::RowsOfForms::symbol_is))]
pub(crate) fn control(alloc: Global, cursor: &mut Cursor) -> Result<Control, AllocError>
    requires { Begins CONTROL cursor.old }
    ensures value { IfOk result (λ made. control (below cursor.old) ≡ Some made) }
    ensures rest { IfOk result (λ _. cursor.new ≡ after cursor.old) }
{
    cursor.enter();
    let span = cursor.take().span;
    let name = name(alloc, cursor)?;
    let parameters = parameters(alloc, cursor)?;
    cursor.take();
    let parts = control_parts(alloc, cursor)?;
    cursor.take();
    let body = block(alloc, cursor)?;
    cursor.take();
    Ok(Control {
        name,
        parameters,
        parts,
        body,
        span,
    })
}

/// CONTROL_PARTS.
#[tactic(auto, using(crate::proofs::ControlRows::control_parts_row, crate::proofs::RowsOfForms::symbol_is, crate::proofs::ListLemmas::pushed, crate::proofs::ListLemmas::behind_none, crate::proofs::ListLemmas::gathered, crate::proofs::AheadLemmas::nodes_opened, crate::proofs::AheadLemmas::nodes_after))]
fn control_parts(alloc: Global, cursor: &mut Cursor) -> Result<Items<ControlPart>, AllocError>
    requires { Begins CONTROL_PARTS cursor.old }
    ensures value { IfOk result (λ made. control_parts (below cursor.old) ≡ Some made) }
    ensures rest { IfOk result (λ _. cursor.new ≡ after cursor.old) }
{
    let mut all = Vec::new(alloc);
    while cursor.enter().is_some() {
        let annotations = annotations(alloc, cursor)?;
        let local = local(alloc, cursor)?;
        all.push(ControlPart { annotations, local })?;
    }
    Ok(Items::from_vec(all))
}

/// LOCAL.
#[tactic(auto, using(crate::proofs::ControlRows::local_row, crate::proofs::RowsOfForms::symbol_is))]
fn local(alloc: Global, cursor: &mut Cursor) -> Result<Local, AllocError>
    requires { Begins LOCAL cursor.old }
    ensures value { IfOk result (λ made. local_of (below cursor.old) ≡ Some made) }
    ensures rest { IfOk result (λ _. cursor.new ≡ after cursor.old) }
{
    match cursor.enter() {
        Some(CONSTANT) => Ok(Local::Constant(constant(alloc, cursor)?)),
        Some(ACTION) => Ok(Local::Action(action(alloc, cursor)?)),
        Some(TABLE) => Ok(Local::Table(table(alloc, cursor)?)),
        _ => {
            let span = cursor.place();
            let form = type_form(alloc, cursor)?;
            local_rest(alloc, cursor, form, span)
        }
    }
}

/// LOCAL_REST, behind a type at this place.
#[tactic(auto, using(crate::proofs::ControlRows::local_rest_row))]
fn local_rest(
    alloc: Global,
    cursor: &mut Cursor,
    type_form: TypeForm,
    span: Span,
) -> Result<Local, AllocError>
    requires { Begins LOCAL_REST cursor.old }
    ensures value { IfOk result (λ made.
        local_rest (Some type_form) (Some span) (below cursor.old) ≡ Some made) }
    ensures rest { IfOk result (λ _. cursor.new ≡ after cursor.old) }
{
    if cursor.enter() == Some(NAME) {
        return Ok(Local::Variable(variable_behind(alloc, cursor, type_form, span)?));
    }
    let arguments = instance_arguments(alloc, cursor)?;
    let name = name(alloc, cursor)?;
    cursor.take();
    Ok(Local::Instance(Instance {
        type_form,
        arguments,
        name,
        span,
    }))
}

/// ACTION.
#[tactic(auto, using(crate::proofs::ControlRows::action_row, crate::proofs::RowsOfForms::symbol_is))]
pub(crate) fn action(alloc: Global, cursor: &mut Cursor) -> Result<Action, AllocError>
    requires { Begins ACTION cursor.old }
    ensures value { IfOk result (λ made. action (below cursor.old) ≡ Some made) }
    ensures rest { IfOk result (λ _. cursor.new ≡ after cursor.old) }
{
    cursor.enter();
    let span = cursor.take().span;
    let name = name(alloc, cursor)?;
    let parameters = parameters(alloc, cursor)?;
    let body = block(alloc, cursor)?;
    Ok(Action {
        name,
        parameters,
        body,
        span,
    })
}

/// INSTANCE_ARGUMENTS.
#[tactic(auto, using(crate::proofs::ControlRows::instance_arguments_row, crate::proofs::RowsOfForms::symbol_is))]
pub(crate) fn instance_arguments(
    alloc: Global,
    cursor: &mut Cursor,
) -> Result<Items<InstanceArgument>, AllocError>
    requires { Begins INSTANCE_ARGUMENTS cursor.old }
    ensures value { IfOk result (λ made. instance_arguments (below cursor.old) ≡ Some made) }
    ensures rest { IfOk result (λ _. cursor.new ≡ after cursor.old) }
{
    cursor.enter();
    cursor.take();
    let all = instance_arguments_list(alloc, cursor)?;
    cursor.take();
    Ok(all)
}

/// INSTANCE_ARGUMENTS_LIST.
#[tactic(auto, using(crate::proofs::ControlRows::instance_arguments_list_row, crate::proofs::RowsOfForms::symbol_is, crate::proofs::ControlRows::instance_arguments_tail_row, crate::proofs::ListLemmas::pushed, crate::proofs::ListLemmas::behind_none, crate::proofs::ListLemmas::gathered, crate::proofs::AheadLemmas::nodes_opened, crate::proofs::AheadLemmas::nodes_after))]
fn instance_arguments_list(
    alloc: Global,
    cursor: &mut Cursor,
) -> Result<Items<InstanceArgument>, AllocError>
    requires { Begins INSTANCE_ARGUMENTS_LIST cursor.old }
    ensures value { IfOk result (λ made. instance_arguments_list (below cursor.old) ≡ Some made) }
    ensures rest { IfOk result (λ _. cursor.new ≡ after cursor.old) }
{
    let mut all = Vec::new(alloc);
    if cursor.enter().is_none() {
        return Ok(Items::from_vec(all));
    }
    all.push(instance_argument(alloc, cursor)?)?;
    while cursor.enter().is_some() {
        cursor.take();
        all.push(instance_argument(alloc, cursor)?)?;
    }
    Ok(Items::from_vec(all))
}

/// INSTANCE_ARGUMENT.
#[tactic(auto, using(crate::proofs::ControlRows::instance_argument_row, crate::proofs::RowsOfForms::symbol_is))]
fn instance_argument(alloc: Global, cursor: &mut Cursor) -> Result<InstanceArgument, AllocError>
    requires { Begins INSTANCE_ARGUMENT cursor.old }
    ensures value { IfOk result (λ made. instance_argument (below cursor.old) ≡ Some made) }
    ensures rest { IfOk result (λ _. cursor.new ≡ after cursor.old) }
{
    if cursor.enter() == Some(EXPRESSION) {
        let span = cursor.place();
        let kind = InstanceArgumentKind::Value(expression(alloc, cursor)?);
        return Ok(InstanceArgument { kind, span });
    }
    let name = name_at(alloc, cursor.take())?;
    let span = name.span;
    cursor.take();
    cursor.take();
    let kind = InstanceArgumentKind::Constructed(name);
    Ok(InstanceArgument { kind, span })
}
