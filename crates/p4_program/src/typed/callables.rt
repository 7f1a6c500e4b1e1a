//! Actions, parsers and controls.

use crate::typed::expressions::Expression;
use crate::typed::statements::Statement;
use crate::typed::tables::{Pattern, Table};
use crate::typed::types::{Text, ValueType};
use sqlite_items::Items;
use tg_base::{Numbers, Span};

/// How a parameter is passed. One without a direction is `In`.
#[derive(Clone, Copy, Debug, PartialEq, Eq)]
pub enum Direction {
    In,
    Out,
    InOut,
}

/// A parameter, and its name in tests.
#[derive(Debug, Drop)]
pub struct Parameter {
    pub direction: Direction,
    pub value_type: ValueType,
    pub name: Text,
}

/// An action. Its frame has its parameters and then its variables.
#[derive(Drop)]
pub struct Action {
    /// The number of the control that declares it.
    pub within: Option<u32>,
    pub parameters: Items<Parameter>,
    pub variables: Items<ValueType>,
    pub body: Vec<Statement>,
}

/// A control. Its frame has its parameters and then the variables of it and its blocks.
#[derive(Drop)]
pub struct Control {
    pub parameters: Items<Parameter>,
    pub variables: Items<ValueType>,
    /// The declarations of its variables, and the statements of `apply`.
    pub body: Vec<Statement>,
    pub tables: Items<Table>,
    /// The numbers of the controls of which it has instances.
    pub children: Numbers,
}

/// Where a transition leads.
#[derive(Clone, Copy, Debug, PartialEq, Eq)]
pub enum Target {
    Accept,
    Reject,
    /// The state of this number.
    State(u32),
}

/// One case of a `select`, at the place of its first token.
#[derive(Debug, Drop)]
pub struct SelectCase {
    pub place: Span,
    /// A pattern for each value.
    pub keys: Items<Pattern>,
    pub target: Target,
}

/// What follows a state.
#[derive(Drop)]
pub enum Transition {
    To(Target),
    /// The values, and the cases in order.
    Select(Items<Expression>, Items<SelectCase>),
}

/// A state of a parser.
#[derive(Drop)]
pub struct State {
    pub statements: Vec<Statement>,
    pub transition: Transition,
}

/// A parser. Its frame has its parameters and then the variables of it and its states.
#[derive(Drop)]
pub struct Parser {
    pub parameters: Items<Parameter>,
    pub variables: Items<ValueType>,
    /// The declarations of its variables.
    pub beginning: Vec<Statement>,
    pub states: Items<State>,
    /// The number of the state `start`.
    pub start: u32,
}

/// What has a body.
#[derive(Drop)]
pub enum Callable {
    OfAction(Action),
    OfParser(Parser),
    OfControl(Control),
}
