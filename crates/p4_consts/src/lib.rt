//! The judging of expressions, as far as it stands: what their parts stand for by the rules of
//! `p4_rules`. A judgement has the name of its rule, and its contract says that it gives the rule's
//! value and notes the rule's faults. Want of memory is an error, of which nothing is said.
//!
//! It has the integers and constants of compile time, operands and casts, operators before one
//! operand, shifts, concatenation, the operators on `bool` and the conditional operator, scopes
//! with what names stand for in them and how they change, the scope before a source, literals, what
//! stands behind a `.`, elements of stacks and slices, sizes and types by name, what is passed for
//! parameters, and the call of an action. Other operators between two operands, calls of methods
//! and functions, whole expressions and the walk over the tree are to come. Nothing stands on it yet.
//!
//! A judgement gives what a part stands for, where it is right, and notes its faults, of which the
//! first is kept. Parts side by side are all judged, so that the fault that decides is found
//! whichever part has it. Where a part is faulty, what holds it is not judged any further.
#![tactic(auto)]

mod applying;
mod argument_lists;
mod arithmetic;
mod base;
mod booleans;
mod calculations;
mod callees;
mod casts;
mod changes;
mod choices;
mod comparisons;
mod concatenations;
mod constants;
mod faults;
mod folding;
mod forms;
mod found;
mod indexes;
mod integer;
mod keyed;
mod literals;
mod meanings;
mod members;
mod named;
mod names;
mod numbered;
mod operands;
mod operated;
mod operators;
mod pairs;
mod passing;
mod paths;
mod places;
mod predeclared;
mod rows;
mod runs;
mod scopes;
mod shifts;
mod simple;
mod sizes;
mod slices;
mod standing;
mod things;
mod types;
mod unary;
mod unify;
mod value_members;
mod values;
mod wanted;

pub use applying::applied;
pub use applying::applied_with;
pub use argument_lists::arguments;
pub use argument_lists::arguments_for;
pub use base::base_thing;
pub use booleans::logic;
pub use callees::action_call;
pub use casts::as_bits;
pub use casts::cast;
pub use casts::cast_to;
pub use casts::integer_as;
pub use casts::resized;
pub use changes::leave;
pub use changes::with_callable_depth;
pub use changes::with_child_depth;
pub use changes::with_name;
pub use changes::with_shapes;
pub use changes::with_table_depth;
pub use changes::with_top_name;
pub use changes::within;
pub use choices::choice;
pub use comparisons::equality;
pub use comparisons::order;
pub use concatenations::concatenation;
pub use constants::Constant;
pub use constants::is_width;
pub use faults::Faults;
pub use folding::constant_value;
pub use folding::core_operator;
pub use folding::fixed;
pub use folding::integer_order;
pub use folding::is_signed;
pub use folding::one_where;
pub use folding::plain_value;
pub use folding::width_in;
pub use found::as_type;
pub use found::depth_of;
pub use found::meaning_of;
pub use found::once;
pub use found::shapes_of;
pub use found::type_meaning;
pub use indexes::indexed;
pub use integer::Integer;
pub use literals::literal;
pub use literals::number_of;
pub use meanings::Meaning;
pub use members::member_of;
pub use named::lookahead_of;
pub use named::thing_of;
pub use names::Names;
pub use numbered::Numbered;
pub use operands::Operand;
pub use operands::Placed;
pub use operands::constant_number;
pub use operands::core_of;
pub use operands::retyped;
pub use operands::scalar_of;
pub use operands::type_of;
pub use operands::varies_at;
pub use operands::varying_or;
pub use operators::Row;
pub use operators::binary;
pub use pairs::Pair;
pub use pairs::each;
pub use pairs::whole_numbers;
pub use pairs::with_bits;
pub use passing::TypeTest;
pub use passing::directed;
pub use passing::object_passed;
pub use passing::passed_in;
pub use passing::path_in;
pub use passing::path_passed;
pub use paths::path_of;
pub use paths::step_from;
pub use paths::step_on;
pub use paths::validity_of;
pub use paths::value_type;
pub use places::Places;
pub use predeclared::core_scope;
pub use scopes::Depths;
pub use scopes::Scope;
pub use shifts::shift;
pub use sizes::LARGEST_STACK;
pub use sizes::named_number;
pub use sizes::named_type;
pub use sizes::sized_number;
pub use sizes::stack_of;
pub use slices::sliced;
pub use things::Judged;
pub use things::Method;
pub use things::Thing;
pub use types::bit_width;
pub use types::header_bits;
pub use types::is_run_time;
pub use types::is_scalar;
pub use types::is_sized;
pub use types::may_be_in_header;
pub use types::same_type;
pub use unary::unary_of;
pub use unify::unified;
pub use unify::unified_each;
pub use unify::unified_numbers;
pub use values::value_of;
pub use wanted::Wanted;
pub use wanted::has_fields;
pub use wanted::is_boolean;
pub use wanted::is_comparable;
pub use wanted::is_integer;
pub use wanted::is_number;
pub use wanted::is_of_bits;
pub use wanted::is_sized_value;
pub use wanted::may_be_amount;
