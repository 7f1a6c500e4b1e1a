//! What every crate stands on: places in a source, numbers as it writes them, refusals and which of
//! them decides, and the desk through which the generator reads sources and writes tests.
//!
//! The trait [`Desk`] says in its clauses all that the layers above may rely on. [`MemDesk`] and
//! [`CalmDesk`] keep files and outputs in memory. The desk over real files is the program's.
#![tactic(auto)]

mod calls;
mod calm_desk;
mod desk;
mod fault;
pub mod laws;
mod literal;
mod mem_desk;
mod open_file;
mod outputs;
mod place;
mod session;

pub use calm_desk::CalmDesk;
pub use desk::{Desk, DeskFault, Out};
pub use fault::Fault;
pub use literal::{IntType, IntValue, Literal};
pub use mem_desk::MemDesk;
pub use place::{Code, Refusal, Span};
use sqlite_items::Items;

/// A list of truth values.
pub type Truths = Items<bool>;

/// A list of numbers, as those of statements.
pub type Numbers = Items<u32>;
