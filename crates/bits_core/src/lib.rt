//! Numbers of 1 to 128 bits and the operators on them: the lowest layer of every kind of value. Constants are folded by
//! `apply`, interpreted programs step by it, and terms and circuits mean what it gives. A number from outside is made by
//! `Bits::new`.
//!
//! It takes no memory, refuses nothing, and knows nothing of programs. What each operator gives is one clause of
//! `operator_value` in `specs/Operator.antt`; slices, casts and the signed reading are in `specs/Number.antt`. The 21
//! operators are the rows of one table: see `operator_rows!` for a crate with something of its own for each row.
//!
//! The module `laws` says what holds of those definitions. A crate above may cite the lemmas of `proofs/*Laws.antt`:
//!
//! - `NumberLaws` (a number is its width and its value): tables and sets of numbers.
//! - `RowLaws` (a result fits; a difference as a sum; a comparison's truth): every kind of value, the rewriting of terms.
//! - `SignLaws`, `SignedRowLaws` (the two readings of one value, and that wrapping serves both): constants, typing.
//! - `PartLaws`, `WidthLaws` (slices, joins, extension and cut): header fields, packets, assignments to slices.
//! - `PlaceLaws`, `CarryLaws`, `SameBelowLaws` (the bit at a place, by `bit_at` of the standard library, and what the
//!   lowest bits decide): masks, circuits.
//! - `BitListLaws` (a number and the list of its bits): each circuit, the bits of an input.
//! - `BitwiseLaws`, `AdderLaws`, `MultiplierLaws`, `ShifterLaws`, `ComparatorLaws`, `SaturationLaws`: the circuits of the
//!   rows, over the textbook's circuits in `specs/Circuit.antt`.
#![tactic(auto)]

mod arithmetic;
mod bitwise;
mod comparison;
mod evaluate;
pub mod laws;
mod number;
mod operator;
mod parts;
mod points;
mod saturation;
mod shifts;
mod sign;

pub use evaluate::apply;
pub use number::{Bits, MAX_WIDTH};
pub use operator::{OPERATORS, Op, OpRow, OpShape, Table};
pub use parts::{extend, slice};
pub use points::{BitsList, Point};
