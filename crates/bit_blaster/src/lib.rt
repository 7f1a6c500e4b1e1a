//! Terms as formulas in conjunctive normal form.
//!
//! A circuit is a list of gates over numbered variables, of which the first are its inputs. Operators are built on wires and
//! words of wires, and speak of the values that these carry alone (`specs/Netlist.antt`, `specs/Word.antt`): `circuits::operate`
//! has one for each row of the operator table. What is known, equal or opposite costs no gate. The clauses of a circuit are made
//! of its gates at the end: `specs/Clauses.antt` says what they promise.
//!
//! The inputs are the bits that a term mentions, in order (`variables`, `specs/Vars.antt`). `term_words` gives each node its
//! word, in one walk over the dag's table. `clauses_of` gives a term's formula, and `bits_of` the bits that it is about. Neither
//! solves anything.
#![tactic(auto)]

mod circuit;
mod circuits;
mod clauses;
mod formula;
mod gate;
mod gates;
mod marks;
mod pair;
mod read_widths;
mod shifter;
mod term_words;
mod variables;
mod wire;
mod words;

pub use formula::{Blasted, bits_of, clauses_of};
