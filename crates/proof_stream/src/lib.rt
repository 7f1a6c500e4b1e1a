//! The records of the log, as values and as texts: a question that was asked of a solver with its answer and derivation,
//! or an input at which a statement depends on unspecified reads.
//!
//! [`write_record`] gives the one text of a record and [`read_record`] the one record of a text, or the first line up to
//! which no record's text agrees with it. Both are by the spelling alone: whether a derivation is accepted is for
//! `refutation_checker` to say, and what a record proves for those who ask. [`ProofLog`] keeps records until they are
//! written. `specs/Spelling.antt` has the lines and words of a record, `Valid.antt` which records have a text, and
//! `Faults.antt` what the line of a fault is.
#![tactic(auto)]

mod digits;
mod draft;
mod hex_value;
mod keyword;
pub mod laws;
mod line;
mod lines;
mod lists;
mod proof_fault;
mod proof_log;
mod reading;
mod record;
mod words;
mod writing;

pub use hex_value::{HexValue, MAX_DIGITS, Values};
pub use proof_fault::ProofFault;
pub use proof_log::ProofLog;
pub use reading::read_record;
pub use record::{End, Kind, Record, Truths};
pub use writing::write_record;
