//! The top call: from the words of a command line to tests, a report and a log.
//!
//! [`testgen`] reads its words, reads the source through a desk, decides each statement, and writes
//! what it found. Its contract is the headline of the product: the definitions of `specs/` say what
//! a right report and right tests are. Runs, verdicts and tests are defined in `p4_meaning`.
//!
//! - `status`: how a call ends, and the statuses of the process;
//! - `words`: which job the words ask for;
//! - `source`: the bytes of the source;
//! - `built`, `skeleton`, `written`: the program of a source that is built;
//! - `decide`: tests and verdicts;
//! - `report`, `test_text`: their texts;
//! - `output`, `print`: writing to a desk;
//! - `generate`: the job as a whole;
//! - `laws`: that the texts tell what was found.
#![tactic(auto)]

mod built;
mod decide;
mod generate;
pub mod laws;
mod output;
mod print;
mod report;
mod skeleton;
mod source;
mod status;
mod test_text;
mod words;
mod written;

ghost use Rattle.std.specs.Prelude.{◌≡◌, ◌≢◌, ◌≤◌, ◌⊎◌, ℕ, List, map, string_bytes};
ghost use Rattle.tg_base.specs.Faults.{Rose};
ghost use Rattle.tg_base.specs.Moment.{KeepsReading};
ghost use Rattle.p4_program.specs.declared.bounds.Bounds.{Bounds};
ghost use Rattle.testgen_engine.specs.Endings.{Finishes, Misspells, Refuses, FailsToRead, IsCutShort, Completes, RefusesWhole};
ghost use Rattle.testgen_engine.specs.Source.{ReadsOnly};
ghost use Rattle.testgen_engine.specs.Words.{AsksGen, AsksNothing};

use generate::run;
pub use status::{DONE, OUT_OF_MEMORY, READ_FAULT, REFUSED, UNDECIDED, WRITE_FAULT, WRONG_WORDS};
use std::alloc::Global;
use tg_base::{Desk, DeskFault};

/// Does the job that the words ask for, and answers the status of the process.
///
/// The words are those of the command line without the program's name. The clauses speak of what
/// the desk is before and after the call: which names it was asked for, what was moved out of the
/// files that it opened, what its outputs have taken, and how many faults it has counted.
pub fn testgen<D: Desk>(alloc: Global, words: &[String], desk: &mut D) -> u8
    ensures statuses { result ≤ OUT_OF_MEMORY }

    // The headline: what is printed is right.
    ensures headline { (result ≡ DONE) ⊎ (result ≡ UNDECIDED)
        → Finishes (D.moment desk.old) (D.moment desk.new) (map string_bytes words.now) result }

    // Wrong words are told, and nothing is read.
    ensures wrong_words { result ≡ WRONG_WORDS
        → Misspells (D.moment desk.old) (D.moment desk.new) (map string_bytes words.now) result }
    ensures only_wrong_words { AsksNothing (map string_bytes words.now)
        → (result ≡ WRONG_WORDS) ⊎ ((result ≡ WRITE_FAULT) ⊎ (result ≡ OUT_OF_MEMORY)) }
    ensures nothing_opened { AsksNothing (map string_bytes words.now)
        → KeepsReading (D.moment desk.old) (D.moment desk.new) }

    // A refusal is told, and nothing else.
    ensures refused { result ≡ REFUSED
        → Refuses (D.moment desk.old) (D.moment desk.new) (map string_bytes words.now) result }

    // A fault is answered only where the desk has counted it in this call, and it ends the call.
    ensures read_fault { result ≡ READ_FAULT
        → FailsToRead (D.moment desk.old) (D.moment desk.new) (map string_bytes words.now) result }
    ensures write_fault { result ≡ WRITE_FAULT
        → Rose (D.moment desk.old).write_faults (D.moment desk.new).write_faults }
    ensures read_faults_stay { result ≢ READ_FAULT → result ≢ WRITE_FAULT → result ≢ OUT_OF_MEMORY
        → (D.moment desk.new).read_faults ≡ (D.moment desk.old).read_faults }
    ensures write_faults_stay { result ≢ WRITE_FAULT
        → (D.moment desk.new).write_faults ≡ (D.moment desk.old).write_faults }

    // What a call that is cut short has written is right so far.
    ensures cut_short { (result ≡ WRITE_FAULT) ⊎ (result ≡ OUT_OF_MEMORY)
        → IsCutShort (D.moment desk.old) (D.moment desk.new) (map string_bytes words.now) }

    // However a call ends, it reads no file but the one that the words name.
    ensures reads { (name : List ℕ) (bounds : Bounds)
        → AsksGen (map string_bytes words.now) name bounds
        → ReadsOnly (D.moment desk.old) (D.moment desk.new) name }

    // Without a fault a source that stands for a program is finished, and one that is refused is
    // told so.
    ensures completes { Completes (D.moment desk.old) (D.moment desk.new)
        (map string_bytes words.now) result }
    ensures refuses { RefusesWhole (D.moment desk.old) (D.moment desk.new)
        (map string_bytes words.now) result }

    ensures files_stay { (D.moment desk.new).files ≡ (D.moment desk.old).files }
{
    match run(alloc, words, desk) {
        Ok(status) => status.number(),
        Err(DeskFault::Failed) => WRITE_FAULT,
        Err(DeskFault::Memory) => OUT_OF_MEMORY,
    }
}
