//! The job of `gen`: from the name of a source to what is written. A read that fails is told;
//! `Failed` says here that a write failed.
ghost use Rattle.std.specs.Prelude.{◌≡◌, ◌≢◌, List, ℕ, IfOk, MatchResult, map, string_bytes};
ghost use Rattle.tg_base.specs.declared.desk.Out.TheVariants as out;
ghost use Rattle.tg_base.specs.Faults.{HasCause};
ghost use Rattle.tg_base.specs.Moment.{KeepsReading, TellsTruly};
ghost use Rattle.testgen_engine.specs.Ended.{Finds, IsCutFinding, Ended};
ghost use Rattle.testgen_engine.specs.Notes.{usage_note, read_fault_note, refusal_note};
ghost use Rattle.testgen_engine.specs.Outputs.{Writes, only};
ghost use Rattle.testgen_engine.specs.Source.{ReadsOnly};
ghost use Rattle.testgen_engine.specs.Words.{AsksGen, AsksNothing};

use crate::built::program_of;
use crate::decide::decide;
use crate::output::write_all;
use crate::print::print;
use crate::source::read_source;
use crate::status::Status;
use crate::words::{Job, job_of};
use p4_program::{Bounds, Program};
use std::alloc::{AllocError, Global};
use tg_base::{Desk, DeskFault, Out, Refusal};

/// The note of a refusal.
fn refusal_text(alloc: Global, refusal: Refusal) -> Result<String, AllocError>
    ensures { IfOk result (λ text. string_bytes text ≡ refusal_note refusal) }
{
    let number = refusal.code.number();
    let name = refusal.code.name();
    let Refusal { line, column, .. } = refusal;
    format!(in alloc; "refused {number} {name} at {line}:{column}\n")
}

/// Tells that a source is refused.
#[tactic(auto, using(crate::proofs::OutputLemmas::writes_nothing))]
fn refuse<D: Desk>(alloc: Global, desk: &mut D, refusal: Refusal) -> Result<Status, DeskFault>
    ensures told { IfOk result (λ status. status ≡ Status.Refused) }
    ensures writes { Writes (D.moment desk.old) (D.moment desk.new)
        (only out.Notes (refusal_note refusal)) result }
    ensures faults { HasCause (D.moment desk.old).write_faults
        (D.moment desk.new).write_faults result }
    ensures stays { KeepsReading (D.moment desk.old) (D.moment desk.new) }
{
    let text = refusal_text(alloc, refusal)?;
    write_all(desk, Out::Notes, text.as_bytes())?;
    Ok(Status::Refused)
}

/// Decides a program's statements, and writes what was found.
fn finish<D: Desk>(
    alloc: Global,
    desk: &mut D,
    bounds: Bounds,
    program: &Program,
) -> Result<Status, DeskFault>
    ensures told { IfOk result (λ status. status ≡ Status.Done) }
    ensures writes { MatchResult result
        (λ _. Finds (D.moment desk.old) (D.moment desk.new) bounds program.now)
        (λ _. IsCutFinding (D.moment desk.old) (D.moment desk.new) bounds program.now) }
    ensures faults { HasCause (D.moment desk.old).write_faults
        (D.moment desk.new).write_faults result }
    ensures stays { KeepsReading (D.moment desk.old) (D.moment desk.new) }
{
    let decided = decide(alloc, bounds, program)?;
    print(alloc, desk, bounds, program, &decided)?;
    Ok(Status::Done)
}

/// Tells that the source could not be read.
fn tell_fault<D: Desk>(desk: &mut D) -> Result<Status, DeskFault>
    ensures told { IfOk result (λ status. status ≡ Status.ReadFault) }
    ensures writes { Writes (D.moment desk.old) (D.moment desk.new)
        (only out.Notes read_fault_note) result }
    ensures faults { HasCause (D.moment desk.old).write_faults
        (D.moment desk.new).write_faults result }
    ensures stays { KeepsReading (D.moment desk.old) (D.moment desk.new) }
{
    write_all(desk, Out::Notes, b"read fault\n")?;
    Ok(Status::ReadFault)
}

/// Tells how the words are spelled.
fn tell_usage<D: Desk>(desk: &mut D) -> Result<Status, DeskFault>
    ensures told { IfOk result (λ status. status ≡ Status.WrongWords) }
    ensures writes { Writes (D.moment desk.old) (D.moment desk.new)
        (only out.Notes usage_note) result }
    ensures faults { HasCause (D.moment desk.old).write_faults
        (D.moment desk.new).write_faults result }
    ensures stays { KeepsReading (D.moment desk.old) (D.moment desk.new) }
{
    write_all(
        desk,
        Out::Notes,
        b"usage: gen NAME | replay NAME TEST FILL | load NUMBER SIZE\n",
    )?;
    Ok(Status::WrongWords)
}

/// Does a job of `gen`.
fn generate<D: Desk>(alloc: Global, job: Job<'_>, desk: &mut D) -> Result<Status, DeskFault>
    ensures ends { (words : List (List ℕ)) → AsksGen words job.entry.name.now job.entry.bounds
        → Ended (D.moment desk.old) (D.moment desk.new) words result }
    ensures reads { ReadsOnly (D.moment desk.old) (D.moment desk.new) job.entry.name.now }
    ensures faults { HasCause (D.moment desk.old).write_faults
        (D.moment desk.new).write_faults result }
    ensures read_faults_stay { IfOk result (λ status. status ≢ Status.ReadFault
        → (D.moment desk.new).read_faults ≡ (D.moment desk.old).read_faults) }
    ensures files_stay { (D.moment desk.new).files ≡ (D.moment desk.old).files }
{
    let source = match read_source(alloc, job.name, desk) {
        Ok(source) => source,
        Err(DeskFault::Failed) => return tell_fault(desk),
        Err(DeskFault::Memory) => return Err(DeskFault::Memory),
    };
    match program_of(alloc, source.as_slice())? {
        Ok(program) => finish(alloc, desk, job.bounds, &program),
        Err(refusal) => refuse(alloc, desk, refusal),
    }
}

/// Does the job that the words ask for.
pub fn run<D: Desk>(alloc: Global, words: &[String], desk: &mut D) -> Result<Status, DeskFault>
    ensures ends { Ended (D.moment desk.old) (D.moment desk.new)
        (map string_bytes words.now) result }
    ensures reads { (name : List ℕ) (bounds : Bounds)
        → AsksGen (map string_bytes words.now) name bounds
        → ReadsOnly (D.moment desk.old) (D.moment desk.new) name }
    ensures nothing_read { AsksNothing (map string_bytes words.now)
        → KeepsReading (D.moment desk.old) (D.moment desk.new) }
    ensures faults { HasCause (D.moment desk.old).write_faults
        (D.moment desk.new).write_faults result }
    ensures read_faults_stay { IfOk result (λ status. status ≢ Status.ReadFault
        → (D.moment desk.new).read_faults ≡ (D.moment desk.old).read_faults) }
    ensures files_stay { (D.moment desk.new).files ≡ (D.moment desk.old).files }
    ensures told { TellsTruly (D.moment desk.new) }
{
    match job_of(words) {
        Some(job) => generate(alloc, job, desk),
        None => tell_usage(desk),
    }
}
