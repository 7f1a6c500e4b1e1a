//! A desk in memory whose calls fail where its maker says.
ghost use Rattle.std.specs.Prelude.{◌≡◌, ◌≢◌, ◌↔◌, [], ◌∷◌, ◌++◌, ◌||◌, ◌<◌, Some, length, min, take, drop, is_ok, nat_lt, false, IsTrue, OnOk, OnErr, IfOk, IsErrOf, MatchResult, if◌then◌else◌};
ghost use Rattle.std.specs.Option.{option_copied};
ghost use Rattle.tg_base.specs.Telling.{tells_truly};
ghost use Rattle.tg_base.specs.Answer.{wants_memory};
ghost use Rattle.tg_base.specs.Calls.{counted, faults_after};
ghost use Rattle.tg_base.specs.Faults.{HasCause};
ghost use Rattle.tg_base.specs.Files.{file_named};
ghost use Rattle.tg_base.specs.Moment.{KeepsReading, KeepsWriting, just_opened, after_read, output_after};
ghost use Rattle.tg_base.specs.Outputs.{filled};
ghost use Rattle.tg_base.specs.Session.{readings_of, Tells};
ghost use Rattle.tg_base.specs.declared.desk.Out.{Out};

use crate::calls::Calls;
use crate::desk::{Desk, DeskFault, Out};
use crate::session::Session;
use std::alloc::Global;

/// A desk that holds its files and outputs in memory and tells them all.
///
/// Its opens and reads are counted, and so are its writes, each from 1. A call fails where its
/// number is listed, and past the end of the count.
#[derive(Drop)]
pub struct MemDesk {
    files: Vec<(String, Vec<u8>)>,
    reads: Calls,
    writes: Calls,
    session: Session,
    ghost truly: { Tells (file_named files.items) session },
}

impl MemDesk {
    ghost use Rattle.tg_base.specs.MemDesk.{reads_so_far, writes_so_far, failing_reads_of, failing_writes_of};

    /// A desk with these files. Where two have the same name, the later one is never read.
    pub fn new(
        alloc: Global,
        files: Vec<(String, Vec<u8>)>,
        failing_reads: Vec<u64>,
        failing_writes: Vec<u64>,
    ) -> MemDesk
        ensures files { (⟦<MemDesk as Desk>⟧.moment result).files ≡ Some (file_named files.items) }
        ensures asked { (⟦<MemDesk as Desk>⟧.moment result).asked ≡ [] }
        ensures opened { (⟦<MemDesk as Desk>⟧.moment result).opened ≡ [] }
        ensures readable { (⟦<MemDesk as Desk>⟧.moment result).readable ≡ false }
        ensures outputs { (out : Out) → (⟦<MemDesk as Desk>⟧.moment result).outputs out
            ≡ filled [] }
        ensures read_faults { (⟦<MemDesk as Desk>⟧.moment result).read_faults ≡ 0 }
        ensures write_faults { (⟦<MemDesk as Desk>⟧.moment result).write_faults ≡ 0 }

        // No call was made, and these are to fail.
        ensures reads { reads_so_far result ≡ 0 }
        ensures writes { writes_so_far result ≡ 0 }
        ensures failing_reads { failing_reads_of result ≡ failing_reads.items }
        ensures failing_writes { failing_writes_of result ≡ failing_writes.items }
    {
        MemDesk {
            files,
            reads: Calls::new(failing_reads),
            writes: Calls::new(failing_writes),
            session: Session::new(alloc),
        }
    }

    /// The bytes written to an output.
    pub fn written(&self, out: Out) -> &[u8]
        ensures { (⟦<MemDesk as Desk>⟧.moment self.now).outputs out ≡ filled result.now }
    {
        self.session.written(out)
    }
}

impl Desk for MemDesk {
    ghost use Rattle.tg_base.specs.MemDesk.{moment_of, files_of, left_in, reads_so_far, writes_so_far, failing_reads_of, failing_writes_of, OpenFails, ReadFails, WriteFails};

    ghost moment = { moment_of };

    fn open(&mut self, name: &str) -> Result<(), DeskFault>
        ensures opened { OnOk result ((moment_of self.new).opened
            ≡ (moment_of self.old).opened ++ just_opened name.now ∷ []) }
        ensures left { OnOk result (files_of self.old name.now ≡ Some (left_in self.new)) }
        ensures readable { (moment_of self.new).readable
            ≡ (is_ok result || (moment_of self.old).readable) }
        ensures asked { (moment_of self.new).asked
            ≡ (if wants_memory result then (moment_of self.old).asked
            else (moment_of self.old).asked ++ name.now ∷ []) }

        // It fails where it is to fail, unless memory runs out.
        ensures ok { IfOk result (λ _. OpenFails self.old name.now → ⊥) }
        ensures failed { IsErrOf result DeskFault.Failed → OpenFails self.old name.now }
        ensures faults { HasCause (moment_of self.old).read_faults
            (moment_of self.new).read_faults result }
        ensures reads { reads_so_far self.new ≡ counted (reads_so_far self.old) }

        // What stays.
        ensures opened_stays { OnErr result
            ((moment_of self.new).opened ≡ (moment_of self.old).opened) }
        ensures left_stays { OnErr result (left_in self.new ≡ left_in self.old) }
        ensures stays { KeepsWriting (moment_of self.old) (moment_of self.new) }
        ensures writes_stay { writes_so_far self.new ≡ writes_so_far self.old }
        ensures failing_reads_stay { failing_reads_of self.new ≡ failing_reads_of self.old }
        ensures failing_writes_stay { failing_writes_of self.new ≡ failing_writes_of self.old }
    {
        let fails = self.reads.next_fails();
        match file_named(&self.files, name) {
            Some(bytes) if !fails => {
                self.session.open(name, bytes)?;
                Ok(())
            }
            _ => {
                self.session.ask(name)?;
                self.reads.count_fault();
                Err(DeskFault::Failed)
            }
        }
    }

    fn read(&mut self, into: &mut [u8]) -> Result<usize, DeskFault>
        requires readable { IsTrue (moment_of self.old).readable }
        requires room { 0 < length into.old }
        // It moves as much as there is and as fits.
        ensures count { IfOk result (λ count. count
            ≡ min (length into.old) (length (left_in self.old))) }
        ensures bytes { IfOk result (λ count. take count into.new ≡ take count (left_in self.old)) }
        ensures left { IfOk result (λ count. left_in self.new ≡ drop count (left_in self.old)) }
        ensures moved { IfOk result (λ count. (moment_of self.new).opened
            ≡ after_read (moment_of self.old).opened (take count into.new)) }
        ensures behind { IfOk result (λ count. drop count into.new ≡ drop count into.old) }
        ensures readable { MatchResult result
            (λ count. (moment_of self.new).readable ≡ nat_lt 0 count)
            (λ _. (moment_of self.new).readable ≡ false) }

        // It fails exactly where it is to fail, and wants no memory.
        ensures failed { IsErrOf result DeskFault.Failed ↔ ReadFails self.old }
        ensures no_memory { result ≢ Err DeskFault.Memory }
        ensures faults { HasCause (moment_of self.old).read_faults
            (moment_of self.new).read_faults result }
        ensures reads { reads_so_far self.new ≡ counted (reads_so_far self.old) }

        // What stays.
        ensures opened_stays { OnErr result
            ((moment_of self.new).opened ≡ (moment_of self.old).opened) }
        ensures left_stays { OnErr result (left_in self.new ≡ left_in self.old) }
        ensures into_stays { OnErr result (into.new ≡ into.old) }
        ensures asked_stays { (moment_of self.new).asked ≡ (moment_of self.old).asked }
        ensures stays { KeepsWriting (moment_of self.old) (moment_of self.new) }
        ensures writes_stay { writes_so_far self.new ≡ writes_so_far self.old }
        ensures failing_reads_stay { failing_reads_of self.new ≡ failing_reads_of self.old }
        ensures failing_writes_stay { failing_writes_of self.new ≡ failing_writes_of self.old }
    {
        if self.reads.next_fails() {
            self.reads.count_fault();
            self.session.stop_reading();
            return Err(DeskFault::Failed);
        }
        Ok(self.session.read(into))
    }

    fn write(&mut self, out: Out, piece: &[u8]) -> Result<usize, DeskFault>
        requires { 0 < length piece.now }
        ensures whole { IfOk result (λ count. count ≡ length piece.now) }
        ensures taken { OnOk result ((moment_of self.new).outputs out
            ≡ output_after ((moment_of self.old).outputs out) piece.now) }

        // It fails exactly where it is to fail, unless memory runs out.
        ensures failed { IsErrOf result DeskFault.Failed ↔ WriteFails self.old }
        ensures faults { HasCause (moment_of self.old).write_faults
            (moment_of self.new).write_faults result }
        ensures writes { writes_so_far self.new ≡ counted (writes_so_far self.old) }

        // What stays.
        ensures out_stays { OnErr result
            ((moment_of self.new).outputs out ≡ (moment_of self.old).outputs out) }
        ensures others_stay { (other : Out) → other ≢ out
            → (moment_of self.new).outputs other ≡ (moment_of self.old).outputs other }
        ensures stays { KeepsReading (moment_of self.old) (moment_of self.new) }
        ensures left_stays { left_in self.new ≡ left_in self.old }
        ensures reads_stay { reads_so_far self.new ≡ reads_so_far self.old }
        ensures failing_reads_stay { failing_reads_of self.new ≡ failing_reads_of self.old }
        ensures failing_writes_stay { failing_writes_of self.new ≡ failing_writes_of self.old }
    {
        if self.writes.next_fails() {
            self.writes.count_fault();
            return Err(DeskFault::Failed);
        }
        self.session.append(out, piece)?;
        Ok(piece.len())
    }

    ghost tells_truly = { λ desk. tells_truly (files_of desk) _ desk.truly };
}

fn file_named<'a>(files: &'a [(String, Vec<u8>)], name: &str) -> Option<&'a [u8]>
    ensures { option_copied result ≡ file_named files.now name.now }
{
    let (_, bytes) = files.iter().find(|file| file.0.as_str() == name)?;
    Some(bytes.as_slice())
}
