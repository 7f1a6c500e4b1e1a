//! The desk over real files and streams, at the edge of what is proved: what the system does with
//! names and bytes is trusted.
ghost use Rattle.std.specs.Prelude.{◌≡◌, ◌≢◌, [], ◌∷◌, ◌++◌, ◌<◌, ◌≤◌, ◌||◌, ◌&&◌, None, false, is_ok, is_some, nat_lt, length, min, take, drop, IsTrue, IsSomeAnd, IfSome, OnOk, OnErr, IfOk, MatchResult, if◌then◌else◌};
ghost use Rattle.tg_base.specs.Answer.{wants_memory};
ghost use Rattle.tg_base.specs.Faults.{HasCause};
ghost use Rattle.tg_base.specs.Moment.{KeepsReading, KeepsWriting, just_opened, after_read, output_after};
ghost use Rattle.tg_base.specs.declared.desk.Out.{Out};
ghost use Rattle.std.specs.Io.KnownBytes.{WriteAppends, Consumes};
ghost use Rattle.testgen_program.specs.History.{moment_at, has_file, untold};
ghost use Rattle.testgen_program.specs.Made.{has_own_file, HasGained};
ghost use Rattle.testgen_program.specs.Streams.{Reaches, MovesOut};

#[cfg(test)]
mod tests;

use crate::history::History;
use crate::made_files::MadeFiles;
use crate::transfer::{read_some, write_some};
use std::alloc::Global;
use std::fs::{self, Files};
use std::io::Write;
use tg_base::{Desk, DeskFault, Out};

/// How many bytes a read asks the system for at most.
const PIECE: usize = 4096;

/// Files of the current folder, and a stream each for the report and the notes.
///
/// A stream must hold nothing back: what it takes counts as written.
#[derive(Drop)]
pub struct FileDesk<R: Files, W, N> {
    files: R,
    report: W,
    notes: N,
    /// The file that is read, while it is readable.
    source: Option<R::File>,
    made: MadeFiles<R>,
    history: History,
    ghost noted: { IsTrue (is_some source) → IsTrue (has_file history) },
}

impl<R: Files, W, N> FileDesk<R, W, N> {
    pub fn new(alloc: Global, files: R, report: W, notes: N) -> FileDesk<R, W, N>
        ensures report { result.report ≡ report }
        ensures notes { result.notes ≡ notes }
        ensures readable { is_some result.source ≡ false }
        ensures asked { (moment_at result.history false).asked ≡ [] }
        ensures opened { (moment_at result.history false).opened ≡ [] }
        ensures outputs { (out : Out) → (moment_at result.history false).outputs out ≡ untold [] }
        ensures read_faults { (moment_at result.history false).read_faults ≡ 0 }
        ensures write_faults { (moment_at result.history false).write_faults ≡ 0 }
    {
        FileDesk {
            files,
            report,
            notes,
            source: None,
            made: MadeFiles::new(alloc),
            history: History::new(alloc),
        }
    }
}

impl<R: Files, W: Write, N: Write> FileDesk<R, W, N> {
    /// Writes some of the piece where the output goes.
    fn write_some(&mut self, out: Out, piece: &[u8]) -> Result<usize, DeskFault>
        requires { 0 < length piece.now }
        ensures some { IfOk result (λ count. (0 < count) × (count ≤ length piece.now)) }
        ensures report { Reaches Out.Report out (W.contents self.old.report)
            (W.contents self.new.report) result piece.now }
        ensures notes { Reaches Out.Notes out (N.contents self.old.notes)
            (N.contents self.new.notes) result piece.now }
        ensures kept { IsTrue (has_own_file out) → OnOk result
            (IsSomeAnd self.new.made.kept (λ now. now.out ≡ out)) }
        ensures gained { IsTrue (has_own_file out) → IfOk result (λ count. IfSome self.new.made.kept
            (λ now. HasGained R.File.contents now.file (take count piece.now))) }
        ensures appended { IsTrue (has_own_file out) → IfSome self.old.made.kept (λ before.
            before.out ≡ out → IsSomeAnd self.new.made.kept (λ now.
            WriteAppends (R.File.contents before.file) (R.File.contents now.file) result piece.now)) }
        ensures kept_stays { has_own_file out ≡ false → self.new.made.kept ≡ self.old.made.kept }
        ensures source_stays { self.new.source ≡ self.old.source }
        ensures history_stays { self.new.history ≡ self.old.history }
    {
        match out {
            Out::Report => write_some(&mut self.report, piece),
            Out::Notes => write_some(&mut self.notes, piece),
            Out::Proofs | Out::Test(_) => self.made.write_some(&self.files, out, piece),
        }
    }
}

impl<R: Files + Drop, W: Write + Drop, N: Write + Drop> Desk for FileDesk<R, W, N> {
    ghost moment = { λ desk. moment_at desk.history (is_some desk.source) };

    fn open(&mut self, name: &str) -> Result<(), DeskFault>
        ensures opened { OnOk result ((moment_at self.new.history false).opened
            ≡ (moment_at self.old.history false).opened ++ just_opened name.now ∷ []) }
        ensures readable { is_some self.new.source ≡ (is_ok result || is_some self.old.source) }
        ensures asked { (moment_at self.new.history false).asked
            ≡ (if wants_memory result then (moment_at self.old.history false).asked
            else (moment_at self.old.history false).asked ++ name.now ∷ []) }
        ensures faults { HasCause (moment_at self.old.history false).read_faults
            (moment_at self.new.history false).read_faults result }

        // What stays.
        ensures opened_stays { OnErr result ((moment_at self.new.history false).opened
            ≡ (moment_at self.old.history false).opened) }
        ensures stays { KeepsWriting (moment_at self.old.history false)
            (moment_at self.new.history false) }
    {
        match fs::open(&self.files, name) {
            Ok(file) => {
                self.history.open(name)?;
                self.source = Some(file);
                Ok(())
            }
            Err(_) => {
                self.history.ask(name)?;
                self.history.read_faults = self.history.read_faults.saturating_add(1);
                Err(DeskFault::Failed)
            }
        }
    }

    fn read(&mut self, into: &mut [u8]) -> Result<usize, DeskFault>
        requires readable { IsTrue (is_some self.old.source) }
        requires room { 0 < length into.old }
        ensures within { IfOk result (λ count. count ≤ length into.old) }
        // What it moves is what the file had left, where the file tells.
        ensures bytes { IfSome self.old.source (λ before.
            MovesOut (R.File.remaining before) result into.new) }
        ensures left { IfSome self.old.source (λ before. IfSome self.new.source (λ now.
            IfOk result (λ count. Consumes (R.File.remaining before) (R.File.remaining now)
            (take count into.new)))) }
        ensures moved { IfOk result (λ count. (moment_at self.new.history false).opened
            ≡ after_read (moment_at self.old.history false).opened (take count into.new)) }
        ensures behind { IfOk result (λ count. drop count into.new ≡ drop count into.old) }
        ensures readable { MatchResult result (λ count. is_some self.new.source ≡ nat_lt 0 count)
            (λ _. is_some self.new.source ≡ false) }
        ensures faults { HasCause (moment_at self.old.history false).read_faults
            (moment_at self.new.history false).read_faults result }

        // What stays.
        ensures opened_stays { OnErr result ((moment_at self.new.history false).opened
            ≡ (moment_at self.old.history false).opened) }
        ensures into_stays { OnErr result (into.new ≡ into.old) }
        ensures asked_stays { (moment_at self.new.history false).asked
            ≡ (moment_at self.old.history false).asked }
        ensures stays { KeepsWriting (moment_at self.old.history false)
            (moment_at self.new.history false) }
    {
        let Some(file) = &mut self.source else {
            unreachable!()
        };
        let mut piece = [0; PIECE];
        let room = into.len().min(PIECE);
        match read_some(file, &mut piece[..room]) {
            Ok(count) => {
                into[..count].copy_from_slice(&piece[..count]);
                if count == 0 {
                    self.source = None;
                }
                self.history.note_moved(&into[..count]);
                Ok(count)
            }
            Err(_) => {
                self.source = None;
                self.history.read_faults = self.history.read_faults.saturating_add(1);
                Err(DeskFault::Failed)
            }
        }
    }

    fn write(&mut self, out: Out, piece: &[u8]) -> Result<usize, DeskFault>
        requires { 0 < length piece.now }
        ensures some { IfOk result (λ count. (0 < count) × (count ≤ length piece.now)) }
        ensures taken { IfOk result (λ count. (moment_at self.new.history false).outputs out
            ≡ output_after ((moment_at self.old.history false).outputs out)
            (take count piece.now)) }

        // Where a stream or a file tells what it holds: it has what was taken, and nothing else.
        ensures report { Reaches Out.Report out (W.contents self.old.report)
            (W.contents self.new.report) result piece.now }
        ensures notes { Reaches Out.Notes out (N.contents self.old.notes)
            (N.contents self.new.notes) result piece.now }
        ensures kept { IsTrue (has_own_file out) → OnOk result
            (IsSomeAnd self.new.made.kept (λ now. now.out ≡ out)) }
        ensures gained { IsTrue (has_own_file out) → IfOk result (λ count. IfSome self.new.made.kept
            (λ now. HasGained R.File.contents now.file (take count piece.now))) }
        ensures appended { IsTrue (has_own_file out) → IfSome self.old.made.kept (λ before.
            before.out ≡ out → IsSomeAnd self.new.made.kept (λ now.
            WriteAppends (R.File.contents before.file) (R.File.contents now.file) result piece.now)) }
        ensures kept_stays { has_own_file out ≡ false → self.new.made.kept ≡ self.old.made.kept }

        ensures faults { HasCause (moment_at self.old.history false).write_faults
            (moment_at self.new.history false).write_faults result }

        // What stays.
        ensures out_stays { OnErr result ((moment_at self.new.history false).outputs out
            ≡ (moment_at self.old.history false).outputs out) }
        ensures others_stay { (other : Out) → other ≢ out
            → (moment_at self.new.history false).outputs other
            ≡ (moment_at self.old.history false).outputs other }
        ensures stays { KeepsReading (moment_at self.old.history (is_some self.old.source))
            (moment_at self.new.history (is_some self.new.source)) }
    {
        match self.write_some(out, piece) {
            Ok(count) => {
                self.history.taken.note(out, &piece[..count]);
                Ok(count)
            }
            Err(DeskFault::Failed) => {
                self.history.write_faults = self.history.write_faults.saturating_add(1);
                Err(DeskFault::Failed)
            }
            Err(DeskFault::Memory) => Err(DeskFault::Memory),
        }
    }

    ghost tells_truly = { λ desk. tt };
}
