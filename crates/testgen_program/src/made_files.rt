//! The files that were made here: the first write makes a file, and later ones append to it.
ghost use Rattle.std.specs.Prelude.{◌≡◌, ◌≢◌, ◌<◌, ◌≤◌, ℕ, List, false, true, length, take, None, IsSomeAnd, IfSome, Ok, OnOk, IfOk};
ghost use Rattle.std.specs.Io.KnownBytes.{WriteAppends};
ghost use Rattle.std.specs.String.{string_bytes};
ghost use Rattle.testgen_program.specs.Made.{is_made, name_of, HasGained};
ghost use Rattle.tg_base.specs.declared.desk.Out.{Out};

use crate::transfer::write_some;
use std::alloc::{AllocError, Global};
use std::collections::BTreeSet;
use std::fs::{self, Files, OpenOptions};
use tg_base::{DeskFault, Out};

/// The name of the file of the log of derivations, in the current folder.
const PROOFS: &str = "testgen.proofs";

/// The file of the output that was written last stays open.
#[derive(Drop)]
pub(crate) struct MadeFiles<R: Files> {
    alloc: Global,
    names: BTreeSet<String>,
    pub kept: Option<OutFile<R::File>>,
}

/// The file of an output, open at its end.
#[derive(Drop)]
pub(crate) struct OutFile<F> {
    pub out: Out,
    pub file: F,
}

impl<R: Files> MadeFiles<R> {
    pub(crate) fn new(alloc: Global) -> MadeFiles<R>
        ensures names { (name : List ℕ) → is_made result.names name ≡ false }
        ensures kept { result.kept ≡ None }
    {
        MadeFiles {
            alloc,
            names: BTreeSet::new(alloc),
            kept: None,
        }
    }

    /// Writes to the file of an output.
    pub(crate) fn write_some(
        &mut self,
        files: &R,
        out: Out,
        piece: &[u8],
    ) -> Result<usize, DeskFault>
        requires { 0 < length piece.now }
        ensures some { IfOk result (λ count. (0 < count) × (count ≤ length piece.now)) }
        ensures kept { OnOk result (IsSomeAnd self.new.kept (λ now. now.out ≡ out)) }
        ensures gained { IfOk result (λ count. IfSome self.new.kept
            (λ now. HasGained R.File.contents now.file (take count piece.now))) }
        ensures appended { IfSome self.old.kept (λ before. before.out ≡ out
            → IsSomeAnd self.new.kept (λ now. WriteAppends (R.File.contents before.file)
            (R.File.contents now.file) result piece.now)) }
    {
        let mut own = self.file_for(files, out)?;
        let answer = write_some(&mut own.file, piece);
        self.kept = Some(own);
        answer
    }

    /// The file of an output, at its end.
    fn file_for(&mut self, files: &R, out: Out) -> Result<OutFile<R::File>, DeskFault>
        ensures own { IfOk result (λ own. own.out ≡ out) }
        ensures goes_on { IfSome self.old.kept (λ before. before.out ≡ out → result ≡ Ok before) }
    {
        if let Some(own) = self.kept.take() {
            if own.out == out {
                return Ok(own);
            }
        }
        let name = file_name(self.alloc, out)?;
        let file = self.make(files, name.as_str())?;
        Ok(OutFile { out, file })
    }

    /// A file is noted only once it is made, so that a file of somebody else is never appended to.
    fn make(&mut self, files: &R, name: &str) -> Result<R::File, DeskFault>
        ensures made { OnOk result (is_made self.new.names name.now ≡ true) }
        ensures others_stay { (other : List ℕ) → other ≢ name.now
            → is_made self.new.names other ≡ is_made self.old.names other }
        ensures kept_stays { self.new.kept ≡ self.old.kept }
    {
        if self.names.contains(name) {
            return OpenOptions::new()
                .append(true)
                .open(files, name)
                .map_err(|_| DeskFault::Failed);
        }
        let file = fs::create(files, name).map_err(|_| DeskFault::Failed)?;
        let name = String::from_str(self.alloc, name)?;
        match self.names.insert(name) {
            Ok(_) => Ok(file),
            Err(_) => Err(DeskFault::Memory),
        }
    }
}

/// The name of the file of an output.
fn file_name(alloc: Global, out: Out) -> Result<String, AllocError>
    ensures { IfOk result (λ name. string_bytes name ≡ name_of out) }
{
    match out {
        Out::Test(number) => format!(in alloc; "test_{number}.stf"),
        _ => String::from_str(alloc, PROOFS),
    }
}
