//! A desk in memory at which no call fails.
ghost use Rattle.std.specs.Prelude.{◌≡◌, ◌≢◌, [], ◌∷◌, ◌++◌, ◌||◌, ◌<◌, Some, length, min, take, drop, is_ok, nat_lt, false, IsTrue, IsOk, OnOk, OnErr, IfOk, if◌then◌else◌};
ghost use Rattle.std.specs.String.{string_bytes};
ghost use Rattle.tg_base.specs.Telling.{tells_truly};
ghost use Rattle.tg_base.specs.Files.{source_or_test, two_files};
ghost use Rattle.tg_base.specs.Moment.{KeepsReading, KeepsWriting, just_opened, after_read, output_after};
ghost use Rattle.tg_base.specs.Outputs.{filled};
ghost use Rattle.tg_base.specs.Session.{readings_of, Tells};
ghost use Rattle.tg_base.specs.declared.desk.Out.{Out};

use crate::desk::{Desk, DeskFault, Out};
use crate::session::Session;
use std::alloc::Global;

/// A desk that holds a source, a test and its outputs in memory and tells them all. Only memory can
/// run out.
#[derive(Drop)]
pub struct CalmDesk {
    name: String,
    source: Vec<u8>,
    test: Vec<u8>,
    session: Session,
    ghost truly: { Tells (two_files (string_bytes name) source.items test.items) session },
}

impl CalmDesk {
    /// A desk on which the name leads to the source, and any other name to the test.
    pub fn new(alloc: Global, name: String, source: Vec<u8>, test: Vec<u8>) -> CalmDesk
        ensures files { (⟦<CalmDesk as Desk>⟧.moment result).files
            ≡ Some (two_files (string_bytes name) source.items test.items) }
        ensures asked { (⟦<CalmDesk as Desk>⟧.moment result).asked ≡ [] }
        ensures opened { (⟦<CalmDesk as Desk>⟧.moment result).opened ≡ [] }
        ensures readable { (⟦<CalmDesk as Desk>⟧.moment result).readable ≡ false }
        ensures outputs { (out : Out) → (⟦<CalmDesk as Desk>⟧.moment result).outputs out
            ≡ filled [] }
        ensures read_faults { (⟦<CalmDesk as Desk>⟧.moment result).read_faults ≡ 0 }
        ensures write_faults { (⟦<CalmDesk as Desk>⟧.moment result).write_faults ≡ 0 }
    {
        CalmDesk {
            name,
            source,
            test,
            session: Session::new(alloc),
        }
    }

    /// The bytes written to an output.
    pub fn written(&self, out: Out) -> &[u8]
        ensures { (⟦<CalmDesk as Desk>⟧.moment self.now).outputs out ≡ filled result.now }
    {
        self.session.written(out)
    }
}

impl Desk for CalmDesk {
    ghost use Rattle.tg_base.specs.CalmDesk.{moment_of, files_of, left_in};

    ghost moment = { moment_of };

    fn open(&mut self, name: &str) -> Result<(), DeskFault>
        ensures opened { OnOk result ((moment_of self.new).opened
            ≡ (moment_of self.old).opened ++ just_opened name.now ∷ []) }
        ensures left { OnOk result (files_of self.old name.now ≡ Some (left_in self.new)) }
        ensures readable { (moment_of self.new).readable
            ≡ (is_ok result || (moment_of self.old).readable) }
        ensures asked { (moment_of self.new).asked ≡ (if is_ok result
            then (moment_of self.old).asked ++ name.now ∷ [] else (moment_of self.old).asked) }
        ensures never_failed { result ≢ Err DeskFault.Failed }

        // What stays.
        ensures opened_stays { OnErr result
            ((moment_of self.new).opened ≡ (moment_of self.old).opened) }
        ensures left_stays { OnErr result (left_in self.new ≡ left_in self.old) }
        ensures stays { KeepsWriting (moment_of self.old) (moment_of self.new) }
    {
        let bytes = source_or_test(self.name.as_str(), &self.source, &self.test, name);
        self.session.open(name, bytes)?;
        Ok(())
    }

    fn read(&mut self, into: &mut [u8]) -> Result<usize, DeskFault>
        requires readable { IsTrue (moment_of self.old).readable }
        requires room { 0 < length into.old }
        ensures never_fails { IsOk result }
        // It moves as much as there is and as fits.
        ensures count { IfOk result (λ count. count
            ≡ min (length into.old) (length (left_in self.old))) }
        ensures bytes { IfOk result (λ count. take count into.new ≡ take count (left_in self.old)) }
        ensures left { IfOk result (λ count. left_in self.new ≡ drop count (left_in self.old)) }
        ensures moved { IfOk result (λ count. (moment_of self.new).opened
            ≡ after_read (moment_of self.old).opened (take count into.new)) }
        ensures behind { IfOk result (λ count. drop count into.new ≡ drop count into.old) }
        ensures readable { IfOk result (λ count. (moment_of self.new).readable ≡ nat_lt 0 count) }

        // What stays.
        ensures asked_stays { (moment_of self.new).asked ≡ (moment_of self.old).asked }
        ensures stays { KeepsWriting (moment_of self.old) (moment_of self.new) }
    {
        Ok(self.session.read(into))
    }

    fn write(&mut self, out: Out, piece: &[u8]) -> Result<usize, DeskFault>
        requires { 0 < length piece.now }
        ensures whole { IfOk result (λ count. count ≡ length piece.now) }
        ensures taken { OnOk result ((moment_of self.new).outputs out
            ≡ output_after ((moment_of self.old).outputs out) piece.now) }
        ensures never_failed { result ≢ Err DeskFault.Failed }

        // What stays.
        ensures out_stays { OnErr result
            ((moment_of self.new).outputs out ≡ (moment_of self.old).outputs out) }
        ensures others_stay { (other : Out) → other ≢ out
            → (moment_of self.new).outputs other ≡ (moment_of self.old).outputs other }
        ensures stays { KeepsReading (moment_of self.old) (moment_of self.new) }
        ensures left_stays { left_in self.new ≡ left_in self.old }
    {
        self.session.append(out, piece)?;
        Ok(piece.len())
    }

    ghost tells_truly = { λ desk. tells_truly (files_of desk) _ desk.truly };
}

fn source_or_test<'a>(own: &str, source: &'a [u8], test: &'a [u8], name: &str) -> &'a [u8]
    ensures { result.now ≡ source_or_test own.now source.now test.now name.now }
{
    if own == name { source } else { test }
}
