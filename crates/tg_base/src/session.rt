//! What the desks in memory share: the names asked for, the files that were opened, the outputs.
ghost use Rattle.std.specs.Prelude.{◌≡◌, ◌≢◌, ◌++◌, [], ◌∷◌, ℕ, ◌<◌, List, Option, Some, min, take, drop, length, nat_lt, false, IsTrue, OnOk, OnErr};
ghost use Rattle.tg_base.specs.Moment.{after_read};
ghost use Rattle.tg_base.specs.Outputs.{bytes_at};
ghost use Rattle.tg_base.specs.Reading.{at_start};
ghost use Rattle.tg_base.specs.Session.{names_asked, readings_of, opened_of, is_readable, rest_of, Tells};
ghost use Rattle.tg_base.specs.declared.desk.Out.{Out};

use crate::desk::Out;
use crate::open_file::OpenFile;
use crate::outputs::Outputs;
use std::alloc::{AllocError, Global};

#[derive(Drop)]
pub(crate) struct Session {
    alloc: Global,
    asked: Vec<String>,
    /// The files that were opened before the open one.
    past: Vec<OpenFile>,
    file: Option<OpenFile>,
    outputs: Outputs,
}

impl Session {
    pub(crate) fn new(alloc: Global) -> Session
        ensures asked { names_asked result ≡ [] }
        ensures opened { readings_of result ≡ [] }
        ensures readable { is_readable result ≡ false }
        ensures outputs { (out : Out) → bytes_at result.outputs out ≡ [] }
    {
        Session {
            alloc,
            asked: Vec::new(alloc),
            past: Vec::new(alloc),
            file: None,
            outputs: Outputs::new(alloc),
        }
    }

    /// Notes a name that was asked for.
    pub(crate) fn ask(&mut self, name: &str) -> Result<(), AllocError>
        ensures asked { OnOk result (names_asked self.new ≡ names_asked self.old ++ name.now ∷ []) }
        ensures asked_stays { OnErr result (names_asked self.new ≡ names_asked self.old) }
        ensures past_stays { self.new.past ≡ self.old.past }
        ensures file_stays { self.new.file ≡ self.old.file }
        ensures outputs_stay { self.new.outputs ≡ self.old.outputs }
    {
        self.asked.push(String::from_str(self.alloc, name)?)?;
        Ok(())
    }

    /// Notes a name that was asked for, and opens a file of these bytes.
    pub(crate) fn open(&mut self, name: &str, bytes: &[u8]) -> Result<(), AllocError>
        ensures asked { OnOk result (names_asked self.new ≡ names_asked self.old ++ name.now ∷ []) }
        ensures opened { OnOk result
            (readings_of self.new ≡ readings_of self.old ++ at_start name.now bytes.now ∷ []) }
        ensures left { OnOk result (rest_of self.new ≡ bytes.now) }
        ensures told { (files : List ℕ → Option (List ℕ)) → files name.now ≡ Some bytes.now
            → Tells files self.old → Tells files self.new }
        ensures readable { OnOk result (IsTrue (is_readable self.new)) }

        // What stays.
        ensures asked_stays { OnErr result (names_asked self.new ≡ names_asked self.old) }
        ensures opened_stays { OnErr result (readings_of self.new ≡ readings_of self.old) }
        ensures left_stays { OnErr result (rest_of self.new ≡ rest_of self.old) }
        ensures readable_stays { OnErr result (is_readable self.new ≡ is_readable self.old) }
        ensures outputs_stay { self.new.outputs ≡ self.old.outputs }
    {
        let own_name = String::from_str(self.alloc, name)?;
        let file = OpenFile::at_start(own_name, Vec::from_slice(self.alloc, bytes)?);
        self.past.reserve(1)?;
        self.ask(name)?;
        if let Some(before) = self.file.replace(file) {
            if self.past.push(before).is_err() {
                unreachable!()
            }
        }
        Ok(())
    }

    #[tactic(auto, using(crate::proofs::ReadingLemmas::opened_after_read, crate::proofs::ReadingLemmas::read_are_of_files))]
    pub(crate) fn read(&mut self, into: &mut [u8]) -> usize
        requires { IsTrue (is_readable self.old) }
        ensures count { result ≡ min (length into.old) (length (rest_of self.old)) }
        ensures bytes { take result into.new ≡ take result (rest_of self.old) }
        ensures left { rest_of self.new ≡ drop result (rest_of self.old) }
        ensures moved { opened_of self.new
            ≡ after_read (opened_of self.old) (take result into.new) }
        ensures behind { drop result into.new ≡ drop result into.old }
        ensures readable { is_readable self.new ≡ nat_lt 0 result }
        ensures told { (files : List ℕ → Option (List ℕ)) → 0 < length into.old
            → Tells files self.old → Tells files self.new }

        // What stays.
        ensures asked_stays { self.new.asked ≡ self.old.asked }
        ensures outputs_stay { self.new.outputs ≡ self.old.outputs }
    {
        let Some(file) = &mut self.file else {
            unreachable!()
        };
        file.read(into)
    }

    /// A fault was met in reading.
    pub(crate) fn stop_reading(&mut self)
        ensures readable { is_readable self.new ≡ false }
        ensures opened_stays { opened_of self.new ≡ opened_of self.old }
        ensures left_stays { rest_of self.new ≡ rest_of self.old }
        ensures told { (files : List ℕ → Option (List ℕ))
            → Tells files self.old → Tells files self.new }
        ensures asked_stays { self.new.asked ≡ self.old.asked }
        ensures outputs_stay { self.new.outputs ≡ self.old.outputs }
    {
        if let Some(file) = &mut self.file {
            file.stop();
        }
    }

    pub(crate) fn append(&mut self, out: Out, piece: &[u8]) -> Result<(), AllocError>
        ensures appended { OnOk result
            (bytes_at self.new.outputs out ≡ bytes_at self.old.outputs out ++ piece.now) }
        ensures out_stays { OnErr result
            (bytes_at self.new.outputs out ≡ bytes_at self.old.outputs out) }
        ensures others_stay { (other : Out) → other ≢ out
            → bytes_at self.new.outputs other ≡ bytes_at self.old.outputs other }
        ensures stays { self.new ≡ record self.old { outputs = self.new.outputs } }
    {
        self.outputs.append(out, piece)
    }

    pub(crate) fn written(&self, out: Out) -> &[u8]
        ensures { result.now ≡ bytes_at self.now.outputs out }
    {
        self.outputs.at(out)
    }
}
