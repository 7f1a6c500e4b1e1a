//! What has passed through a desk: the names asked for, the files that were opened with what was
//! moved out of them, what each output has taken, and the counts of faults.
ghost use Rattle.std.specs.Prelude.{◌≡◌, ◌≢◌, ◌++◌, [], ◌∷◌, false, true, is_some, OnOk, OnErr, IsTrue};
ghost use Rattle.tg_base.specs.Moment.{just_opened, after_read};
ghost use Rattle.tg_base.specs.declared.desk.Out.{Out};
ghost use Rattle.testgen_program.specs.Taken.{taken_by};
ghost use Rattle.testgen_program.specs.History.{names_asked, opened_of, has_file};

use crate::opened_file::OpenedFile;
use crate::taken::Taken;
use std::alloc::{AllocError, Global};

/// Of bytes it keeps none: their histories are of proofs alone.
#[derive(Drop)]
pub(crate) struct History {
    alloc: Global,
    asked: Vec<String>,
    /// The files that were opened before the last one.
    past: Vec<OpenedFile>,
    last: Option<OpenedFile>,
    pub taken: Taken,
    pub read_faults: u64,
    pub write_faults: u64,
}

impl History {
    pub(crate) fn new(alloc: Global) -> History
        ensures asked { names_asked result ≡ [] }
        ensures opened { opened_of result ≡ [] }
        ensures taken { (out : Out) → taken_by result.taken out ≡ [] }
        ensures read_faults { result.read_faults ≡ 0 }
        ensures write_faults { result.write_faults ≡ 0 }
    {
        History {
            alloc,
            asked: Vec::new(alloc),
            past: Vec::new(alloc),
            last: None,
            taken: Taken::new(),
            read_faults: 0,
            write_faults: 0,
        }
    }

    /// Notes a name that was asked for.
    pub(crate) fn ask(&mut self, name: &str) -> Result<(), AllocError>
        ensures asked { OnOk result (names_asked self.new ≡ names_asked self.old ++ name.now ∷ []) }
        ensures asked_stays { OnErr result (names_asked self.new ≡ names_asked self.old) }
        ensures stays { self.new ≡ record self.old { asked = self.new.asked } }
    {
        self.asked.push(String::from_str(self.alloc, name)?)?;
        Ok(())
    }

    /// Notes a name that was asked for and a file of that name that was opened.
    pub(crate) fn open(&mut self, name: &str) -> Result<(), AllocError>
        ensures asked { OnOk result (names_asked self.new ≡ names_asked self.old ++ name.now ∷ []) }
        ensures opened { OnOk result
            (opened_of self.new ≡ opened_of self.old ++ just_opened name.now ∷ []) }
        ensures has_file { OnOk result (has_file self.new ≡ true) }

        // What stays.
        ensures asked_stays { OnErr result (names_asked self.new ≡ names_asked self.old) }
        ensures opened_stays { OnErr result (opened_of self.new ≡ opened_of self.old) }
        ensures has_file_stays { OnErr result (has_file self.new ≡ has_file self.old) }
        ensures taken_stays { self.new.taken ≡ self.old.taken }
        ensures read_faults_stay { self.new.read_faults ≡ self.old.read_faults }
        ensures write_faults_stay { self.new.write_faults ≡ self.old.write_faults }
    {
        let file = OpenedFile::just_opened(String::from_str(self.alloc, name)?);
        self.past.reserve(1)?;
        self.ask(name)?;
        if let Some(before) = self.last.replace(file) {
            if self.past.push(before).is_err() {
                unreachable!()
            }
        }
        Ok(())
    }

    /// Notes what a read moved out of the last file.
    #[tactic(auto, using(crate::proofs::HistoryLemmas::moved_last))]
    pub(crate) fn note_moved(&mut self, bytes: &[u8])
        requires { IsTrue (has_file self.old) }
        ensures moved { opened_of self.new ≡ after_read (opened_of self.old) bytes.now }
        ensures stays { self.new ≡ record self.old { last = self.new.last } }
        ensures has_file_stays { has_file self.new ≡ has_file self.old }
    {
        let Some(file) = &mut self.last else {
            unreachable!()
        };
        file.note(bytes);
    }
}
