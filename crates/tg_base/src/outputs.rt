//! The bytes written to each output of a desk in memory.
ghost use Rattle.std.specs.Prelude.{◌≡◌, ◌≢◌, ◌++◌, [], ℕ, OnOk, OnErr};
ghost use Rattle.tg_base.specs.declared.desk.Out.{Out};
ghost use Rattle.tg_base.specs.Outputs.{bytes_at, test_bytes};

use crate::desk::Out;
use std::alloc::{AllocError, Global};
use std::collections::BTreeMap;

#[derive(Drop)]
pub(crate) struct Outputs {
    alloc: Global,
    report: Vec<u8>,
    proofs: Vec<u8>,
    notes: Vec<u8>,
    /// By number. A test that is not here has no bytes.
    tests: BTreeMap<u32, Vec<u8>>,
}

impl Outputs {
    pub(crate) fn new(alloc: Global) -> Outputs
        ensures { (out : Out) → bytes_at result out ≡ [] }
    {
        Outputs {
            alloc,
            report: Vec::new(alloc),
            proofs: Vec::new(alloc),
            notes: Vec::new(alloc),
            tests: BTreeMap::new(alloc),
        }
    }

    pub(crate) fn at(&self, out: Out) -> &[u8]
        ensures { result.now ≡ bytes_at self.now out }
    {
        match out {
            Out::Report => self.report.as_slice(),
            Out::Proofs => self.proofs.as_slice(),
            Out::Notes => self.notes.as_slice(),
            Out::Test(number) => match self.tests.get(&number) {
                Some(bytes) => bytes.as_slice(),
                None => &[],
            },
        }
    }

    pub(crate) fn append(&mut self, out: Out, piece: &[u8]) -> Result<(), AllocError>
        ensures appended { OnOk result
            (bytes_at self.new out ≡ bytes_at self.old out ++ piece.now) }
        ensures out_stays { OnErr result (bytes_at self.new out ≡ bytes_at self.old out) }
        ensures others_stay { (other : Out) → other ≢ out
            → bytes_at self.new other ≡ bytes_at self.old other }
    {
        match out {
            Out::Report => self.report.extend_from_slice(piece),
            Out::Proofs => self.proofs.extend_from_slice(piece),
            Out::Notes => self.notes.extend_from_slice(piece),
            Out::Test(number) => append_to_test(&mut self.tests, self.alloc, number, piece),
        }
    }
}

fn append_to_test(
    tests: &mut BTreeMap<u32, Vec<u8>>,
    alloc: Global,
    number: u32,
    piece: &[u8],
) -> Result<(), AllocError>
    ensures appended { OnOk result
        (test_bytes tests.new number ≡ test_bytes tests.old number ++ piece.now) }
    ensures stays { OnErr result (test_bytes tests.new number ≡ test_bytes tests.old number) }
    ensures others_stay { (other : ℕ) → other ≢ number
        → test_bytes tests.new other ≡ test_bytes tests.old other }
{
    let bytes = tests.entry(number)?.or_insert(Vec::new(alloc));
    bytes.extend_from_slice(piece)
}
