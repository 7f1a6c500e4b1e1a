//! A desk in memory that takes sixteen bytes a write at most, and does not tell its files.
ghost use Rattle.std.specs.Prelude.{None};

use std::alloc::{AllocError, Global};
use tg_base::{Desk, DeskFault, MemDesk, Out};

/// How many bytes a write takes at most.
const SHARE: usize = 16;

#[derive(Drop)]
pub(crate) struct SparingDesk {
    desk: MemDesk,
}

impl SparingDesk {
    /// A desk with this source under the name `a.p4`, at which one write fails.
    pub(crate) fn new(
        alloc: Global,
        source: Vec<u8>,
        failing_write: u64,
    ) -> Result<SparingDesk, AllocError> {
        let files = vec![in alloc; (String::from_str(alloc, "a.p4")?, source)]?;
        let writes = vec![in alloc; failing_write]?;
        let desk = MemDesk::new(alloc, files, Vec::new(alloc), writes);
        Ok(SparingDesk { desk })
    }

    pub(crate) fn desk(&self) -> &MemDesk {
        &self.desk
    }
}

impl Desk for SparingDesk {
    ghost moment = { λ desk. record (⟦<MemDesk as Desk>⟧.moment desk.desk) { files = None } };

    fn open(&mut self, name: &str) -> Result<(), DeskFault> {
        self.desk.open(name)
    }

    fn read(&mut self, into: &mut [u8]) -> Result<usize, DeskFault> {
        self.desk.read(into)
    }

    fn write(&mut self, out: Out, piece: &[u8]) -> Result<usize, DeskFault> {
        let share = piece.len().min(SHARE);
        self.desk.write(out, &piece[..share])
    }

    ghost tells_truly = { λ desk. tt };
}
