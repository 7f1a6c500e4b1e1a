//! The records that wait to be written.
ghost use Rattle.std.specs.Prelude.{◌≡◌, [], ◌∷◌, ◌++◌, OnOk, OnErr};

use crate::record::Record;
use std::alloc::{AllocError, Global};
use std::marker::Model;

/// Records in the order in which they came.
#[derive(Debug, Drop)]
pub struct ProofLog {
    records: Vec<Record>,
}

impl Model for ProofLog {
    ghost use Rattle.std.specs.Prelude.{List};
    ghost use Rattle.proof_stream.specs.declared.record.Record.{Record};

    ghost Value = { List Record };

    ghost view = { λ log. log.records.items };
}

impl ProofLog {
    /// A log with no record.
    pub fn new(alloc: Global) -> ProofLog
        ensures { result ≡ [] }
    {
        ProofLog {
            records: Vec::new(alloc),
        }
    }

    /// Puts the record last.
    pub fn add(&mut self, r: Record) -> Result<(), AllocError>
        ensures last { OnOk result (self.new ≡ self.old ++ r ∷ []) }
        ensures stays { OnErr result (self.new ≡ self.old) }
    {
        self.records.push(r)?;
        Ok(())
    }

    /// The records, the earliest first.
    pub fn records(&self) -> &[Record]
        ensures { result.now ≡ self.now }
    {
        self.records.as_slice()
    }

    /// Drops every record.
    pub fn clear(&mut self)
        ensures { self.new ≡ [] }
    {
        self.records.clear();
    }
}
