//! Why a text gives no record.

use std::alloc::AllocError;
use thiserror::Error;

/// Why a text gives no record.
#[derive(Debug, Drop, Error)]
pub enum ProofFault {
    /// The first line, from 1, up to which no text of a record is the same.
    #[error("line {0} cannot stand in a record")]
    Line(u32),
    #[error(transparent)]
    Memory(AllocError),
}
