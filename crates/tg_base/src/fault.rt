//! What a pass over a source answers in place of its result: a refusal, or want of memory.

use crate::place::Refusal;
use std::alloc::AllocError;
use thiserror::Error;

/// Why a pass over a source gives no result.
#[derive(Debug, Drop, Error)]
pub enum Fault {
    #[error("refused {} {} at {}:{}", .0.code.number(), .0.code.name(), .0.line, .0.column)]
    Refused(Refusal),
    #[error("out of memory")]
    Memory(AllocError),
}
