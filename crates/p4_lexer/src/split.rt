//! A text split into its words and changes of the macros, with the fault of its parts that decides.
ghost use Rattle.std.specs.Prelude.{◌-◌, ◌<◌, ◌^◌, length, IfOk};
ghost use Rattle.p4_lexer.specs.Scanning.{IsSplit};

use crate::extents::Split;
use crate::faults::{first_of, open_fault, text_fault};
use crate::parts::read_text;
use std::alloc::{AllocError, Global};

/// Splits a text.
pub(crate) fn split(alloc: Global, text: &[u8]) -> Result<Split, AllocError>
    requires { length text.now < 2 ^ 32 - 1 }
    ensures { IfOk result (λ s. IsSplit text.now s.events s.fault) }
{
    let read = read_text(alloc, text)?;
    let open = open_fault(read.scope.conditions.as_slice());
    let parts = first_of(read.fault, open);
    let fault = first_of(text_fault(text), parts);
    Ok(Split {
        events: read.events,
        fault,
    })
}
