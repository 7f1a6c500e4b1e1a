//! The opening input, which is tried before any search.
ghost use Rattle.std.specs.Prelude.{◌≡◌, IfOk};
ghost use Rattle.p4_program.specs.BoundedInput.{BoundedInput, opening};
ghost use Rattle.p4_program.specs.Syntax.Programs.{CoreProgram};

use crate::bounds::Bounds;
use crate::input::OPENING_BYTES;
use crate::typed::input::Input;
use sqlite_items::Items;
use std::alloc::{AllocError, Global};

/// The opening input: zero bytes at port 0, and no entries. The bounds allow it for each program.
pub fn opening(alloc: Global, bounds: Bounds) -> Result<Input, AllocError>
    ensures input { IfOk result (λ input. input ≡ opening bounds) }
    ensures bounded { IfOk result (λ input. (p : CoreProgram) → BoundedInput p bounds input) }
{
    let count = usize::from(bounds.bytes.min(OPENING_BYTES));
    let packet = Items::from_vec(vec![in alloc; 0u8; count]?);
    Ok(Input {
        port: 0,
        packet,
        entries: Items::new(alloc),
    })
}
