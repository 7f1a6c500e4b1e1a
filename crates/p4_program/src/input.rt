//! Inputs of the switch: a port and a packet.
ghost use Rattle.std.specs.Prelude.{◌↔◌, IsTrue};
ghost use Rattle.p4_program.specs.Input.{Bounded};

use crate::bounds::Bounds;
use crate::program::Program;
use sqlite_items::Items;

/// The greatest port of an input; the next one stands for a drop.
pub const MAX_PORT: u16 = 510;

/// How many bytes the packet of the opening input has where the bounds allow them: those of an
/// Ethernet header.
pub const OPENING_BYTES: u16 = 14;

/// A list of bytes.
pub type Bytes = Items<u8>;

/// What a run starts from: a packet, and the port where it comes in. No table takes entries yet.
#[derive(Debug, Drop)]
pub struct Input {
    pub port: u16,
    pub packet: Bytes,
}

/// Whether the input is one that the bounds allow for this program.
pub fn bounded(_program: &Program, bounds: Bounds, input: &Input) -> bool
    ensures { IsTrue result ↔ Bounded _program.now bounds input.now }
{
    let packet = input.packet.as_slice();
    input.port <= MAX_PORT && !packet.is_empty() && packet.len() <= usize::from(bounds.bytes)
}
