//! The bytes of the source, read through the desk. `Failed` says here that an open or a read
//! failed.
ghost use Rattle.std.specs.Prelude.{◌≡◌, take, length, MatchResult};
ghost use Rattle.tg_base.specs.Faults.{HasCause};
ghost use Rattle.tg_base.specs.Moment.{KeepsWriting};
ghost use Rattle.testgen_engine.specs.Source.{ReadsSource, StopsReading};

use std::alloc::Global;
use tg_base::{Desk, DeskFault};

/// The most bytes that a source may have.
pub const MAX_BYTES: usize = 262_144;

/// The most bytes that are taken of a source: one more than it may have.
pub const MOST_BYTES: usize = MAX_BYTES + 1;

/// Opens the source of this name, moves its bytes to the front of the buffer until its end is met
/// or the buffer is full, and answers how many.
fn read_into<D: Desk>(desk: &mut D, name: &str, buffer: &mut [u8]) -> Result<usize, DeskFault>
    requires { length buffer.old ≡ MOST_BYTES }
    ensures read { MatchResult result
        (λ len. ReadsSource (D.moment desk.old) (D.moment desk.new) name.now (take len buffer.new))
        (StopsReading (D.moment desk.old) (D.moment desk.new) name.now) }
    ensures faults { HasCause (D.moment desk.old).read_faults
        (D.moment desk.new).read_faults result }
    ensures stays { KeepsWriting (D.moment desk.old) (D.moment desk.new) }
{
    desk.open(name)?;
    let mut len = 0;
    while len < buffer.len() {
        let count = desk.read(&mut buffer[len..])?;
        if count == 0 {
            return Ok(len);
        }
        len += count;
    }
    Ok(len)
}

/// Opens the source of this name and reads it, up to `MOST_BYTES`.
pub fn read_source<D: Desk>(alloc: Global, name: &str, desk: &mut D) -> Result<Vec<u8>, DeskFault>
    ensures read { MatchResult result
        (λ bytes. ReadsSource (D.moment desk.old) (D.moment desk.new) name.now bytes.items)
        (StopsReading (D.moment desk.old) (D.moment desk.new) name.now) }
    ensures faults { HasCause (D.moment desk.old).read_faults
        (D.moment desk.new).read_faults result }
    ensures stays { KeepsWriting (D.moment desk.old) (D.moment desk.new) }
{
    let mut bytes = vec![in alloc; 0u8; MOST_BYTES]?;
    let len = read_into(desk, name, bytes.as_mut_slice())?;
    bytes.truncate(len);
    Ok(bytes)
}
