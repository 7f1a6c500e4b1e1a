//! One read and one write of a file or a stream, made again where a signal interrupts them.
ghost use Rattle.std.specs.Prelude.{◌<◌, ◌≤◌, length, IfOk};
ghost use Rattle.std.specs.Io.{ReadsAtMost};
ghost use Rattle.std.specs.Io.KnownBytes.{ReadConsumes, WriteAppends};

use std::io::{self, ErrorKind, Read, Write};
use tg_base::DeskFault;

/// Answers 0 only at the end, or where the slice has no room.
pub(crate) fn read_some<F: Read>(file: &mut F, into: &mut [u8]) -> io::Result<usize>
    ensures within { ReadsAtMost result into.new }
    ensures bytes { ReadConsumes (F.remaining file.old) (F.remaining file.new) result into.new }
{
    for _try in 0..u64::MAX {
        match file.read(into) {
            Err(error) if error.kind() == ErrorKind::Interrupted => {}
            answer => return answer,
        }
    }
    Err(io::Error::from(ErrorKind::Interrupted))
}

/// Fails where nothing is taken.
pub(crate) fn write_some<F: Write>(file: &mut F, piece: &[u8]) -> Result<usize, DeskFault>
    requires { 0 < length piece.now }
    ensures some { IfOk result (λ count. (0 < count) × (count ≤ length piece.now)) }
    ensures bytes { WriteAppends (F.contents file.old) (F.contents file.new) result piece.now }
{
    for _try in 0..u64::MAX {
        match file.write(piece) {
            Ok(count) if count > 0 => return Ok(count),
            Err(error) if error.kind() == ErrorKind::Interrupted => {}
            _ => return Err(DeskFault::Failed),
        }
    }
    Err(DeskFault::Failed)
}
