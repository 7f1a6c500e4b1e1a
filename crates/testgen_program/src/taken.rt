//! A history of the bytes that each output has taken, which takes no memory.
ghost use Rattle.std.specs.Prelude.{◌≡◌, ◌≢◌, ◌++◌, []};
ghost use Rattle.testgen_program.specs.Taken.{taken_by};
ghost use Rattle.tg_base.specs.declared.desk.Out.{Out};

use http_server::Log;
use tg_base::Out;

#[derive(Drop)]
pub(crate) struct Taken {
    bytes: Log<Out, u8>,
}

impl Taken {
    pub(crate) fn new() -> Taken
        ensures { (out : Out) → taken_by result out ≡ [] }
    {
        Taken { bytes: Log::new() }
    }

    /// Notes what an output has taken.
    pub(crate) fn note(&mut self, out: Out, piece: &[u8])
        ensures taken { taken_by self.new out ≡ taken_by self.old out ++ piece.now }
        ensures others_stay { (other : Out) → other ≢ out
            → taken_by self.new other ≡ taken_by self.old other }
    {
        for byte in piece {
            self.bytes = self.bytes.and(&out, byte);
        }
    }
}
