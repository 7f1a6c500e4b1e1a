//! A file that was opened: its name, and a history of the bytes that reads moved, which takes no memory.
ghost use Rattle.std.specs.Prelude.{◌≡◌};
ghost use Rattle.std.specs.String.{string_bytes};
ghost use Rattle.tg_base.specs.Moment.{just_opened, file_after};

use http_server::Log;
use std::marker::Model;

#[derive(Drop)]
pub(crate) struct OpenedFile {
    name: String,
    moved: Log<(), u8>,
    is_ended: bool,
}

impl Model for OpenedFile {
    ghost use Rattle.std.specs.Prelude.{map};
    ghost use Rattle.std.specs.String.{string_bytes};
    ghost use Rattle.tg_base.specs.Moment.{Opened};

    ghost Value = { Opened };

    ghost view = { λ f. record {
      name = string_bytes f.name;
      moved = map (λ pair. pair.1) f.moved.items;
      ended = f.is_ended;
    } };
}

impl OpenedFile {
    pub(crate) fn just_opened(name: String) -> OpenedFile
        ensures { result ≡ just_opened (string_bytes name) }
    {
        OpenedFile {
            name,
            moved: Log::new(),
            is_ended: false,
        }
    }

    /// Notes what a read moved.
    pub(crate) fn note(&mut self, bytes: &[u8])
        ensures { self.new ≡ file_after self.old bytes.now }
    {
        for byte in bytes {
            self.moved = self.moved.and(&(), byte);
        }
        self.is_ended = bytes.is_empty();
    }
}
