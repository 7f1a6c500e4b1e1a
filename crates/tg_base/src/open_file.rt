//! A file that a desk in memory has opened, how far it was read, and what is left of it.
ghost use Rattle.std.specs.Prelude.{◌≡◌, min, length, nat_lt, take, drop, false};
ghost use Rattle.std.specs.String.{string_bytes};
ghost use Rattle.tg_base.specs.Moment.{file_after};
ghost use Rattle.tg_base.specs.Reading.{Reading, at_start};

use std::marker::Model;

#[derive(Drop)]
pub(crate) struct OpenFile {
    name: String,
    bytes: Vec<u8>,
    at: usize,
    is_ended: bool,
    is_readable: bool,
}

impl Model for OpenFile {
    ghost use Rattle.std.specs.Prelude.{take, drop, ◌≤◌, vec_len};
    ghost use Rattle.std.specs.String.{string_bytes};
    ghost use Rattle.tg_base.specs.Moment.{Opened};
    ghost use Rattle.tg_base.specs.Reading.{Reading};

    ghost Value = { Reading };

    ghost view = { λ f. record {
      file = record {
        name = string_bytes f.name;
        moved = take f.at f.bytes.items;
        ended = f.is_ended;
      };
      rest = drop f.at f.bytes.items;
      is_readable = f.is_readable;
    } };

    ghost invariant = { λ f. f.at ≤ vec_len f.bytes };
}

impl OpenFile {
    /// A file of these bytes is open at its start.
    pub(crate) fn at_start(name: String, bytes: Vec<u8>) -> OpenFile
        ensures { result ≡ at_start (string_bytes name) bytes.items }
    {
        OpenFile {
            name,
            bytes,
            at: 0,
            is_ended: false,
            is_readable: true,
        }
    }

    /// Moves as much of the rest into the slice as there is and as the slice takes.
    pub(crate) fn read(&mut self, into: &mut [u8]) -> usize
        ensures count { result ≡ min (length into.old) (length self.old.rest) }
        ensures moved { take result into.new ≡ take result self.old.rest }
        ensures behind { drop result into.new ≡ drop result into.old }
        ensures file { self.new.file ≡ file_after self.old.file (take result into.new) }
        ensures left { self.new.rest ≡ drop result self.old.rest }
        ensures readable { self.new.is_readable ≡ nat_lt 0 result }
    {
        let count = into.len().min(self.bytes.len() - self.at);
        into[..count].copy_from_slice(&self.bytes[self.at..self.at + count]);
        self.at += count;
        self.is_ended = count == 0;
        self.is_readable = count > 0;
        count
    }

    /// A fault was met.
    pub(crate) fn stop(&mut self)
        ensures { self.new ≡ record self.old { is_readable = false } }
    {
        self.is_readable = false;
    }
}
