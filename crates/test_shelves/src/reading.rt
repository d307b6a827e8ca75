//! Readings of bytes in memory.
ghost use Rattle.std.specs.Prelude.{◌≡◌, ◌+◌, length, min, take, drop, string_bytes};
ghost use Rattle.test_shelves.specs.Readings.{new_reading};

use std::marker::Model;

/// An open reading: its name, and how many of the name's bytes it has given.
#[derive(Drop)]
pub struct Reading {
    name: String,
    given: usize,
}

impl Model for Reading {
    ghost use Rattle.std.specs.Prelude.{string_bytes};
    ghost use Rattle.test_shelves.specs.Readings.{PlainReading};

    ghost Value = { PlainReading };

    ghost view = { λ r. record { name = string_bytes r.name; given = r.given } };
}

impl Reading {
    /// A reading that has given nothing yet.
    pub fn new(name: String) -> Self
        ensures { result ≡ new_reading (string_bytes name) }
    {
        Reading { name, given: 0 }
    }

    pub fn name(&self) -> &str
        ensures { result.now ≡ self.now.name }
    {
        self.name.as_str()
    }

    pub fn into_name(self) -> String
        ensures { string_bytes result ≡ self.name }
    {
        self.name
    }

    /// Puts the name's next bytes in front of the buffer, as many as fit, and returns how many.
    pub fn give(&mut self, bytes: &[u8], buf: &mut [u8]) -> usize
        ensures count { result ≡ min (length (drop self.old.given bytes.now)) (length buf.old) }
        ensures bytes { take result buf.new ≡ take result (drop self.old.given bytes.now) }
        ensures given { self.new ≡ record self.old { given = self.old.given + result } }
    {
        let rest = &bytes[self.given.min(bytes.len())..];
        let count = rest.len().min(buf.len());
        buf[..count].copy_from_slice(&rest[..count]);
        self.given += count;
        count
    }
}
