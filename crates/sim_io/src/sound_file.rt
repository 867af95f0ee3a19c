//! A file in memory with one reading place.
ghost use Rattle.std.specs.Prelude.{◌≡◌, ℕ, List, length, take, min, string_bytes};
ghost use Rattle.sim_io.specs.Sound.{FileState, named, begun, rest_of, given};

use std::marker::Model;

/// A file in memory, with one place from which it is read. Contracts see it as a `FileState`.
#[derive(Drop)]
pub struct SoundFile {
    name: String,
    bytes: Vec<u8>,
    given: usize,
}

impl Model for SoundFile {
    ghost use Rattle.std.specs.Prelude.{◌≤◌, length, string_bytes};
    ghost use Rattle.sim_io.specs.Sound.{FileState};

    ghost Value = { FileState };

    ghost view = { λ f. record { name = string_bytes f.name; bytes = f.bytes.items; at = f.given } };

    ghost invariant = { λ f. f.given ≤ length f.bytes.items };
}

impl SoundFile {
    /// A file of this name with these bytes, to be read from its first one.
    pub fn new(name: String, bytes: Vec<u8>) -> SoundFile
        ensures { result ≡ record { name = string_bytes name; bytes = bytes.items; at = 0 } }
    {
        SoundFile {
            name,
            bytes,
            given: 0,
        }
    }

    /// Whether it has this name.
    pub(crate) fn has_name(&self, name: &str) -> bool
        ensures { result ≡ named name.now self.now }
    {
        self.name.as_str() == name
    }

    /// Has it read from its first byte again.
    pub(crate) fn begin(&mut self)
        ensures { self.new ≡ begun self.old }
    {
        self.given = 0;
    }

    /// Copies the next bytes to the front of a slice, as far as they fit, and answers how many.
    pub(crate) fn give(&mut self, into: &mut [u8]) -> usize
        ensures count { result ≡ min (length into.old) (length (rest_of self.old)) }
        ensures front { take result into.new ≡ take result (rest_of self.old) }
        ensures after { self.new ≡ given self.old result }
    {
        let rest = &self.bytes[self.given..];
        let count = rest.len().min(into.len());
        into[..count].copy_from_slice(&rest[..count]);
        self.given += count;
        count
    }
}
