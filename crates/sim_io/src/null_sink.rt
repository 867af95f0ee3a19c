//! A sink that drops what it is given.
ghost use Rattle.std.specs.Prelude.{◌≡◌, ◌<◌, ◌≤◌, ℕ, List, None, Ok, length, IfOk, IsErrOf};
ghost use Rattle.sim_io.specs.Contents.{Grew};
ghost use Rattle.sim_io.specs.Cause.{HasCause};
ghost use Rattle.sim_io.specs.Writes.{taken};

use crate::{Sink, Trouble};

/// A sink that drops what it is given. It never fails, takes no memory and tells no bytes.
#[derive(Drop)]
pub struct NullSink {}

impl NullSink {
    /// A sink that drops what it is given.
    pub fn new() -> NullSink {
        NullSink {}
    }
}

impl Sink for NullSink {
    ghost holds = { λ _. None };

    ghost faults = { λ _. 0 };

    fn write(&mut self, piece: &[u8]) -> Result<usize, Trouble>
        requires { 0 < length piece.now }

        // exactly what it answers
        ensures answer { result ≡ Ok (length piece.now) }

        // what every sink promises
        ensures bound { IfOk result (λ count. (0 < count) × (count ≤ length piece.now)) }
    {
        Ok(piece.len())
    }
}
