//! What the simulator sees of the world outside: files on a shelf, and sinks for bytes.
ghost use Rattle.std.specs.Prelude.{◌≡◌, ◌<◌, ◌≤◌, ℕ, List, Option, Some, length, IfOk, IfSome, IsErrOf};
ghost use Rattle.std.specs.Io.KnownBytes.{ReadConsumes};
ghost use Rattle.sim_io.specs.Contents.{Files, text_of, AfterTold, Unchanged, Lacks, Grows, Grew};
ghost use Rattle.sim_io.specs.Cause.{HasCause, HasCauseOrLacks};
ghost use Rattle.sim_io.specs.Keeps.{ReadKeeps, WriteKeeps};
ghost use Rattle.sim_io.specs.Writes.{taken, Creates};

use thiserror::Error;

/// Why a call of the outside did not do its work.
#[derive(Clone, Copy, Debug, PartialEq, Eq, Error)]
pub enum Trouble {
    /// The outside refused: a file that is missing, a device that failed, no room that is left.
    #[error("the outside failed")]
    Failed,
    /// Memory was refused; what was called is as before.
    #[error("out of memory")]
    NoMemory,
}

/// A shelf of named files, which are opened for reading or created anew.
///
/// `files` are the files, where the shelf tells them. `reading` holds of each id that `open_read`
/// answered, and `left` is what such an id has still to give, where that is told. `created` holds of
/// each id that `create` answered, and goes on holding of it; `stands` is the file that such an id
/// stands for. `reads` counts faults of `open_read` and `read`, and `writes` those of `create` and
/// `write`: neither ever falls, and each may stand still at the last value of a `u64`.
pub trait Shelf {
    ghost files: { Self → Option Files };

    ghost reading: { Self → ℕ → Type 0 };

    ghost left: { Self → ℕ → Option (List ℕ) };

    ghost created: { Self → ℕ → Type 0 };

    ghost stands: { Self → ℕ → List ℕ → Type 0 };

    ghost reads: { Self → ℕ };

    ghost writes: { Self → ℕ };

    /// Opens a file for reading, and answers the id that `read` takes.
    ///
    /// A missing file is `Failed`, with the count of reads as before, or reads as an empty one.
    fn open_read(&mut self, name: &str) -> Result<u32, Trouble>
        ensures id { IfOk result (λ id. reading self.new id) }
        ensures bytes { IfOk result (λ id. IfSome (files self.old)
            (λ told. left self.new id ≡ Some (text_of (told name.now)))) }
        ensures kept { ReadKeeps files writes reading created stands self.old self.new }
        ensures cause { HasCauseOrLacks (reads self.old) (reads self.new)
            (Lacks (files self.old) name.now) result }
        ensures memory { IsErrOf result Trouble.NoMemory → Unchanged (files self.old) (files self.new) };

    /// Reads some bytes of an opened file to the front of `into`, and answers how many: 0 is the end.
    fn read(&mut self, id: u32, into: &mut [u8]) -> Result<usize, Trouble>
        requires id { reading self.old id }
        requires room { 0 < length into.old }
        ensures bound { IfOk result (λ count. count ≤ length into.new) }
        ensures bytes { ReadConsumes (left self.old id) (left self.new id) result into.new }
        ensures kept { ReadKeeps files writes reading created stands self.old self.new }
        ensures cause { HasCause (reads self.old) (reads self.new) result }
        ensures memory { IsErrOf result Trouble.NoMemory → Unchanged (files self.old) (files self.new) };

    /// Makes a file empty, and answers the id that `write` takes.
    ///
    /// After `Failed` the file is as before or empty.
    fn create(&mut self, name: &str) -> Result<u32, Trouble>
        ensures id { IfOk result (λ id. created self.new id) }
        ensures file { IfOk result (λ id. IfSome (files self.new) (λ _. stands self.new id name.now)) }
        ensures files { AfterTold (files self.old) (files self.new) (Creates name.now result) }
        ensures kept { WriteKeeps files reads reading created stands self.old self.new }
        ensures cause { HasCause (writes self.old) (writes self.new) result }
        ensures memory { IsErrOf result Trouble.NoMemory → Unchanged (files self.old) (files self.new) };

    /// Appends some bytes of the piece to a created file, and answers how many: at least one.
    ///
    /// A write that is not `Ok` takes nothing.
    fn write(&mut self, id: u32, piece: &[u8]) -> Result<usize, Trouble>
        requires id { created self.old id }
        requires some { 0 < length piece.now }
        ensures bound { IfOk result (λ count. (0 < count) × (count ≤ length piece.now)) }
        ensures bytes { (name : List ℕ) → stands self.old id name →
            AfterTold (files self.old) (files self.new) (Grows name (taken result piece.now)) }
        ensures kept { WriteKeeps files reads reading created stands self.old self.new }
        ensures cause { HasCause (writes self.old) (writes self.new) result }
        ensures memory { IsErrOf result Trouble.NoMemory → Unchanged (files self.old) (files self.new) };
}

/// Something that takes bytes, as a stream of output does.
///
/// `holds` are the bytes that it took so far, where it tells them. `faults` counts its faults: it
/// never falls, and may stand still at the last value of a `u64`.
pub trait Sink {
    ghost holds: { Self → Option (List ℕ) };

    ghost faults: { Self → ℕ };

    /// Takes some bytes of the piece, and answers how many: at least one.
    ///
    /// A write that is not `Ok` takes nothing.
    fn write(&mut self, piece: &[u8]) -> Result<usize, Trouble>
        requires { 0 < length piece.now }
        ensures bound { IfOk result (λ count. (0 < count) × (count ≤ length piece.now)) }
        ensures bytes { Grew (holds self.old) (holds self.new) (taken result piece.now) }
        ensures cause { HasCause (faults self.old) (faults self.new) result }
        ensures memory { IsErrOf result Trouble.NoMemory → holds self.new ≡ holds self.old };
}
