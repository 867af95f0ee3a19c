//! Bytes that are to be written, held back until so many of them have come that they are written together.
ghost use Rattle.std.specs.Prelude.{◌≡◌, ◌<◌, ◌≤◌, ◌+◌, ◌==◌, [], ◌++◌, length, IfOk, IsErrOf, Ok};
ghost use Rattle.sim_io.specs.Cause.{RoseIf};
ghost use Rattle.sim_io.specs.Keeps.{WriteKeeps};
ghost use Rattle.sim_io.specs.Writes.{TookOf, FileTook as FileTookPiece};
ghost use Rattle.sim_io.specs.Moved.{SinkTook, FileTook, Fits};

use crate::{Shelf, Sink, Trouble, write_all, write_file};
use std::alloc::{AllocError, Global};
use std::marker::Model;

/// The most bytes that are held.
const ROOM: usize = 65_536;

/// A buffer for bytes that are to be written to a sink, or to a file. Contracts see the bytes that it holds: 65,536 at most.
///
/// All memory is taken by `new`. A piece that fits behind what is held is held too, and nothing is written. One that does not is
/// written behind what is held, directly, and then nothing is held. After a refused write nothing is held either: what was not
/// written is lost, and is not tried again.
#[derive(Drop)]
pub struct Held {
    bytes: Vec<u8>,
}

impl Model for Held {
    ghost use Rattle.std.specs.Prelude.{◌≤◌, ℕ, List, length, vec_capacity};

    ghost Value = { List ℕ };

    ghost view = { λ h. h.bytes.items };

    ghost invariant = { λ h. (length h.bytes.items ≤ 65536) × (65536 ≤ vec_capacity h.bytes) };
}

impl Held {
    /// A buffer that holds nothing, with its room.
    pub fn new(alloc: Global) -> Result<Held, AllocError>
        ensures { IfOk result (λ held. held ≡ []) }
    {
        let bytes = Vec::with_capacity(alloc, ROOM)?;
        Ok(Held { bytes })
    }

    /// How many bytes are held.
    pub fn len(&self) -> usize
        ensures value { result ≡ length self.now }
        ensures bound { length self.now ≤ 65536 }
    {
        self.bytes.len()
    }

    /// Whether nothing is held.
    pub fn is_empty(&self) -> bool
        ensures { result ≡ (length self.now == 0) }
    {
        self.len() == 0
    }

    /// Holds a piece behind what is held.
    #[inline(always)]
    fn keep(&mut self, piece: &[u8])
        requires { Fits self.old piece.now }
        ensures { self.new ≡ self.old ++ piece.now }
    {
        let _ = self.bytes.extend_from_slice(piece);
    }

    /// Writes what is held to a sink. Where nothing is held no call is made.
    pub fn flush<O: Sink>(&mut self, sink: &mut O) -> Result<(), Trouble>
        ensures took { TookOf (O.holds sink.old) (O.holds sink.new) self.old result }
        ensures empty { self.new ≡ [] }
        ensures nothing { self.old ≡ [] → sink.new ≡ sink.old }
        ensures cause { RoseIf (O.faults sink.old) (O.faults sink.new) (IsErrOf result Trouble.Failed) }
    {
        let written = write_all(sink, self.bytes.as_slice());
        self.bytes.clear();
        written
    }

    /// Writes what is held to a sink, and then a piece.
    #[cold]
    #[inline(never)]
    fn pass<O: Sink>(&mut self, sink: &mut O, piece: &[u8]) -> Result<(), Trouble>
        ensures took { SinkTook (O.holds sink.old) (O.holds sink.new) self.old piece.now self.new result }
        ensures empty { self.new ≡ [] }
        ensures cause { RoseIf (O.faults sink.old) (O.faults sink.new) (IsErrOf result Trouble.Failed) }
    {
        match self.flush(sink) {
            Ok(()) => write_all(sink, piece),
            Err(trouble) => Err(trouble),
        }
    }

    /// Takes a piece for a sink: holds it, or writes what is held and then the piece.
    #[inline(always)]
    pub fn put<O: Sink>(&mut self, sink: &mut O, piece: &[u8]) -> Result<(), Trouble>
        ensures took { SinkTook (O.holds sink.old) (O.holds sink.new) self.old piece.now self.new result }
        ensures bound { length self.new ≤ 65536 }
        ensures fits { Fits self.old piece.now → (result ≡ Ok tt) × (self.new ≡ self.old ++ piece.now) × (sink.new ≡ sink.old) }
        ensures full { 65536 < length self.old + length piece.now → self.new ≡ [] }
        ensures cause { RoseIf (O.faults sink.old) (O.faults sink.new) (IsErrOf result Trouble.Failed) }
    {
        if piece.len() <= ROOM - self.len() {
            self.keep(piece);
            return Ok(());
        }
        self.pass(sink, piece)
    }

    /// Writes what is held to a created file. Where nothing is held no call is made.
    pub fn flush_file<S: Shelf>(&mut self, shelf: &mut S, id: u32) -> Result<(), Trouble>
        requires { S.created shelf.old id }
        ensures took { FileTookPiece (S.stands shelf.old id) (S.files shelf.old) (S.files shelf.new) self.old result }
        ensures empty { self.new ≡ [] }
        ensures nothing { self.old ≡ [] → shelf.new ≡ shelf.old }
        ensures cause { RoseIf (S.writes shelf.old) (S.writes shelf.new) (IsErrOf result Trouble.Failed) }
        ensures kept { WriteKeeps S.files S.reads S.reading S.created S.stands shelf.old shelf.new }
        ensures created { S.created shelf.new id }
    {
        let written = write_file(shelf, id, self.bytes.as_slice());
        self.bytes.clear();
        written
    }

    /// Takes a piece for a created file: holds it, or writes what is held and then the piece.
    pub fn put_file<S: Shelf>(
        &mut self,
        shelf: &mut S,
        id: u32,
        piece: &[u8],
    ) -> Result<(), Trouble>
        requires { S.created shelf.old id }
        ensures took { FileTook (S.stands shelf.old id) (S.files shelf.old) (S.files shelf.new) self.old piece.now self.new result }
        ensures bound { length self.new ≤ 65536 }
        ensures fits { Fits self.old piece.now → (result ≡ Ok tt) × (self.new ≡ self.old ++ piece.now) × (shelf.new ≡ shelf.old) }
        ensures full { 65536 < length self.old + length piece.now → self.new ≡ [] }
        ensures cause { RoseIf (S.writes shelf.old) (S.writes shelf.new) (IsErrOf result Trouble.Failed) }
        ensures kept { WriteKeeps S.files S.reads S.reading S.created S.stands shelf.old shelf.new }
        ensures created { S.created shelf.new id }
    {
        if piece.len() <= ROOM - self.len() {
            self.keep(piece);
            return Ok(());
        }
        match self.flush_file(shelf, id) {
            Ok(()) => write_file(shelf, id, piece),
            Err(trouble) => Err(trouble),
        }
    }
}
