//! The outside as the operating system gives it: real files, and any stream that takes bytes.
ghost use Rattle.std.specs.Prelude.{◌≡◌, ◌<◌, ◌≤◌, ◌↔◌, ℕ, List, None, length, IfOk, OnOk, IsErrOf, vec_len, vec_capacity};
ghost use Rattle.sim_io.specs.Cause.{faults_with, faults_after, HasCause};
ghost use Rattle.std.specs.IoError.{error_kind};
ghost use Rattle.sim_io.specs.Host.{HostState, one_more};

use super::outside::{Shelf, Sink, Trouble};
use std::alloc::{AllocError, Global};
use std::io::{ErrorKind, Read, Write};
use std::marker::Model;
use std::rt::Files;
use std::{fs, io};

// What an error of the operating system is to the simulator.
fn trouble_of(error: &io::Error) -> Trouble
    ensures { (result ≡ Trouble.NoMemory) ↔ (error_kind error.now ≡ ErrorKind.OutOfMemory) }
{
    match error.kind() {
        ErrorKind::OutOfMemory => Trouble::NoMemory,
        _ => Trouble::Failed,
    }
}

// A count of faults after a trouble.
fn counted(faults: u64, trouble: Trouble) -> u64
    ensures after { result ≡ faults_with faults trouble }
    ensures later { faults ≤ result }
{
    match trouble {
        Trouble::Failed => faults.saturating_add(1),
        Trouble::NoMemory => faults,
    }
}

// The id of the next file, with room for it.
fn next_id<F>(files: &mut Vec<F>) -> Result<u32, AllocError>
    ensures id { IfOk result (λ id. id ≡ length files.old.items) }
    ensures items { files.new.items ≡ files.old.items }
    ensures room { OnOk result (vec_len files.new < vec_capacity files.new) }
{
    let Ok(id) = u32::try_from(files.len()) else {
        return Err(AllocError);
    };
    files.reserve(1)?;
    Ok(id)
}

/// A stream as a sink. It tells no bytes.
///
/// A write that takes nothing is `Failed`, as each error is but out of memory. Contracts see it as
/// the count of its faults, which stays at the last value of a `u64`.
#[derive(Drop)]
pub struct HostSink<W: Write> {
    stream: W,
    failed: u64,
}

impl<W: Write> Model for HostSink<W> {
    ghost use Rattle.std.specs.Prelude.{ℕ};

    ghost Value = { ℕ };

    ghost view = { λ s. s.failed };
}

impl<W: Write> HostSink<W> {
    /// A sink over a stream.
    pub fn new(w: W) -> HostSink<W>
        ensures { result ≡ 0 }
    {
        HostSink {
            stream: w,
            failed: 0,
        }
    }

    // Counts a fault, and hands it on.
    fn count(&mut self, trouble: Trouble) -> Trouble
        ensures same { result ≡ trouble }
        ensures after { self.new ≡ faults_with self.old trouble }
        ensures later { self.old ≤ self.new }
    {
        self.failed = counted(self.failed, trouble);
        trouble
    }
}

impl<W: Write> Sink for HostSink<W> {
    ghost holds = { λ _. None };

    ghost faults = { λ s. s };

    fn write(&mut self, piece: &[u8]) -> Result<usize, Trouble>
        requires { 0 < length piece.now }

        // exactly what it counts
        ensures after { self.new ≡ faults_after self.old result }

        // what every sink promises
        ensures bound { IfOk result (λ count. (0 < count) × (count ≤ length piece.now)) }
        ensures cause { HasCause self.old self.new result }
    {
        match self.stream.write(piece) {
            Ok(0) => Err(self.count(Trouble::Failed)),
            Ok(count) => Ok(count),
            Err(error) => Err(self.count(trouble_of(&error))),
        }
    }
}

/// The files of the operating system as a shelf. It tells no bytes.
///
/// A missing file is `Failed`, and so are a write that takes nothing and each error but want of
/// memory. A file stays open until the shelf is let go. Contracts see it as a `HostState`, whose
/// counts of faults stay at the last value of a `u64`.
#[derive(Drop)]
pub struct HostShelf<R: Files> {
    rt: R,
    readers: Vec<R::File>,
    writers: Vec<R::File>,
    failed_reads: u64,
    failed_writes: u64,
}

impl<R: Files> Model for HostShelf<R> {
    ghost use Rattle.std.specs.Prelude.{length};
    ghost use Rattle.sim_io.specs.Host.{HostState};

    ghost Value = { HostState };

    ghost view = { λ s. record { opened = length s.readers.items; created = length s.writers.items; reads = s.failed_reads; writes = s.failed_writes } };
}

impl<R: Files> HostShelf<R> {
    /// A shelf over the files of a runtime.
    pub fn new(rt: R, alloc: Global) -> HostShelf<R>
        ensures { result ≡ record { opened = 0; created = 0; reads = 0; writes = 0 } }
    {
        HostShelf {
            rt,
            readers: Vec::new(alloc),
            writers: Vec::new(alloc),
            failed_reads: 0,
            failed_writes: 0,
        }
    }

    // Counts a fault of `open_read` or `read`, and hands it on.
    fn count_read(&mut self, trouble: Trouble) -> Trouble
        ensures same { result ≡ trouble }
        ensures after { self.new ≡ record self.old { reads = faults_with self.old.reads trouble } }
        ensures later { self.old.reads ≤ self.new.reads }
    {
        self.failed_reads = counted(self.failed_reads, trouble);
        trouble
    }

    // Counts a fault of `create` or `write`, and hands it on.
    fn count_write(&mut self, trouble: Trouble) -> Trouble
        ensures same { result ≡ trouble }
        ensures after { self.new ≡ record self.old { writes = faults_with self.old.writes trouble } }
        ensures later { self.old.writes ≤ self.new.writes }
    {
        self.failed_writes = counted(self.failed_writes, trouble);
        trouble
    }
}

impl<R: Files> Shelf for HostShelf<R> {
    ghost files = { λ _. None };

    ghost reading = { λ s id. id < s.opened };

    ghost left = { λ _ _. None };

    ghost created = { λ s id. id < s.created };

    ghost stands = { λ _ _ _. ⊥ };

    ghost reads = { λ s. s.reads };

    ghost writes = { λ s. s.writes };

    fn open_read(&mut self, name: &str) -> Result<u32, Trouble>
        // exactly what it counts
        ensures after { self.new ≡ record self.old { opened = one_more self.old.opened result; reads = faults_after self.old.reads result } }

        // what every shelf promises
        ensures id { IfOk result (λ id. id ≡ self.old.opened) }
        ensures later { self.old.reads ≤ self.new.reads }
    {
        let Ok(id) = next_id(&mut self.readers) else {
            return Err(Trouble::NoMemory);
        };
        match fs::open(&self.rt, name) {
            Ok(file) => {
                self.readers.push(file).unwrap();
                Ok(id)
            }
            Err(error) => Err(self.count_read(trouble_of(&error))),
        }
    }

    fn read(&mut self, id: u32, into: &mut [u8]) -> Result<usize, Trouble>
        requires id { id < self.old.opened }
        requires room { 0 < length into.old }

        // exactly what it counts
        ensures after { self.new ≡ record self.old { reads = faults_after self.old.reads result } }

        // what every shelf promises
        ensures bound { IfOk result (λ count. count ≤ length into.new) }
        ensures later { self.old.reads ≤ self.new.reads }
    {
        match self.readers[id as usize].read(into) {
            Ok(count) => Ok(count),
            Err(error) => Err(self.count_read(trouble_of(&error))),
        }
    }

    fn create(&mut self, name: &str) -> Result<u32, Trouble>
        // exactly what it counts
        ensures after { self.new ≡ record self.old { created = one_more self.old.created result; writes = faults_after self.old.writes result } }

        // what every shelf promises
        ensures id { IfOk result (λ id. id ≡ self.old.created) }
        ensures later { self.old.writes ≤ self.new.writes }
    {
        let Ok(id) = next_id(&mut self.writers) else {
            return Err(Trouble::NoMemory);
        };
        match fs::create(&self.rt, name) {
            Ok(file) => {
                self.writers.push(file).unwrap();
                Ok(id)
            }
            Err(error) => Err(self.count_write(trouble_of(&error))),
        }
    }

    fn write(&mut self, id: u32, piece: &[u8]) -> Result<usize, Trouble>
        requires id { id < self.old.created }
        requires some { 0 < length piece.now }

        // exactly what it counts
        ensures after { self.new ≡ record self.old { writes = faults_after self.old.writes result } }

        // what every shelf promises
        ensures bound { IfOk result (λ count. (0 < count) × (count ≤ length piece.now)) }
        ensures later { self.old.writes ≤ self.new.writes }
    {
        match self.writers[id as usize].write(piece) {
            Ok(0) => Err(self.count_write(Trouble::Failed)),
            Ok(count) => Ok(count),
            Err(error) => Err(self.count_write(trouble_of(&error))),
        }
    }
}
