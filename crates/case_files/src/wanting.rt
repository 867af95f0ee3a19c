//! An outside in memory that is refused memory at chosen calls.
ghost use Rattle.std.specs.Prelude.{◌≡◌, ◌<◌, ◌≤◌, ℕ, List, Option, Some, length, IfOk, IfSome, IsErrOf};
ghost use Rattle.std.specs.Io.KnownBytes.{ReadConsumes};
ghost use Rattle.sim_io.specs.Contents.{AfterTold, Grew, Grows, Lacks, Unchanged, text_of};
ghost use Rattle.sim_io.specs.Cause.{HasCause, HasCauseOrLacks};
ghost use Rattle.sim_io.specs.Keeps.{ReadKeeps, WriteKeeps};
ghost use Rattle.sim_io.specs.Memory.{told, IsReading, left_of, IsCreated, StandsFor, reads_of, writes_of};
ghost use Rattle.sim_io.specs.Writes.{Creates, taken};

use sim_io::{MemoryShelf, MemorySink, Shelf, Sink, Trouble};
use std::marker::Model;

// Whether the next call is refused memory, which counts it.
fn is_refused(listed: &[u64], number: &mut u64) -> bool {
    let at = *number;
    *number = at.saturating_add(1);
    listed.contains(&at)
}

/// A shelf in memory whose calls of these numbers, from 0, are refused memory. The form below numbers only the others.
/// Contracts see the form below.
#[derive(Drop)]
pub struct WantingShelf {
    below: MemoryShelf,
    listed: Vec<u64>,
    number: u64,
}

impl Model for WantingShelf {
    ghost use Rattle.sim_io.specs.Memory.{ShelfState};

    ghost Value = { ShelfState };

    ghost view = { λ s. s.below };
}

impl WantingShelf {
    /// The shelf below, with the numbers of the calls that are refused memory.
    pub fn new(below: MemoryShelf, listed: Vec<u64>) -> WantingShelf
        ensures { result ≡ below }
    {
        WantingShelf {
            below,
            listed,
            number: 0,
        }
    }

    /// The shelf below.
    pub fn below(&self) -> &MemoryShelf
        ensures { result.now ≡ self.now }
    {
        &self.below
    }
}

impl Shelf for WantingShelf {
    ghost files = { told };

    ghost reading = { IsReading };

    ghost left = { left_of };

    ghost created = { IsCreated };

    ghost stands = { StandsFor };

    ghost reads = { reads_of };

    ghost writes = { writes_of };

    fn open_read(&mut self, name: &str) -> Result<u32, Trouble>
        ensures id { IfOk result (λ id. IsReading self.new id) }
        ensures bytes { IfOk result (λ id. IfSome (told self.old)
            (λ files. left_of self.new id ≡ Some (text_of (files name.now)))) }
        ensures kept { ReadKeeps told writes_of IsReading IsCreated StandsFor self.old self.new }
        ensures cause { HasCauseOrLacks (reads_of self.old) (reads_of self.new)
            (Lacks (told self.old) name.now) result }
        ensures memory { IsErrOf result Trouble.NoMemory → Unchanged (told self.old) (told self.new) }
    {
        if is_refused(self.listed.as_slice(), &mut self.number) {
            return Err(Trouble::NoMemory);
        }
        self.below.open_read(name)
    }

    fn read(&mut self, id: u32, into: &mut [u8]) -> Result<usize, Trouble>
        requires id { IsReading self.old id }
        requires room { 0 < length into.old }
        ensures bound { IfOk result (λ count. count ≤ length into.new) }
        ensures bytes { ReadConsumes (left_of self.old id) (left_of self.new id) result into.new }
        ensures kept { ReadKeeps told writes_of IsReading IsCreated StandsFor self.old self.new }
        ensures cause { HasCause (reads_of self.old) (reads_of self.new) result }
        ensures memory { IsErrOf result Trouble.NoMemory → Unchanged (told self.old) (told self.new) }
    {
        if is_refused(self.listed.as_slice(), &mut self.number) {
            return Err(Trouble::NoMemory);
        }
        self.below.read(id, into)
    }

    fn create(&mut self, name: &str) -> Result<u32, Trouble>
        ensures id { IfOk result (λ id. IsCreated self.new id) }
        ensures file { IfOk result (λ id. IfSome (told self.new) (λ _. StandsFor self.new id name.now)) }
        ensures files { AfterTold (told self.old) (told self.new) (Creates name.now result) }
        ensures kept { WriteKeeps told reads_of IsReading IsCreated StandsFor self.old self.new }
        ensures cause { HasCause (writes_of self.old) (writes_of self.new) result }
        ensures memory { IsErrOf result Trouble.NoMemory → Unchanged (told self.old) (told self.new) }
    {
        if is_refused(self.listed.as_slice(), &mut self.number) {
            return Err(Trouble::NoMemory);
        }
        self.below.create(name)
    }

    fn write(&mut self, id: u32, piece: &[u8]) -> Result<usize, Trouble>
        requires id { IsCreated self.old id }
        requires some { 0 < length piece.now }
        ensures bound { IfOk result (λ count. (0 < count) × (count ≤ length piece.now)) }
        ensures bytes { (name : List ℕ) → StandsFor self.old id name →
            AfterTold (told self.old) (told self.new) (Grows name (taken result piece.now)) }
        ensures kept { WriteKeeps told reads_of IsReading IsCreated StandsFor self.old self.new }
        ensures cause { HasCause (writes_of self.old) (writes_of self.new) result }
        ensures memory { IsErrOf result Trouble.NoMemory → Unchanged (told self.old) (told self.new) }
    {
        if is_refused(self.listed.as_slice(), &mut self.number) {
            return Err(Trouble::NoMemory);
        }
        self.below.write(id, piece)
    }
}

/// A sink in memory whose calls of these numbers, from 0, are refused memory. The form below numbers only the others.
/// Contracts see the form below.
#[derive(Drop)]
pub struct WantingSink {
    below: MemorySink,
    listed: Vec<u64>,
    number: u64,
}

impl Model for WantingSink {
    ghost use Rattle.sim_io.specs.Memory.{SinkState};

    ghost Value = { SinkState };

    ghost view = { λ s. s.below };
}

impl WantingSink {
    /// The sink below, with the numbers of the calls that are refused memory.
    pub fn new(below: MemorySink, listed: Vec<u64>) -> WantingSink
        ensures { result ≡ below }
    {
        WantingSink {
            below,
            listed,
            number: 0,
        }
    }

    /// The sink below.
    pub fn below(&self) -> &MemorySink
        ensures { result.now ≡ self.now }
    {
        &self.below
    }
}

impl Sink for WantingSink {
    ghost holds = { λ s. Some s.holds };

    ghost faults = { λ s. s.faults };

    fn write(&mut self, piece: &[u8]) -> Result<usize, Trouble>
        requires { 0 < length piece.now }
        ensures bound { IfOk result (λ count. (0 < count) × (count ≤ length piece.now)) }
        ensures bytes { Grew (Some self.old.holds) (Some self.new.holds) (taken result piece.now) }
        ensures cause { HasCause self.old.faults self.new.faults result }
        ensures memory { IsErrOf result Trouble.NoMemory → self.new.holds ≡ self.old.holds }
    {
        if is_refused(self.listed.as_slice(), &mut self.number) {
            return Err(Trouble::NoMemory);
        }
        self.below.write(piece)
    }
}
