//! A queue of values between processes.
ghost use Rattle.std.specs.Prelude.{◌≡◌, ◌↔◌, ◌<◌, not, ◌==◌, IsOk, IfOk, IfErr};

use circular_buffer::HeapCircularBuffer;
use logic_values::Value;
use std::alloc::{AllocError, Global};
use std::marker::Model;

/// What was done to a fifo in an evaluation phase.
#[derive(Clone, Copy, Debug, PartialEq, Eq)]
pub struct FifoChange {
    /// Whether something was written.
    pub written: bool,
    /// Whether something was read.
    pub taken: bool,
}

/// The value that was to be written, where no place was free.
#[derive(Clone, Copy, Debug, PartialEq, Eq)]
pub struct Full(pub Value);

/// A fifo (IEEE 1666-2011, 6.23). What is written in an evaluation phase can be read after the next update,
/// and the place of what is read in it is free after the next update.
#[derive(Drop)]
pub struct Fifo {
    unread: HeapCircularBuffer<Value>,
    written: u32,
    read: u32,
}

impl Model for Fifo {
    ghost use Rattle.std.specs.Prelude.{◌+◌, ◌^◌, ◌<◌, ◌≤◌, length};
    ghost use Rattle.fifo_sync.specs.Fifos.{Queued, queued_code};

    ghost Value = { Queued };

    ghost coded = { queued_code };

    ghost view = { λ f. record {
      size = f.unread.capacity;
      unread = f.unread.items;
      written = f.written;
      read = f.read;
    } };

    ghost invariant = { λ f. (f.written ≤ length f.unread.items) × (length f.unread.items + f.read ≤ f.unread.capacity) × (f.unread.capacity < 2 ^ 32) };
}

impl Fifo {
    ghost use Rattle.fifo_sync.specs.Fifos.{nothing_in, available, free, readable, after_read, after_write, after_update};

    /// A fifo with no value and room for `size`.
    pub fn new(alloc: Global, size: u32) -> Result<Fifo, AllocError>
        ensures { IfOk result (λ f. f ≡ nothing_in size) }
    {
        let unread = HeapCircularBuffer::with_capacity(alloc, size as usize)?;
        Ok(Fifo {
            unread,
            written: 0,
            read: 0,
        })
    }

    /// How many values can be read now.
    pub fn available(&self) -> u32
        ensures { result ≡ available self.now }
    {
        self.unread.len() as u32 - self.written
    }

    /// How many values can be written now.
    pub fn free(&self) -> u32
        ensures { result ≡ free self.now }
    {
        self.unread.capacity() as u32 - self.unread.len() as u32 - self.read
    }

    /// Reads the oldest value, or answers `None` where none is available.
    pub fn try_read(&mut self) -> Option<Value>
        ensures value { result ≡ readable self.old }
        ensures left { self.new ≡ after_read self.old }
    {
        if self.available() == 0 {
            return None;
        }
        self.read += 1;
        self.unread.pop_front()
    }

    /// Writes the value, or hands it back where no place is free.
    pub fn try_write(&mut self, v: Value) -> Result<(), Full>
        ensures ok { IsOk result ↔ (0 < free self.old) }
        ensures full { IfErr result (λ e. e.0 ≡ v) }
        ensures left { self.new ≡ after_write self.old v }
    {
        if self.free() == 0 {
            return Err(Full(v));
        }
        self.written += 1;
        self.unread.push_back(v);
        Ok(())
    }

    /// Ends the evaluation phase, and says what was done in it.
    pub fn update(&mut self) -> FifoChange
        ensures written { result.written ≡ not (self.old.written == 0) }
        ensures taken { result.taken ≡ not (self.old.read == 0) }
        ensures left { self.new ≡ after_update self.old }
    {
        let change = FifoChange {
            written: self.written != 0,
            taken: self.read != 0,
        };
        self.written = 0;
        self.read = 0;
        change
    }
}
