//! A sink that keeps its bytes in memory.
ghost use Rattle.std.specs.Prelude.{◌≡◌, ◌<◌, ◌≤◌, ◌↔◌, ◌⊎◌, ℕ, List, [], Option, Some, Contains, IsTrue, length, IfOk, IsErrOf, nat_eq};
ghost use Rattle.std.specs.List.{list_any};
ghost use Rattle.sim_io.specs.Contents.{Grew};
ghost use Rattle.sim_io.specs.Cause.{HasCause};
ghost use Rattle.sim_io.specs.Writes.{taken};
ghost use Rattle.sim_io.specs.Memory.{SinkState, fitting, WriteFails, written};

use super::outside::{Sink, Trouble};
use std::alloc::Global;
use std::marker::Model;

/// A sink in memory, with a bound on its bytes and faults at chosen calls, for tests and for callers
/// that want the bytes back.
///
/// Contracts see it as a `SinkState`. Its calls are numbered from 0; the last value of a `u64` is the
/// number of all calls from there on. A call that is refused memory has no number.
#[derive(Drop)]
pub struct MemorySink {
    taken: Vec<u8>,
    left: Option<u64>,
    listed: Vec<u64>,
    number: u64,
    failed: u64,
}

impl Model for MemorySink {
    ghost use Rattle.sim_io.specs.Memory.{SinkState};

    ghost Value = { SinkState };

    ghost view = { λ s. record { holds = s.taken.items; room = s.left; failing = s.listed.items; calls = s.number; faults = s.failed } };
}

impl MemorySink {
    /// An empty sink that takes `room` bytes at most, and fails at the calls whose numbers are listed.
    pub fn new(alloc: Global, room: Option<u64>, failing: Vec<u64>) -> MemorySink
        ensures { result ≡ record { holds = []; room = room; failing = failing.items; calls = 0; faults = 0 } }
    {
        MemorySink {
            taken: Vec::new(alloc),
            left: room,
            listed: failing,
            number: 0,
            failed: 0,
        }
    }

    /// The bytes that it took.
    pub fn bytes(&self) -> &[u8]
        ensures { result.now ≡ self.now.holds }
    {
        self.taken.as_slice()
    }
}

// Whether a call's number is listed.
pub(crate) fn is_listed_in(listed: &[u64], number: u64) -> bool
    ensures value { result ≡ list_any (λ other. nat_eq other number) listed.now }
    ensures listed { IsTrue result ↔ Contains listed.now number }
{
    listed.contains(&number)
}

// Whether a write fails: its number is listed, or no room is left.
fn write_fails(listed: &[u64], number: u64, left: Option<u64>) -> bool
    ensures { IsTrue result ↔ (Contains listed.now number ⊎ (left ≡ Some 0)) }
{
    match left {
        Some(0) => true,
        _ => is_listed_in(listed, number),
    }
}

// How many of so many bytes there is room for.
fn fitting_count(left: Option<u64>, count: usize) -> usize
    ensures { result ≡ fitting left count }
{
    match left {
        None => count,
        Some(left) => {
            if left < count as u64 {
                left as usize
            } else {
                count
            }
        }
    }
}

impl Sink for MemorySink {
    ghost holds = { λ s. Some s.holds };

    ghost faults = { λ s. s.faults };

    fn write(&mut self, piece: &[u8]) -> Result<usize, Trouble>
        requires { 0 < length piece.now }
        ensures exact { IsErrOf result Trouble.Failed ↔ WriteFails self.old }
        ensures count { IfOk result (λ count. count ≡ fitting self.old.room (length piece.now)) }
        ensures after { self.new ≡ written self.old piece.now result }
        ensures bound { IfOk result (λ count. (0 < count) × (count ≤ length piece.now)) }
        ensures bytes { Grew (Some self.old.holds) (Some self.new.holds) (taken result piece.now) }
        ensures cause { HasCause self.old.faults self.new.faults result }
        ensures memory { IsErrOf result Trouble.NoMemory → self.new.holds ≡ self.old.holds }
    {
        if write_fails(&self.listed, self.number, self.left) {
            self.number = self.number.saturating_add(1);
            self.failed = self.failed.saturating_add(1);
            return Err(Trouble::Failed);
        }
        let count = fitting_count(self.left, piece.len());
        if self.taken.extend_from_slice(&piece[..count]).is_err() {
            return Err(Trouble::NoMemory);
        }
        if let Some(left) = self.left {
            self.left = Some(left - count as u64);
        }
        self.number = self.number.saturating_add(1);
        Ok(count)
    }
}
