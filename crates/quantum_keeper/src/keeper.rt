ghost use Rattle.std.specs.Prelude.{◌≡◌, ◌+◌, ◌≤◌, ◌^◌, ◌<◌, Option, IsSome, IsNone, IfSome, ◌↔◌, is_some, unwrap_or};
ghost use Rattle.quantum_keeper.specs.Keepers.{quantum_left, at_start, after_reset, after_inc, with_local, must_sync};

use sim_time::{Time, add};

/// How far simulated time is from the next multiple of the global quantum, in picoseconds.
///
/// It is the whole global quantum where `now` is such a multiple, and 0 where the global quantum is 0
/// (IEEE 1666-2011, clause 12, `compute_local_quantum` of `tlm_global_quantum`).
pub fn local_quantum(global: Time, now: Time) -> Time
    ensures { result.0 ≡ quantum_left global.0 now.0 }
{
    if global.0 == 0 {
        return Time(0);
    }
    Time(global.0 - now.0 % global.0)
}

/// A quantum keeper: how far its process is ahead of simulated time, and when it has to wait for the others
/// (IEEE 1666-2011, 16.2, `tlm_quantumkeeper`).
#[derive(Clone, Copy, Debug, PartialEq, Eq)]
pub struct Keeper {
    local: Time,
    next: Time,
}

impl Keeper {
    /// A keeper whose local time and whose next sync point are 0.
    pub fn new() -> Keeper
        ensures { result ≡ at_start }
    {
        Keeper {
            local: Time(0),
            next: Time(0),
        }
    }

    /// Sets the local time to 0, and the next sync point to `now` and the local quantum from there.
    ///
    /// It is `None`, and nothing changes, exactly where that sum passes 2^64 - 1 picoseconds.
    pub fn reset(&mut self, global: Time, now: Time) -> Option<()>
        ensures answer { is_some result ≡ is_some (after_reset global.0 now.0) }
        ensures keeper { self.new ≡ unwrap_or (after_reset global.0 now.0) self.old }
    {
        let next = add(now, local_quantum(global, now))?;
        self.local = Time(0);
        self.next = next;
        Some(())
    }

    /// Adds a time to the local time.
    ///
    /// It is `None`, and nothing changes, exactly where that sum passes 2^64 - 1 picoseconds.
    pub fn inc(&mut self, t: Time) -> Option<()>
        ensures answer { is_some result ≡ is_some (after_inc self.old t.0) }
        ensures keeper { self.new ≡ unwrap_or (after_inc self.old t.0) self.old }
    {
        self.local = add(self.local, t)?;
        Some(())
    }

    /// Whether `now` and the local time reach the next sync point.
    ///
    /// It is `None` exactly where their sum passes 2^64 - 1 picoseconds.
    pub fn need_sync(&self, now: Time) -> Option<bool>
        ensures { result ≡ must_sync self.now now.0 }
    {
        let ahead = add(now, self.local)?;
        Some(ahead.0 >= self.next.0)
    }

    /// Sets the local time.
    pub fn set(&mut self, t: Time)
        ensures { self.new ≡ with_local self.old t.0 }
    {
        self.local = t;
    }

    /// The local time: how far the process is ahead of simulated time.
    pub fn local(&self) -> Time
        ensures { result ≡ self.now.local }
    {
        self.local
    }

    /// The next sync point, in simulated time.
    pub fn next(&self) -> Time
        ensures { result ≡ self.now.next }
    {
        self.next
    }
}
