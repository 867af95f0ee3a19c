//! A queue of names by time: each name has at most one time, and the earliest time comes first (IEEE 1666-2011, 4.2.1.5).
#![tactic(auto)]

ghost use Rattle.std.specs.Prelude.{◌≡◌, ℕ, ◌⊎◌, ◌↔◌, ◌+◌, ◌++◌, ◌<◌, ◌≤◌, Some, IsTrue, IsNone, IfNone, IfSome, OnOk, OnErr, vec_len, vec_capacity};
ghost use Rattle.std.specs.FinMap as map;

mod chains;
mod entries;
mod laws;
mod marks;
mod moving;
mod noted;
mod placing;
mod queue;
mod room;
mod walking;
mod wheel;

pub use laws::due_names_are_held;
use noted::Noted;
use sim_time::Time;
use std::alloc::{AllocError, Global};
use std::marker::Model;

/// A map from names to times, with room for some names more.
///
/// A wheel of 11 levels of 64 places: a time stands on the level of the highest digit to the base 64 in which it differs from
/// the origin, a time that no name is before. A call takes the time of one or two look-ups of a name, but for `reserve`, which takes
/// time in the room that it makes; `earliest`, which looks at all names of one place; `take_due`, which looks up each name
/// that it gives, and brings the origin to its time; and a `set` before the origin, which moves all names. A name that comes where
/// there is none is kept beside the wheel until another one comes: a call takes the time of a few tests as long as it is the only one.
#[derive(Drop)]
pub struct TimedQueue {
    // The only name with its time, while no other has come since there was none.
    only: Option<Only>,
    // All of them, else.
    queue: Noted,
}

// A name with its time.
#[derive(Clone, Copy)]
struct Only {
    name: u32,
    time: Time,
}

impl Model for TimedQueue {
    ghost use Rattle.timed_queue.specs.Timed.{Timed, timed_code};

    ghost Value = { Timed };

    ghost coded = { timed_code };

    ghost use Rattle.timed_queue.specs.Alone.{with_only, MayBeAlone};

    ghost view = { λ q. with_only q.only q.queue };

    ghost invariant = { λ q. MayBeAlone q.only q.queue };
}

impl TimedQueue {
    ghost use Rattle.timed_queue.specs.Timed.{with_time, without, without_due, due_at, is_due, IsEarliest, AddsEach};

    /// A queue with no name and no room. It takes no memory.
    pub fn new(alloc: Global) -> TimedQueue
        ensures { result.times ≡ map.empty }
    {
        TimedQueue {
            only: None,
            queue: Noted::new(alloc),
        }
    }

    /// How many names there are.
    #[inline(always)]
    pub fn len(&self) -> u32
        ensures { result ≡ map.len self.now.times }
    {
        match self.only {
            None => self.queue.len(),
            Some(_) => 1,
        }
    }

    /// Whether there is no name.
    #[inline(always)]
    pub fn is_empty(&self) -> bool
        ensures { IsTrue result ↔ (map.len self.now.times ≡ 0) }
    {
        self.len() == 0
    }

    /// Makes room for at least `n` names more.
    #[inline(always)]
    pub fn reserve(&mut self, n: u32) -> Result<(), AllocError>
        ensures ok { OnOk result (n ≤ self.new.spare) }
        ensures grows { self.old.spare ≤ self.new.spare }
        ensures kept { self.new.times ≡ self.old.times }
        ensures err { OnErr result (self.new ≡ self.old) }
    {
        match self.only {
            None => self.queue.reserve(n),
            Some(_) => match n.checked_add(1) {
                Some(all) => self.queue.reserve(all),
                None => Err(AllocError),
            },
        }
    }

    /// Gives the name this time, in place of the one that it had.
    #[inline(always)]
    pub fn set(&mut self, name: u32, t: Time)
        requires { IsTrue (map.contains_key self.old.times name) ⊎ (0 < self.old.spare) }
        ensures { self.new ≡ with_time self.old name t }
    {
        match self.only {
            None => {
                if self.queue.is_empty() {
                    self.only = Some(Only { name, time: t });
                } else {
                    self.queue.set(name, t);
                }
            }
            Some(only) => {
                if only.name == name {
                    self.only = Some(Only { name, time: t });
                } else {
                    self.only = None;
                    self.queue.set(only.name, only.time);
                    self.queue.set(name, t);
                }
            }
        }
    }

    /// Takes the name out, if it is there.
    #[inline(always)]
    pub fn clear(&mut self, name: u32)
        ensures { self.new ≡ without self.old name }
    {
        match self.only {
            None => self.queue.clear(name),
            Some(only) => {
                if only.name == name {
                    self.only = None;
                }
            }
        }
    }

    /// The earliest time that a name has.
    #[inline(always)]
    pub fn earliest(&self) -> Option<Time>
        ensures empty { IsNone result ↔ (self.now.times ≡ map.empty) }
        ensures least { IfSome result (IsEarliest self.now.times) }
    {
        match self.only {
            None => self.queue.earliest(),
            Some(only) => Some(only.time),
        }
    }

    /// A time that no name's time is before, in the time of a few tests: the first time of the first place that holds a name.
    #[inline(always)]
    pub fn not_before(&self) -> Option<Time>
        ensures none { IsNone result ↔ (self.now.times ≡ map.empty) }
        ensures bound { IfSome result (λ t. (name : ℕ) (other : Time) → map.get self.now.times name ≡ Some other → t.0 ≤ other.0) }
    {
        match self.only {
            None => self.queue.not_before(),
            Some(only) => Some(only.time),
        }
    }

    /// Moves each name with this very time out of the queue and behind what `out` has, in rising order of the names.
    #[inline(always)]
    pub fn take_due(&mut self, t: Time, out: &mut Vec<u32>)
        requires { vec_len out.old + map.len (due_at self.old.times t) ≤ vec_capacity out.old }
        ensures left { self.new ≡ without_due self.old t }
        ensures taken { AddsEach out.old.items out.new.items (is_due self.old.times t) }
        ensures order { out.new.items ≡ out.old.items ++ map.keys (due_at self.old.times t) }
        ensures capacity { vec_capacity out.new ≡ vec_capacity out.old }
    {
        match self.only {
            None => self.queue.take_due(t, out),
            Some(only) => {
                if only.time.0 == t.0 {
                    self.only = None;
                    out.push_reserved(only.name);
                }
            }
        }
    }
}

/// What is passed on of sim_time.
pub mod sim_time_api {
    pub use sim_time::{Time, add};
}
