//! The names with their times, each of them in a wheel.
ghost use Rattle.std.specs.Prelude.{◌≡◌, ℕ, ◌⊎◌, ◌↔◌, ◌+◌, ◌++◌, ◌<◌, ◌≤◌, false, true, take, drop, length, IsTrue, IsNone, IfNone, IfSome, OnOk, OnErr, vec_len, vec_capacity};
ghost use Rattle.std.specs.FinMap as map;
ghost use Rattle.std.specs.Ordering.{nat_cmp};
ghost use Rattle.std.specs.List.Sorted.{IsSorted, IsPermutation};

use crate::chains::name_of;
use crate::wheel::Wheel;
use room_map::RoomMap;
use sim_time::Time;
use std::alloc::{AllocError, Global};
use std::marker::Model;

// A queue whose names stand in a wheel, all of them.
#[derive(Drop)]
pub(crate) struct Queue {
    // The node of each name.
    index: RoomMap<u32, u32>,
    wheel: Wheel,
}

impl Model for Queue {
    ghost use Rattle.timed_queue.specs.Timed.{Timed, timed_code};

    ghost Value = { Timed };

    ghost coded = { timed_code };

    ghost use Rattle.std.specs.Prelude.{length};
    ghost use Rattle.timed_queue.specs.Layout.{times_of, IsQueue, HasRoom};

    ghost view = { λ q. record {
      times = times_of q.index.entries q.wheel.nodes.items;
      spare = q.wheel.room;
    } };

    ghost invariant = { λ q. IsQueue q.index.entries q.wheel × HasRoom q.wheel.room q.index.spare (length q.index.entries) };
}

impl Queue {
    ghost use Rattle.timed_queue.specs.Timed.{with_time, without, without_due, due_at, is_due, IsEarliest, AddsEach};

    // A queue with no name and no room. It takes no memory.
    pub(crate) fn new(alloc: Global) -> Queue
        ensures { result.times ≡ map.empty }
    {
        Queue {
            index: RoomMap::new(alloc),
            wheel: Wheel::new(alloc),
        }
    }

    // How many names there are.
    #[inline(always)]
    pub(crate) fn len(&self) -> u32
        ensures { result ≡ map.len self.now.times }
    {
        self.index.len()
    }

    // Whether there is no name.
    #[inline(always)]
    pub(crate) fn is_empty(&self) -> bool
        ensures { IsTrue result ↔ (map.len self.now.times ≡ 0) }
    {
        self.index.is_empty()
    }

    // For how many names more there is room.
    #[inline(always)]
    pub(crate) fn spare(&self) -> u32
        ensures { result ≡ self.now.spare }
    {
        self.wheel.room
    }

    // Makes room where there is less than for `n` names more.
    #[inline(never)]
    fn make_room(&mut self, n: u32) -> Result<(), AllocError>
        ensures ok { OnOk result (n ≤ self.new.spare) }
        ensures grows { self.old.spare ≤ self.new.spare }
        ensures kept { self.new.times ≡ self.old.times }
        ensures err { OnErr result (self.new ≡ self.old) }
    {
        match self.index.reserve(n) {
            Ok(()) => {
                // It tells that there are less than 2^32 names and places.
                let _names = self.index.len();
                self.wheel.reserve(n)
            }
            Err(error) => Err(error),
        }
    }

    // Makes room for at least `n` names more.
    #[inline(always)]
    pub(crate) fn reserve(&mut self, n: u32) -> Result<(), AllocError>
        ensures ok { OnOk result (n ≤ self.new.spare) }
        ensures grows { self.old.spare ≤ self.new.spare }
        ensures kept { self.new.times ≡ self.old.times }
        ensures err { OnErr result (self.new ≡ self.old) }
    {
        if n <= self.wheel.room {
            return Ok(());
        }
        self.make_room(n)
    }

    // Gives the name this time, in place of the one that it had.
    #[inline(never)]
    pub(crate) fn set(&mut self, name: u32, t: Time)
        requires { IsTrue (map.contains_key self.old.times name) ⊎ (0 < self.old.spare) }
        ensures { self.new ≡ with_time self.old name t }
    {
        self.wheel.lower(t.0);
        match self.index.get(name) {
            Some(i) => self.wheel.renew(i, name, t.0),
            None => {
                let i = self.wheel.add(name, t.0);
                self.index.insert(name, i);
            }
        }
    }

    // Takes the name out, if it is there.
    #[inline(always)]
    pub(crate) fn clear(&mut self, name: u32)
        ensures { self.new ≡ without self.old name }
    {
        match self.index.remove(name) {
            Some(i) => self.wheel.remove(i),
            None => {}
        }
    }

    // The earliest time that a name has.
    pub(crate) fn earliest(&self) -> Option<Time>
        ensures empty { IsNone result ↔ (self.now.times ≡ map.empty) }
        ensures least { IfSome result (IsEarliest self.now.times) }
    {
        match self.wheel.least() {
            Some(t) => Some(Time(t)),
            None => None,
        }
    }

    // A time that no name's time is before, in the time of a few tests: the first time of the first place that holds a name.
    #[inline(always)]
    pub(crate) fn not_before(&self) -> Option<Time>
        ensures none { IsNone result ↔ (self.now.times ≡ map.empty) }
        ensures bound { IfSome result (λ t. (name : ℕ) (other : Time) → map.get self.now.times name ≡ Some other → t.0 ≤ other.0) }
    {
        match self.wheel.bound() {
            Some(t) => Some(Time(t)),
            None => None,
        }
    }

    // Whether a name may have a time so early: the first place that holds one begins no later.
    #[inline(always)]
    fn reaches(&self, t: Time) -> bool
        ensures { result ≡ false → (p : ℕ) → is_due self.now.times t p ≡ false }
    {
        match self.not_before() {
            Some(bound) => {
                if t.0 < bound.0 {
                    return false;
                }
                true
            }
            None => false,
        }
    }

    // A name with this very time.
    #[inline(always)]
    fn due_name(&self, t: Time) -> Option<u32>
        ensures none { IfNone result ((p : ℕ) → is_due self.now.times t p ≡ false) }
        ensures some { IfSome result (λ name. is_due self.now.times t name ≡ true) }
    {
        if self.is_empty() {
            return None;
        }
        match self.wheel.due_node(t.0) {
            Some(i) => Some(name_of(&self.wheel.nodes, i)),
            None => None,
        }
    }

    // Brings the origin to this time, where no earlier one is held.
    #[inline(always)]
    fn follow(&mut self, t: Time)
        ensures { self.new ≡ self.old }
    {
        if self.index.is_empty() {
            self.wheel.begin_at(t.0);
        } else {
            self.wheel.follow(t.0);
        }
    }

    // Moves each name with this very time out of the queue and behind what `out` has. The origin comes to that time once the first
    // of them is out, so that the others stand together.
    #[inline(always)]
    fn move_due(&mut self, t: Time, out: &mut Vec<u32>)
        requires { vec_len out.old + map.len (due_at self.old.times t) ≤ vec_capacity out.old }
        ensures left { self.new ≡ without_due self.old t }
        ensures taken { AddsEach out.old.items out.new.items (is_due self.old.times t) }
        ensures capacity { vec_capacity out.new ≡ vec_capacity out.old }
    {
        'taking: while let Some(name) = self.due_name(t) {
            self.clear(name);
            self.follow(t);
            out.push_reserved(name);
        }
    }

    // Moves each name with this very time out of the queue and behind what `out` has, in rising order of the names.
    #[inline(never)]
    pub(crate) fn take_due(&mut self, t: Time, out: &mut Vec<u32>)
        requires { vec_len out.old + map.len (due_at self.old.times t) ≤ vec_capacity out.old }
        ensures left { self.new ≡ without_due self.old t }
        ensures taken { AddsEach out.old.items out.new.items (is_due self.old.times t) }
        ensures order { out.new.items ≡ out.old.items ++ map.keys (due_at self.old.times t) }
        ensures capacity { vec_capacity out.new ≡ vec_capacity out.old }
    {
        if !self.reaches(t) {
            return;
        }
        let had = out.len();
        self.move_due(t, out);
        self.follow(t);
        sort_from(out, had);
    }
}

// Sorts the numbers from this place on.
#[inline(always)]
fn sort_from(out: &mut Vec<u32>, from: usize)
    requires { from ≤ vec_len out.old }
    ensures front { take from out.new.items ≡ take from out.old.items }
    ensures permuted { IsPermutation (drop from out.old.items) (drop from out.new.items) }
    ensures sorted { IsSorted nat_cmp (drop from out.new.items) }
    ensures capacity { vec_capacity out.new ≡ vec_capacity out.old }
{
    let added = out.len() - from;
    if added < 2 {
        return;
    }
    out[from..].sort_unstable();
}
