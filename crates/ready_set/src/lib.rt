//! The set of the processes that are ready to run, by serial (IEEE 1666-2011, 4.2.1.2), with its members in rising order.
#![tactic(auto)]

ghost use Rattle.std.specs.Prelude.{◌≡◌, ◌⊎◌, ◌-◌, ◌^◌, ◌<◌, ◌≤◌, Some, IsTrue, OnOk, OnErr, slice_get};
ghost use Rattle.std.specs.FinSet as set;

mod laws;
mod members;

pub use laws::least_of_a_set;
use members::Members;
use std::alloc::{AllocError, Global};
use std::marker::Model;

/// A set of serials, with room for some more.
///
/// A call takes time in the logarithm of the number of members, but for `reserve`, which takes time in the room that it makes.
/// While the serials of the members follow one another it takes a few instructions; the call after which they no longer do
/// takes as long as to put each of them in.
#[derive(Drop)]
pub struct ReadySet {
    // Where the members follow one another, which they mostly do: the first of them, and how many there are.
    first: u32,
    count: u32,
    // All of them, else.
    members: Members,
}

impl Model for ReadySet {
    ghost use Rattle.ready_set.specs.Ready.{Ready, ready_code};

    ghost Value = { Ready };

    ghost coded = { ready_code };

    ghost use Rattle.ready_set.specs.Row.{with_row, IsRow};

    ghost view = { λ s. with_row s.first s.count s.members };

    ghost invariant = { λ s. IsRow s.first s.count s.members };
}

impl ReadySet {
    ghost use Rattle.ready_set.specs.Ready.{rising, with_member, without_member};

    /// A set with no member. It takes no memory.
    pub fn new(alloc: Global) -> ReadySet
        ensures { result.members ≡ set.empty }
    {
        ReadySet {
            first: 0,
            count: 0,
            members: Members::new(alloc),
        }
    }

    /// Makes room for at least `n` members more.
    #[inline(always)]
    pub fn reserve(&mut self, n: u32) -> Result<(), AllocError>
        ensures ok { OnOk result (n ≤ self.new.spare) }
        ensures grows { self.old.spare ≤ self.new.spare }
        ensures kept { self.new.members ≡ self.old.members }
        ensures err { OnErr result (self.new ≡ self.old) }
    {
        match n.checked_add(self.count) {
            Some(all) => self.members.reserve(all),
            None => Err(AllocError),
        }
    }

    /// Makes the serial a member, if it is none yet.
    #[inline(always)]
    pub fn insert(&mut self, p: u32)
        requires room { IsTrue (set.contains self.old.members p) ⊎ (0 < self.old.spare) }
        requires below { p < 2 ^ 32 - 1 }
        ensures { self.new ≡ with_member self.old p }
    {
        if self.count == 0 {
            if self.members.is_empty() {
                self.first = p;
                self.count = 1;
            } else {
                self.members.insert(p);
            }
        } else if p == self.first + self.count {
            self.count += 1;
        } else if p + 1 == self.first {
            self.first = p;
            self.count += 1;
        } else if p < self.first || self.first + self.count < p {
            self.members.insert_row(self.first, self.count);
            self.count = 0;
            self.members.insert(p);
        }
    }

    /// Takes the serial out, and says whether it was a member.
    #[inline(always)]
    pub fn remove(&mut self, p: u32) -> bool
        ensures answer { result ≡ set.contains self.old.members p }
        ensures left { self.new ≡ without_member self.old p }
    {
        if self.count == 0 {
            return self.members.remove(p);
        }
        if p < self.first || self.first + self.count <= p {
            return false;
        }
        if p == self.first {
            self.first += 1;
            self.count -= 1;
        } else if p + 1 == self.first + self.count {
            self.count -= 1;
        } else {
            self.members.insert_row(self.first, self.count);
            self.count = 0;
            self.members.remove(p);
        }
        true
    }

    /// How many members there are.
    #[inline(always)]
    pub fn len(&self) -> u32
        ensures { result ≡ set.len self.now.members }
    {
        if self.count == 0 {
            return self.members.len();
        }
        self.count
    }

    /// Whether the serial is a member.
    #[inline(always)]
    pub fn has(&self, p: u32) -> bool
        ensures { result ≡ set.contains self.now.members p }
    {
        if self.count == 0 {
            return self.members.has(p);
        }
        if p < self.first {
            return false;
        }
        p < self.first + self.count
    }

    /// The member at place `k` of the rising order, counted from 0, or `None` where there are at most `k`.
    #[inline(always)]
    pub fn kth(&self, k: u32) -> Option<u32>
        ensures { result ≡ slice_get (rising self.now.members) k }
    {
        if self.count == 0 {
            return self.members.kth(k);
        }
        if k < self.count {
            Some(self.first + k)
        } else {
            None
        }
    }

    /// The least member, or `None` where there is none.
    #[inline(always)]
    pub fn least(&self) -> Option<u32>
        ensures { result ≡ slice_get (rising self.now.members) 0 }
    {
        if self.count == 0 {
            return self.members.least();
        }
        Some(self.first)
    }

    /// The greatest member, or `None` where there is none.
    pub fn greatest(&self) -> Option<u32>
        ensures { result ≡ slice_get (rising self.now.members) (set.len self.now.members - 1) }
    {
        if self.count == 0 {
            return self.members.greatest();
        }
        Some(self.first + (self.count - 1))
    }
}

/// What is passed on of room_map.
pub mod room_map_api {
    pub use room_map::RoomMap;
}
