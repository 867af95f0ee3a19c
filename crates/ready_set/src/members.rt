//! The members of a set as keys of a map.
ghost use Rattle.std.specs.Prelude.{◌≡◌, ◌⊎◌, ◌-◌, ◌^◌, ◌<◌, ◌≤◌, true, IsTrue, OnOk, OnErr, option_map, slice_get};
ghost use Rattle.std.specs.FinSet as set;

use room_map::RoomMap;
use std::alloc::{AllocError, Global};
use std::marker::Model;

// A set of serials, with room for some more, each of them in the map.
#[derive(Drop)]
pub(crate) struct Members {
    kept: RoomMap<u32, ()>,
}

impl Model for Members {
    ghost use Rattle.std.specs.Ordering.{nat_cmp};
    ghost use Rattle.std.specs.FinSet as set;
    ghost use Rattle.room_map.specs.Entries.{IsRising};
    ghost use Rattle.ready_set.specs.Ready.{Ready, ready_code};

    ghost Value = { Ready };

    ghost coded = { ready_code };

    ghost use Rattle.ready_set.specs.Layout.{keys_of};

    ghost view = { λ s. record {
      members = set.from_list (keys_of s.kept.entries);
      spare = s.kept.spare;
    } };

    ghost invariant = { λ s. IsRising nat_cmp s.kept.entries };
}

// The key of an entry.
#[inline(always)]
fn key_of(entry: Option<(u32, ())>) -> Option<u32>
    ensures { result ≡ option_map (λ e. e.0) entry }
{
    match entry {
        Some((key, _)) => Some(key),
        None => None,
    }
}

impl Members {
    ghost use Rattle.ready_set.specs.Ready.{rising, with_member, without_member};
    ghost use Rattle.ready_set.specs.Row.{with_row, IsRow};

    // A set with no member. It takes no memory.
    pub(crate) fn new(alloc: Global) -> Members
        ensures { result.members ≡ set.empty }
    {
        Members {
            kept: RoomMap::new(alloc),
        }
    }

    // Makes room for at least `n` members more.
    #[inline(always)]
    pub(crate) fn reserve(&mut self, n: u32) -> Result<(), AllocError>
        ensures ok { OnOk result (n ≤ self.new.spare) }
        ensures grows { self.old.spare ≤ self.new.spare }
        ensures kept { self.new.members ≡ self.old.members }
        ensures err { OnErr result (self.new ≡ self.old) }
    {
        self.kept.reserve(n)
    }

    // Makes the serial a member, if it is none yet.
    #[inline(never)]
    pub(crate) fn insert(&mut self, p: u32)
        requires room { IsTrue (set.contains self.old.members p) ⊎ (0 < self.old.spare) }
        requires below { p < 2 ^ 32 - 1 }
        ensures { self.new ≡ with_member self.old p }
    {
        if self.has(p) {
            return;
        }
        self.kept.insert(p, ());
    }

    // Makes so many serials that follow one another members, where there is none yet.
    #[inline(never)]
    pub(crate) fn insert_row(&mut self, first: u32, count: u32)
        requires row { IsRow first count self.old }
        requires some { 0 < count }
        ensures { self.new ≡ with_row first count self.old }
    {
        for p in first..first + count {
            self.insert(p);
        }
    }

    // Takes the serial out, and says whether it was a member.
    #[inline(always)]
    pub(crate) fn remove(&mut self, p: u32) -> bool
        ensures answer { result ≡ set.contains self.old.members p }
        ensures left { self.new ≡ without_member self.old p }
    {
        self.kept.remove(p).is_some()
    }

    // Whether there is no member.
    #[inline(always)]
    pub(crate) fn is_empty(&self) -> bool
        ensures { result ≡ true → self.now.members ≡ set.empty }
    {
        self.kept.is_empty()
    }

    // How many members there are.
    pub(crate) fn len(&self) -> u32
        ensures { result ≡ set.len self.now.members }
    {
        self.kept.len()
    }

    // Whether the serial is a member.
    #[inline(always)]
    pub(crate) fn has(&self, p: u32) -> bool
        ensures { result ≡ set.contains self.now.members p }
    {
        self.kept.contains(p)
    }

    // The member at place `k` of the rising order, counted from 0, or `None` where there are at most `k`.
    #[inline(always)]
    pub(crate) fn kth(&self, k: u32) -> Option<u32>
        ensures { result ≡ slice_get (rising self.now.members) k }
    {
        key_of(self.kept.kth(k))
    }

    // The least member, or `None` where there is none.
    #[inline(always)]
    pub(crate) fn least(&self) -> Option<u32>
        ensures { result ≡ slice_get (rising self.now.members) 0 }
    {
        key_of(self.kept.least())
    }

    // The greatest member, or `None` where there is none.
    pub(crate) fn greatest(&self) -> Option<u32>
        ensures { result ≡ slice_get (rising self.now.members) (set.len self.now.members - 1) }
    {
        key_of(self.kept.greatest())
    }
}
