//! Who waits for which event: for each instance the events that it waits for, and whether any or all of them must come (IEEE 1666-2011, 5.2.18 and 5.8).
//!
//! An event looks only at those who wait for it or did so last, and an instance that waits for others only at what it waited
//! for: a call takes time in the logarithm of the number of instances and events that are waited for, times those that it looks
//! at. One that waits again for the same events is linked already.
#![tactic(auto)]

ghost use Rattle.std.specs.Prelude.{◌≡◌, ℕ, ◌≢◌, ◌+◌, ◌≤◌, None, IsTrue, OnOk, OnErr, length, vec_len, vec_capacity, drop};
ghost use Rattle.std.specs.List.Sorted.{IsStrictlyIncreasing};
ghost use Rattle.std.specs.FinMap as map;
ghost use Rattle.std.specs.FinSet as set;

mod firing;
mod growing;
mod heads;
mod laws;
mod layout;
mod linking;
mod nodes;
mod waiter;

pub use event_core::Ev;
use firing::strike_all;
use growing::make_room;
pub use laws::{
    as_many_as_have_room, as_many_as_serials, as_many_as_wait_for_it, who_waits_has_room,
};
use layout::{Kept, end_wait, nothing_kept, put_out, set_mark, set_wait};
use std::alloc::{AllocError, Global};
use std::marker::Model;

/// The waits of all instances.
#[derive(Drop)]
pub struct WaitLists {
    kept: Kept,
}

impl Model for WaitLists {
    ghost use Rattle.wait_lists.specs.Waits.{Waits, waits_code};

    ghost Value = { Waits };

    ghost coded = { waits_code };

    ghost use Rattle.wait_lists.specs.Layout.{IsSound, waits_by};

    ghost view = { λ w. waits_by w.kept };

    ghost invariant = { λ w. IsSound w.kept };
}

impl WaitLists {
    ghost use Rattle.wait_lists.specs.Waits.{any_of, all_of, with_wait, with_mark, without_instance, wait_after, waits_naming, is_met_by, room_for, HasRoom, AddsEach};

    /// Lists in which no instance waits, and with no room. It takes no memory.
    pub fn new(alloc: Global) -> WaitLists
        ensures waits { result.waits ≡ map.empty }
        ensures muted { result.muted ≡ set.empty }
        ensures room { result.room ≡ map.empty }
    {
        WaitLists {
            kept: nothing_kept(alloc),
        }
    }

    /// How many instances have room. An event gives out no more than these.
    pub fn instances(&self) -> u32
        ensures { result ≡ map.len self.now.room }
    {
        self.kept.places.len()
    }

    /// Makes room for the instance `p`, so that it can wait for as many as `items` events.
    ///
    /// The room stays, used or not, until `forget`. It runs out of memory, too, where there would be room for 2^32 events or more in all.
    #[inline(always)]
    pub fn reserve_for(&mut self, p: u32, items: u32) -> Result<(), AllocError>
        ensures ok { OnOk result (HasRoom self.new p items) }
        ensures grows { room_for self.old p ≤ room_for self.new p }
        ensures others { (q : ℕ) → q ≢ p → map.get self.new.room q ≡ map.get self.old.room q }
        ensures kept { self.new ≡ record self.old { room = self.new.room } }
        ensures err { OnErr result (self.new ≡ self.old) }
    {
        make_room(&mut self.kept, p, items)
    }

    /// Lets `p` wait for any of these events, in place of what it waited for. With no event it waits for nothing.
    #[inline(always)]
    pub fn wait_any(&mut self, p: u32, list: &[Ev])
        requires { length list.now ≤ room_for self.old p }
        ensures { self.new ≡ with_wait self.old p (any_of list.now) }
    {
        set_wait(&mut self.kept, p, false, list);
    }

    /// Lets `p` wait for all of these events, in place of what it waited for. One that stands twice counts once. With no event it waits for nothing.
    pub fn wait_all(&mut self, p: u32, list: &[Ev])
        requires { length list.now ≤ room_for self.old p }
        ensures { self.new ≡ with_wait self.old p (all_of list.now) }
    {
        set_wait(&mut self.kept, p, true, list);
    }

    /// Takes `p` out of all lists. Its mark and its room stay.
    #[inline(always)]
    pub fn leave(&mut self, p: u32)
        ensures { self.new ≡ with_wait self.old p None }
    {
        end_wait(&mut self.kept, p);
    }

    /// Mutes `p` or ends that: while it is muted, events pass it by.
    pub fn mute(&mut self, p: u32, on: bool)
        requires { IsTrue (map.contains_key self.old.room p) }
        ensures { self.new ≡ with_mark self.old p on }
    {
        set_mark(&mut self.kept, p, on);
    }

    /// Takes `p` out of all lists, with its mark and its room. Others use its memory from now on.
    pub fn forget(&mut self, p: u32)
        ensures { self.new ≡ without_instance self.old p }
    {
        put_out(&mut self.kept, p);
    }

    /// Strikes the event from each wait of an instance that is not muted, and adds the instances whose wait is met to `out`, by rising serials: those are in no list any more.
    #[inline(always)]
    pub fn fire(&mut self, e: Ev, out: &mut Vec<u32>)
        requires { vec_len out.old + map.len (waits_naming self.old e) ≤ vec_capacity out.old }
        ensures struck { (p : ℕ) → map.get self.new.waits p ≡ wait_after self.old p e }
        ensures kept { self.new ≡ record self.old { waits = self.new.waits } }
        ensures met { AddsEach out.old.items out.new.items (λ p. is_met_by self.old p e) }
        ensures rising { IsStrictlyIncreasing (drop (vec_len out.old) out.new.items) }
        ensures capacity { vec_capacity out.new ≡ vec_capacity out.old }
    {
        strike_all(&mut self.kept, e, out);
    }
}

/// What is passed on of event_core.
pub mod event_core_api {
    pub use event_core::{Ev, Pending, When};
}
