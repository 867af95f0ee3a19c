//! What is kept of one instance: where its list begins, what kind of wait it is, its mark and its room.
ghost use Rattle.std.specs.Prelude.{◌≡◌, ◌<◌, false, Some, length, slice_get, slice_set, vec_capacity};
ghost use Rattle.wait_lists.specs.declared.waiter.Waiter.{Waiter};
ghost use Rattle.wait_lists.specs.Chains.{none};

use crate::nodes::NONE;

#[derive(Clone, Copy)]
pub(crate) struct Waiter {
    pub(crate) serial: u32,
    // The node of the first event that it waits for.
    pub(crate) first: u32,
    // For how many events there is room.
    pub(crate) room: u32,
    pub(crate) for_all: bool,
    pub(crate) is_muted: bool,
    // Whether its wait is over. Its nodes stay until it waits for other events, or is put out.
    pub(crate) is_over: bool,
}

// An instance that waits for nothing, with room for so many events.
pub(crate) fn idle_waiter(serial: u32, room: u32) -> Waiter
    ensures { result ≡ record { serial = serial; first = none; room = room; for_all = false; is_muted = false; is_over = false } }
{
    Waiter {
        serial,
        first: NONE,
        room,
        for_all: false,
        is_muted: false,
        is_over: false,
    }
}

// Lets the waiter at this place wait for all of the events of its nodes, or for any.
#[inline(always)]
pub(crate) fn set_kind(waiters: &mut Vec<Waiter>, at: u32, for_all: bool)
    requires { at < length waiters.old.items }
    ensures { (w : Waiter) → slice_get waiters.old.items at ≡ Some w → waiters.new.items ≡ slice_set waiters.old.items at (record w { for_all = for_all; is_over = false }) }
{
    let waiter = waiters[at as usize];
    waiters[at as usize] = Waiter {
        for_all,
        is_over: false,
        ..waiter
    };
}

// Ends the wait of the waiter at this place, or lets it wait as its nodes say.
#[inline(always)]
pub(crate) fn set_over(waiters: &mut Vec<Waiter>, at: u32, is_over: bool)
    requires { at < length waiters.old.items }
    ensures { (w : Waiter) → slice_get waiters.old.items at ≡ Some w → waiters.new.items ≡ slice_set waiters.old.items at (record w { is_over = is_over }) }
{
    waiters[at as usize].is_over = is_over;
}

// Mutes the waiter at this place, or ends that.
#[inline(always)]
pub(crate) fn set_muted(waiters: &mut Vec<Waiter>, at: u32, is_muted: bool)
    requires { at < length waiters.old.items }
    ensures { (w : Waiter) → slice_get waiters.old.items at ≡ Some w → waiters.new.items ≡ slice_set waiters.old.items at (record w { is_muted = is_muted }) }
{
    waiters[at as usize].is_muted = is_muted;
}

// Gives the waiter at this place room for so many events.
pub(crate) fn set_room(waiters: &mut Vec<Waiter>, at: u32, room: u32)
    requires { at < length waiters.old.items }
    ensures { (w : Waiter) → slice_get waiters.old.items at ≡ Some w → waiters.new.items ≡ slice_set waiters.old.items at (record w { room = room }) }
{
    waiters[at as usize].room = room;
}

// Puts this waiter at the place.
pub(crate) fn put_waiter(waiters: &mut Vec<Waiter>, at: u32, waiter: Waiter)
    requires { at < length waiters.old.items }
    ensures { waiters.new.items ≡ slice_set waiters.old.items at waiter }
{
    waiters[at as usize] = waiter;
}
