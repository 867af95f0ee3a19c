//! Waits of the active instance.
ghost use Rattle.std.specs.Prelude.{◌≡◌, ◌≤◌, ◌<◌, ◌-◌, ◌^◌, false, true, OnOk, OnErr, length};
ghost use Rattle.std.specs.FinMap as map;
ghost use Rattle.wait_lists.specs.Waits.{room_for};
ghost use Rattle.kernel_processes.specs.Sound.{IsSound};
ghost use Rattle.kernel_processes.specs.Moves.{events_of, sensitive_of, with_entry, HasNoTimeOut, Changes, MovesOne};
ghost use Rattle.kernel_processes.specs.Moved.{HasRoom, IsTop, Stays, leaves_top, waits_as, for_event, rests_as, waiting_seen};

use super::changes::{hold_room, put_time, wait_for_one, wait_in_lists};
use super::turns::leave_stack;
use crate::{Schedule, Trigger, count_events};
use instance_table::Deadline;
use std::alloc::AllocError;
use wait_lists::event_core_api::Ev;

/// Makes room for a wait of the instance.
#[inline(always)]
fn make_room<B>(s: &mut Schedule<B>, p: u32, t: &Trigger) -> Result<(), AllocError>
    requires { map.contains_key s.old.lists.room p ≡ true }
    ensures changes { Changes p (λ x. x) s.old s.new }
    ensures table { s.new.table ≡ s.old.table }
    ensures events { OnOk result (length (events_of t.now.wait (sensitive_of (map.get s.new.table.live p))) ≤ room_for s.new.lists p) }
    ensures times { OnOk result (0 < s.new.deadlines.spare) }
    ensures zeros { OnOk result (0 < s.new.zero.spare) }
{
    match count_events(s, p, &t.wait) {
        Some(n) => hold_room(s, p, n),
        None => Err(AllocError),
    }
}

/// Puts an instance that has no time-out into the wait lists and the queues of time-outs.
#[inline(always)]
fn put<B>(s: &mut Schedule<B>, p: u32, t: &Trigger)
    requires below { p < 2 ^ 32 - 1 }
    requires events { length (events_of t.now.wait (sensitive_of (map.get s.old.table.live p))) ≤ room_for s.old.lists p }
    requires times { 0 < s.old.deadlines.spare }
    requires zeros { 0 < s.old.zero.spare }
    requires untimed { HasNoTimeOut p s.old }
    ensures { Changes p (waiting_seen t.now) s.old s.new }
{
    put_time(s, p, t.deadline);
    wait_in_lists(s, p, t, false);
}

/// The same of an instance whose body has not begun.
#[inline(always)]
fn put_resting<B>(s: &mut Schedule<B>, p: u32, t: &Trigger)
    requires below { p < 2 ^ 32 - 1 }
    requires events { length (events_of t.now.wait (sensitive_of (map.get s.old.table.live p))) ≤ room_for s.old.lists p }
    requires times { 0 < s.old.deadlines.spare }
    requires zeros { 0 < s.old.zero.spare }
    requires untimed { HasNoTimeOut p s.old }
    ensures { Changes p (λ v. with_entry (λ x. record x { started = false }) (waiting_seen t.now v)) s.old s.new }
{
    put_time(s, p, t.deadline);
    wait_in_lists(s, p, t, true);
}

/// Puts an instance that has no time-out into the list of one event.
#[inline(always)]
fn put_for<B>(s: &mut Schedule<B>, p: u32, e: Ev)
    requires below { p < 2 ^ 32 - 1 }
    requires event { 1 ≤ room_for s.old.lists p }
    requires times { 0 < s.old.deadlines.spare }
    requires zeros { 0 < s.old.zero.spare }
    requires untimed { HasNoTimeOut p s.old }
    ensures { Changes p (waiting_seen (for_event e)) s.old s.new }
{
    put_time(s, p, Deadline::None);
    wait_for_one(s, p, e);
}

/// The instance on top leaves the stack and waits so (IEEE 1666-2011, 5.2.18). Where memory is refused nothing changes.
pub fn wait<B>(s: &mut Schedule<B>, p: u32, t: &Trigger) -> Result<(), AllocError>
    requires sound { IsSound s.old }
    requires top { IsTop p s.old.stack.items }
    ensures moves { OnOk result (MovesOne p (waits_as t.now) false (leaves_top p) s.old s.new) }
    ensures stays { OnErr result (Stays s.old s.new) }
    ensures sound { IsSound s.new }
{
    match make_room(s, p, t) {
        Ok(()) => {}
        Err(_) => return Err(AllocError),
    }
    leave_stack(s, p);
    put(s, p, t);
    Ok(())
}

/// The instance on top leaves the stack and waits for one event, without a time-out (IEEE 1666-2011, 5.2.18). Where memory is refused
/// nothing changes.
pub fn wait_for<B>(s: &mut Schedule<B>, p: u32, e: Ev) -> Result<(), AllocError>
    requires sound { IsSound s.old }
    requires top { IsTop p s.old.stack.items }
    ensures moves { OnOk result (MovesOne p (waits_as (for_event e)) false (leaves_top p) s.old s.new) }
    ensures stays { OnErr result (Stays s.old s.new) }
    ensures sound { IsSound s.new }
{
    match hold_room(s, p, 1) {
        Ok(()) => {}
        Err(_) => return Err(AllocError),
    }
    leave_stack(s, p);
    put_for(s, p, e);
    Ok(())
}

/// Makes room for the instance on top, so that it can wait for as many as `items` events, and until a time. Nothing else changes.
#[inline(always)]
pub fn hold<B>(s: &mut Schedule<B>, p: u32, items: u32) -> Result<(), AllocError>
    requires sound { IsSound s.old }
    requires top { IsTop p s.old.stack.items }
    ensures room { OnOk result (HasRoom p items s.new) }
    ensures table { s.new.table ≡ s.old.table }
    ensures stays { Stays s.old s.new }
    ensures sound { IsSound s.new }
{
    match hold_room(s, p, items) {
        Ok(()) => Ok(()),
        Err(_) => Err(AllocError),
    }
}

/// The method on top has returned: it leaves the stack and waits so, and its body has not begun (IEEE 1666-2011, 5.2.10).
/// There is room for the wait, so it takes no memory.
#[inline(always)]
pub fn rest_ready<B>(s: &mut Schedule<B>, p: u32, t: &Trigger)
    requires sound { IsSound s.old }
    requires top { IsTop p s.old.stack.items }
    requires room { HasRoom p (length (events_of t.now.wait (sensitive_of (map.get s.old.table.live p)))) s.old }
    ensures moves { MovesOne p (rests_as t.now) false (leaves_top p) s.old s.new }
    ensures sound { IsSound s.new }
{
    leave_stack(s, p);
    put_resting(s, p, t);
}
