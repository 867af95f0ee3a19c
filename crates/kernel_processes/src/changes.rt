//! What a part of a schedule is changed by, for one instance at a time.
ghost use Rattle.std.specs.Prelude.{◌≡◌, ◌≤◌, ◌<◌, ◌-◌, ◌^◌, ◌+◌, ◌∷◌, [], true, false, not, ◌||◌, Some, None, OnOk, IfSome, IsSome, option_map, length};
ghost use Rattle.std.specs.FinMap as map;
ghost use Rattle.std.specs.FinSet as set;
ghost use Rattle.instance_table.specs.declared.instances.Waiting.TheVariants as waiting;
ghost use Rattle.instance_table.specs.declared.instances.Deadline.TheVariants as due;
ghost use Rattle.wait_lists.specs.Waits.{room_for};
ghost use Rattle.kernel_processes.specs.Sound.{time_of, is_zero};
ghost use Rattle.kernel_processes.specs.Moves.{Changes, with_entry, listed_as, events_of, sensitive_of, waiting_by, waiting_as, waits_in, begun_still, is_kept, HasNoTimeOut};
ghost use Rattle.kernel_processes.specs.declared.parts.Wait.TheVariants as how;

use super::parts::{Schedule, Trigger, Wait};
use instance_table::{Deadline, Waiting};
use std::alloc::AllocError;
use std::mem;
use timed_queue::sim_time_api::Time;
use wait_lists::event_core_api::Ev;

/// Makes room for an instance that has room, so that it can wait for as many as `items` events, and until a time.
#[inline(always)]
pub(crate) fn hold_room<B>(s: &mut Schedule<B>, p: u32, items: u32) -> Result<(), AllocError>
    requires { map.contains_key s.old.lists.room p ≡ true }
    ensures changes { Changes p (λ x. x) s.old s.new }
    ensures stays { s.new ≡ record s.old { lists = record s.old.lists { room = s.new.lists.room }; deadlines = record s.old.deadlines { spare = s.new.deadlines.spare }; zero = record s.old.zero { spare = s.new.zero.spare } } }
    ensures events { OnOk result (items ≤ room_for s.new.lists p) }
    ensures times { OnOk result (0 < s.new.deadlines.spare) }
    ensures zeros { OnOk result (0 < s.new.zero.spare) }
{
    match s.lists.reserve_for(p, items) {
        Ok(()) => {}
        Err(_) => return Err(AllocError),
    }
    match s.deadlines.reserve(1) {
        Ok(()) => {}
        Err(_) => return Err(AllocError),
    }
    s.zero.reserve(1)
}

/// Takes an instance out of all wait lists.
#[inline(always)]
pub(crate) fn leave_lists<B>(s: &mut Schedule<B>, p: u32)
    ensures { Changes p (λ x. record x { wait = None }) s.old s.new }
{
    s.lists.leave(p);
}

/// Mutes an instance or ends that.
pub(crate) fn mute<B>(s: &mut Schedule<B>, p: u32, on: bool)
    requires { map.contains_key s.old.lists.room p ≡ true }
    ensures { Changes p (λ x. record x { muted = on }) s.old s.new }
{
    s.lists.mute(p, on);
}

/// Gives this time-out to an instance that has none.
#[inline(always)]
pub(crate) fn put_time<B>(s: &mut Schedule<B>, p: u32, d: Deadline)
    requires below { p < 2 ^ 32 - 1 }
    requires times { 0 < s.old.deadlines.spare }
    requires zeros { 0 < s.old.zero.spare }
    requires untimed { HasNoTimeOut p s.old }
    ensures changes { Changes p (λ x. record x { time = time_of d; zero = is_zero d }) s.old s.new }
    ensures lists { s.new.lists ≡ s.old.lists }
    ensures table { s.new.table ≡ s.old.table }
{
    match d {
        Deadline::None => {}
        Deadline::Delta => s.zero.insert(p),
        Deadline::At(t) => s.deadlines.set(p, Time(t)),
    }
}

/// Takes an instance out of the runnable ones, and answers whether it was among them.
#[inline(always)]
pub(crate) fn unready<B>(s: &mut Schedule<B>, p: u32) -> bool
    ensures answer { result ≡ set.contains s.old.ready.members p }
    ensures changes { Changes p (λ x. record x { ready = false }) s.old s.new }
{
    s.ready.remove(p)
}

/// The static sensitivity of an instance; none where there is no such live one.
#[inline(always)]
fn sensitive_of<B>(s: &Schedule<B>, p: u32) -> &[Ev]
    ensures { result.now ≡ sensitive_of (map.get s.now.table.live p) }
{
    match s.table.get(p) {
        Some(x) => x.body.sensitive.as_slice(),
        None => &[],
    }
}

/// How many events there are in a wait of an instance, where they are not too many to be counted.
#[inline(always)]
pub fn count_events<B>(s: &Schedule<B>, p: u32, wait: &Wait) -> Option<u32>
    ensures counted { IfSome result (λ n. n ≡ length (events_of wait.now (sensitive_of (map.get s.now.table.live p)))) }
    ensures few { length (events_of wait.now (sensitive_of (map.get s.now.table.live p))) < 2 ^ 32 → IsSome result }
{
    match wait {
        Wait::Static => u32::try_from(sensitive_of(s, p).len()).ok(),
        Wait::Any(events) | Wait::All(events) => u32::try_from(events.as_slice().len()).ok(),
    }
}

/// Lets an instance wait in the lists, in place of what it waited for.
#[inline(always)]
pub(crate) fn put_wait<B>(s: &mut Schedule<B>, p: u32, wait: &Wait)
    requires { length (events_of wait.now (sensitive_of (map.get s.old.table.live p))) ≤ room_for s.old.lists p }
    ensures { Changes p (λ x. record x { wait = listed_as wait.now (sensitive_of x.entry) }) s.old s.new }
{
    match wait {
        Wait::Static => match s.table.get(p) {
            Some(x) => s.lists.wait_any(p, x.body.sensitive.as_slice()),
            None => s.lists.leave(p),
        },
        Wait::Any(events) => s.lists.wait_any(p, events.as_slice()),
        Wait::All(events) => s.lists.wait_all(p, events.as_slice()),
    }
}

#[inline(always)]
fn waiting_by(wait: &Wait) -> Waiting
    ensures { result ≡ waiting_by wait.now }
{
    match wait {
        Wait::Static => Waiting::Static,
        Wait::Any(_) => Waiting::Any,
        Wait::All(_) => Waiting::All,
    }
}

/// Whether the body of an instance that waits has begun: of one that rests it has not.
#[inline(always)]
fn begun_still(begun: bool, rests: bool) -> bool
    ensures { result ≡ begun_still rests begun }
{
    if rests { false } else { begun }
}

/// Notes how an instance waits. Of one that rests the body has not begun.
#[inline(always)]
pub(crate) fn mark_wait<B>(s: &mut Schedule<B>, p: u32, t: &Trigger, rests: bool)
    ensures { Changes p (with_entry (waiting_as rests t.now.wait t.now.deadline)) s.old s.new }
{
    if let Some(x) = s.table.get_mut(p) {
        x.wait = waiting_by(&t.wait);
        x.deadline = t.deadline;
        x.started = begun_still(x.started, rests);
    }
}

/// Lets an instance wait by its static sensitivity, in place of what it waited for, and notes that, in one look at it.
#[inline(always)]
fn wait_static<B>(s: &mut Schedule<B>, p: u32, deadline: Deadline, rests: bool)
    requires { length (sensitive_of (map.get s.old.table.live p)) ≤ room_for s.old.lists p }
    ensures { Changes p (waits_in rests Wait.Static deadline) s.old s.new }
{
    match s.table.get_mut(p) {
        Some(x) => {
            x.wait = Waiting::Static;
            x.deadline = deadline;
            x.started = begun_still(x.started, rests);
            s.lists.wait_any(p, x.body.sensitive.as_slice());
        }
        None => s.lists.leave(p),
    }
}

/// Lets an instance wait in the lists, in place of what it waited for, and notes how.
#[inline(always)]
fn wait_listed<B>(s: &mut Schedule<B>, p: u32, t: &Trigger, rests: bool)
    requires { length (events_of t.now.wait (sensitive_of (map.get s.old.table.live p))) ≤ room_for s.old.lists p }
    ensures { Changes p (waits_in rests t.now.wait t.now.deadline) s.old s.new }
{
    put_wait(s, p, &t.wait);
    mark_wait(s, p, t, rests);
}

/// The same. One that waits by its static sensitivity is looked at once.
#[inline(always)]
pub(crate) fn wait_in_lists<B>(s: &mut Schedule<B>, p: u32, t: &Trigger, rests: bool)
    requires { length (events_of t.now.wait (sensitive_of (map.get s.old.table.live p))) ≤ room_for s.old.lists p }
    ensures { Changes p (waits_in rests t.now.wait t.now.deadline) s.old s.new }
{
    match &t.wait {
        Wait::Static => wait_static(s, p, t.deadline, rests),
        Wait::Any(_) | Wait::All(_) => wait_listed(s, p, t, rests),
    }
}

/// Lets an instance wait in the list of one event, in place of what it waited for.
#[inline(always)]
fn put_wait_for<B>(s: &mut Schedule<B>, p: u32, e: Ev)
    requires { 1 ≤ room_for s.old.lists p }
    ensures { Changes p (λ x. record x { wait = listed_as (how.Any (e ∷ [])) (sensitive_of x.entry) }) s.old s.new }
{
    let events = [e];
    s.lists.wait_any(p, &events);
}

/// Notes that an instance waits for any of a list of events, without a time-out.
#[inline(always)]
fn mark_any<B>(s: &mut Schedule<B>, p: u32)
    ensures { Changes p (with_entry (λ x. record x { wait = waiting.Any; deadline = due.None })) s.old s.new }
{
    if let Some(x) = s.table.get_mut(p) {
        x.wait = Waiting::Any;
        x.deadline = Deadline::None;
    }
}

/// Lets an instance wait for one event, without a time-out, in place of what it waited for, and notes that.
#[inline(always)]
pub(crate) fn wait_for_one<B>(s: &mut Schedule<B>, p: u32, e: Ev)
    requires { 1 ≤ room_for s.old.lists p }
    ensures { Changes p (waits_in false (how.Any (e ∷ [])) due.None) s.old s.new }
{
    put_wait_for(s, p, e);
    mark_any(s, p);
}

/// Notes that an instance waits for nothing, and is not kept.
#[inline(always)]
pub(crate) fn mark_free<B>(s: &mut Schedule<B>, p: u32)
    ensures { Changes p (with_entry (λ x. record x { wait = waiting.None; deadline = due.None; kept = false })) s.old s.new }
{
    if let Some(x) = s.table.get_mut(p) {
        x.wait = Waiting::None;
        x.deadline = Deadline::None;
        x.kept = false;
    }
}

/// Notes that an instance is kept till it is resumed.
#[inline(always)]
pub(crate) fn mark_kept<B>(s: &mut Schedule<B>, p: u32)
    ensures { Changes p (with_entry (λ x. record x { kept = true })) s.old s.new }
{
    if let Some(x) = s.table.get_mut(p) {
        x.kept = true;
    }
}

/// Notes that an instance is suspended.
#[inline(always)]
pub(crate) fn mark_suspended<B>(s: &mut Schedule<B>, p: u32)
    ensures { Changes p (with_entry (λ x. record x { suspended = true })) s.old s.new }
{
    if let Some(x) = s.table.get_mut(p) {
        x.suspended = true;
    }
}

/// Notes that an instance is suspended no more, nor kept, and answers whether it was kept.
pub(crate) fn mark_resumed<B>(s: &mut Schedule<B>, p: u32) -> bool
    ensures answer { result ≡ is_kept (map.get s.old.table.live p) }
    ensures changes { Changes p (with_entry (λ x. record x { suspended = false; kept = false })) s.old s.new }
{
    match s.table.get_mut(p) {
        Some(x) => {
            x.suspended = false;
            mem::replace(&mut x.kept, false)
        }
        None => false,
    }
}

/// Notes whether an instance is disabled.
pub(crate) fn mark_disabled<B>(s: &mut Schedule<B>, p: u32, on: bool)
    ensures { Changes p (with_entry (λ x. record x { disabled = on })) s.old s.new }
{
    if let Some(x) = s.table.get_mut(p) {
        x.disabled = on;
    }
}

/// Notes whether the body of an instance has begun.
#[inline(always)]
pub(crate) fn mark_started<B>(s: &mut Schedule<B>, p: u32, on: bool)
    ensures { Changes p (with_entry (λ x. record x { started = on })) s.old s.new }
{
    if let Some(x) = s.table.get_mut(p) {
        x.started = on;
    }
}
