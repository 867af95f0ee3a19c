// What follows where the pending notification of an event changes.
ghost use Rattle.std.specs.Prelude.{◌≡◌, ◌⊎◌, ◌<◌, ◌≤◌, IsTrue, length, vec_capacity};
ghost use Rattle.std.specs.FinMap as map;
ghost use Rattle.std.specs.List.{All};
ghost use Rattle.sim_model.specs.EventCore.Notifications.{left_pending, pending_at};
ghost use Rattle.timed_queue.specs.Timed.{without};
ghost use Rattle.kernel_events.specs.Layout.{is_nothing, is_timed, with_pending, nothing_at, AreBelow, HasOthers, IsListed};

use crate::deltas::list;
use sim_model::event_core_api::{Events, Pending, When};
use timed_queue::TimedQueue;

// What a notification leaves pending where it overrides.
pub(super) fn left_by(w: When) -> Pending
    ensures { result ≡ left_pending w }
{
    match w {
        When::Immediate => Pending::Nothing,
        When::Delta => Pending::Delta,
        When::At(t) => Pending::At(t),
    }
}

// Whether nothing is pending for an event.
#[inline(always)]
pub(super) fn has_nothing(events: &Events, e: u32) -> bool
    requires { e < length events.now }
    ensures { result ≡ is_nothing (pending_at events.now e) }
{
    match events.pending(e) {
        None => true,
        Some(When::Immediate | When::Delta | When::At(_)) => false,
    }
}

// Whether a time is pending for an event.
#[inline(always)]
pub(super) fn has_time(events: &Events, e: u32) -> bool
    requires { e < length events.now }
    ensures { result ≡ is_timed (pending_at events.now e) }
{
    match events.pending(e) {
        None | Some(When::Immediate | When::Delta) => false,
        Some(When::At(_)) => true,
    }
}

// The time of an event is taken back.
#[inline(never)]
fn end_time(times: &mut TimedQueue, e: u32)
    ensures { times.new ≡ without times.old e }
{
    times.clear(e);
}

// The same, where it is said whether the event has a time: only then it is looked up.
#[inline(always)]
fn clear_time(times: &mut TimedQueue, e: u32, has_time: bool)
    requires { map.contains_key times.old.times e ≡ has_time }
    ensures { times.new ≡ without times.old e }
{
    if has_time {
        end_time(times, e);
    }
}

// The place in the list and the time of an event for which this is pending now, where it is said whether a time was before.
#[inline(always)]
pub(super) fn follow(
    deltas: &mut Vec<u32>,
    times: &mut TimedQueue,
    events: &Events,
    size: u32,
    e: u32,
    p: Pending,
    had_time: bool,
)
    requires size { size ≡ length events.now }
    requires inside { e < length events.now }
    requires now { pending_at events.now e ≡ p }
    requires others { HasOthers events.now e deltas.old.items }
    requires below { All (λ q. q < length events.now) deltas.old.items }
    requires places { length events.now ≤ vec_capacity deltas.old }
    requires room { IsTrue (map.contains_key times.old.times e) ⊎ (0 < times.old.spare) }
    requires had { map.contains_key times.old.times e ≡ had_time }
    ensures listed { IsListed events.now deltas.new }
    ensures time { times.new ≡ with_pending times.old e p }
{
    match p {
        Pending::Nothing => clear_time(times, e, had_time),
        Pending::Delta => {
            list(deltas, events, size, e);
            clear_time(times, e, had_time);
        }
        Pending::At(t) => times.set(e, t),
    }
}

// Nothing is pending for these events any more.
pub(super) fn cancel_all(events: &mut Events, numbers: &[u32])
    requires { AreBelow (length events.old) numbers.now }
    ensures { events.new ≡ nothing_at numbers.now events.old }
{
    for n in numbers {
        events.cancel(*n);
    }
}
