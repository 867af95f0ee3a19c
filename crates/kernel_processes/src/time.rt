//! Waits that end by time.
ghost use Rattle.std.specs.Prelude.{◌≡◌, ℕ, ◌+◌, ◌≤◌, ◌<◌, [], true, None, IfNone, IfSome, IsNone, length, option_map, vec_capacity};
ghost use Rattle.std.specs.FinMap as map;
ghost use Rattle.std.specs.FinSet as set;
ghost use Rattle.sim_model.specs.Phases.{is_zero_timeout, is_due_at};
ghost use Rattle.kernel_processes.specs.InstanceViews.{seen, is_on};
ghost use Rattle.kernel_processes.specs.Sound.{IsSound};
ghost use Rattle.kernel_processes.specs.Moves.{with_entry, Changes};
ghost use Rattle.kernel_processes.specs.Times.{over_entry, over, PutsAllOver, TakesDue, HasNoTime, HasNoTimeBefore, IsEarliestTime, WakesThose};

use super::moves::end_time;
use crate::{Schedule, wake};
use instance_table::Deadline;
use ready_set::least_of_a_set;
use timed_queue::due_names_are_held;
use timed_queue::sim_time_api::Time;

/// Notes that no time ends the wait of an instance any more.
fn mark_over<B>(s: &mut Schedule<B>, p: u32)
    ensures { Changes p (with_entry over_entry) s.old s.new }
{
    if let Some(x) = s.table.get_mut(p) {
        x.deadline = Deadline::None;
    }
}

/// No time ends the wait of an instance any more that has left the queue of times.
#[inline(always)]
fn put_left_over<B>(s: &mut Schedule<B>, p: u32)
    requires { map.get s.old.deadlines.times p ≡ None }
    ensures { Changes p over s.old s.new }
{
    s.zero.remove(p);
    mark_over(s, p);
}

/// No time ends the wait of an instance any more.
#[inline(always)]
fn put_over<B>(s: &mut Schedule<B>, p: u32)
    ensures { Changes p over s.old s.new }
{
    end_time(s, p);
    mark_over(s, p);
}

/// The waits that end in the next delta notification phase have ended by time: their instances are due (IEEE 1666-2011,
/// 4.2.1.4).
#[inline(always)]
pub fn take_zero<B>(s: &mut Schedule<B>)
    requires sound { IsSound s.old }
    requires nobody { s.old.due.items ≡ [] }
    ensures takes { TakesDue is_zero_timeout s.old s.new }
    ensures sound { IsSound s.new }
{
    least_of_a_set();
    while let Some(p) = s.zero.least() {
        put_over(s, p);
        s.due.push_reserved(p);
    }
}

/// No time ends the waits of those that are due any more, who have left the queue of times.
fn put_all_over<B>(s: &mut Schedule<B>)
    requires { (q : ℕ) → is_on s.old.due.items q ≡ true → map.get s.old.deadlines.times q ≡ None }
    ensures { PutsAllOver s.old s.new }
{
    let mut place = 0;
    while place < s.due.len() {
        let p = s.due[place];
        put_left_over(s, p);
        place += 1;
    }
}

/// The waits that end at this time have ended by time: their instances are due (IEEE 1666-2011, 4.2.1.5).
pub fn take_due<B>(s: &mut Schedule<B>, t: Time)
    requires sound { IsSound s.old }
    requires nobody { s.old.due.items ≡ [] }
    ensures takes { TakesDue (is_due_at t.0) s.old s.new }
    ensures sound { IsSound s.new }
{
    due_names_are_held();
    s.deadlines.take_due(t, &mut s.due);
    put_all_over(s);
}

/// Those that are due are woken, and none is due any more.
#[inline(always)]
pub fn wake_due<B>(s: &mut Schedule<B>)
    requires { IsSound s.old }
    ensures wakes { WakesThose s.old.due.items s.old s.new }
    ensures nobody { s.new.due.items ≡ [] }
    ensures sound { IsSound s.new }
{
    if s.due.is_empty() {
        return;
    }
    wake_each(s);
}

/// The same, of as many as are due.
#[inline(never)]
fn wake_each<B>(s: &mut Schedule<B>)
    requires { IsSound s.old }
    ensures wakes { WakesThose s.old.due.items s.old s.new }
    ensures nobody { s.new.due.items ≡ [] }
    ensures sound { IsSound s.new }
{
    while let Some(p) = s.due.pop() {
        wake(s, p);
    }
}

/// A time that no wait ends before, in the time of a few tests; none where no time ends one.
#[inline(always)]
pub fn not_before<B>(s: &Schedule<B>) -> Option<Time>
    requires { IsSound s.now }
    ensures none { IfNone result (HasNoTime s.now) }
    ensures nobody { HasNoTime s.now → IsNone result }
    ensures bound { IfSome result (λ t. HasNoTimeBefore s.now t.0) }
{
    match s.deadlines.not_before() {
        Some(t) => Some(t),
        None => None,
    }
}

/// The earliest time at which a wait ends; none where no time ends one.
pub fn earliest<B>(s: &Schedule<B>) -> Option<Time>
    requires { IsSound s.now }
    ensures none { IfNone result (HasNoTime s.now) }
    ensures least { IfSome result (λ t. IsEarliestTime s.now t.0) }
{
    match s.deadlines.earliest() {
        Some(t) => Some(t),
        None => None,
    }
}
