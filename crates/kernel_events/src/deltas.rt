// The list of the events with a delta notification.
ghost use Rattle.std.specs.Prelude.{◌≡◌, ◌≤◌, ◌<◌, ◌+◌, ◌++◌, IsTrue, length, map, count_by, vec_len, vec_capacity};
ghost use Rattle.std.specs.List.{All};
ghost use Rattle.std.specs.List.Sorted.{IsNonDecreasing, IsPermutation};
ghost use Rattle.sim_model.specs.EventCore.Notifications.{pending_at};
ghost use Rattle.sim_model.specs.NumberedSlots.Places.{marked_places};
ghost use Rattle.sim_model.specs.Phases.{is_delta, without_pending};
ghost use Rattle.kernel_events.specs.Layout.{HasDeltas, HasOthers, IsListed};

use sim_model::event_core_api::{Events, When};

// Whether a delta notification is pending for an event.
#[inline(always)]
fn has_delta(events: &Events, e: u32) -> bool
    requires { e < length events.now }
    ensures { result ≡ is_delta (pending_at events.now e) }
{
    match events.pending(e) {
        None | Some(When::Immediate | When::At(_)) => false,
        Some(When::Delta) => true,
    }
}

// Lists the events with a delta notification, and no others.
#[cold]
fn list_anew(deltas: &mut Vec<u32>, events: &Events, size: u32)
    requires size { size ≡ length events.now }
    requires places { length events.now ≤ vec_capacity deltas.old }
    ensures { IsListed events.now deltas.new }
{
    deltas.clear();
    for e in 0..size {
        if has_delta(events, e) {
            deltas.push_reserved(e);
        }
    }
}

// Lists an event, which has a delta notification now. Where the list is full, those that have none any more leave it.
#[inline(always)]
pub(super) fn list(deltas: &mut Vec<u32>, events: &Events, size: u32, e: u32)
    requires size { size ≡ length events.now }
    requires inside { e < length events.now }
    requires others { HasOthers events.now e deltas.old.items }
    requires below { All (λ q. q < length events.now) deltas.old.items }
    requires places { length events.now ≤ vec_capacity deltas.old }
    ensures { IsListed events.now deltas.new }
{
    if deltas.len() < deltas.capacity() {
        deltas.push_reserved(e);
    } else {
        list_anew(deltas, events, size);
    }
}

// Whether the numbers stand in rising order.
#[inline(always)]
fn is_in_order(listed: &[u32]) -> bool
    ensures { IsTrue result → IsNonDecreasing listed.now }
{
    for k in 1..listed.len() {
        let before = listed[k - 1];
        let here = listed[k];
        if here < before {
            return false;
        }
    }
    true
}

// Puts the numbers in rising order, whatever order they stand in.
#[inline(never)]
fn sort_numbers(listed: &mut Vec<u32>)
    ensures sorted { IsNonDecreasing listed.new.items }
    ensures moved { IsPermutation listed.old.items listed.new.items }
    ensures capacity { vec_capacity listed.new ≡ vec_capacity listed.old }
{
    listed.sort_unstable();
}

// The same. They mostly stand so: the events of a signal are notified one after another.
#[inline(always)]
pub(super) fn put_in_order(listed: &mut Vec<u32>)
    ensures sorted { IsNonDecreasing listed.new.items }
    ensures moved { IsPermutation listed.old.items listed.new.items }
    ensures capacity { vec_capacity listed.new ≡ vec_capacity listed.old }
{
    if is_in_order(listed.as_slice()) {
        return;
    }
    sort_numbers(listed);
}

// Takes the delta notifications of all these events out: the events that had one stand behind what `out` has.
#[inline(always)]
pub(super) fn take_each(events: &mut Events, listed: &[u32], out: &mut Vec<u32>)
    requires each { HasDeltas events.old listed.now }
    requires below { All (λ e. e < length events.old) listed.now }
    requires sorted { IsNonDecreasing listed.now }
    requires room { vec_len out.old + count_by is_delta events.old ≤ vec_capacity out.old }
    ensures taken { out.new.items ≡ out.old.items ++ marked_places (map is_delta events.old) }
    ensures left { events.new ≡ map (without_pending is_delta) events.old }
    ensures capacity { vec_capacity out.new ≡ vec_capacity out.old }
{
    for e in listed {
        if has_delta(events, *e) {
            events.cancel(*e);
            out.push_reserved(*e);
        }
    }
}
