// What an update announces.
ghost use Rattle.std.specs.Prelude.{◌≡◌, ◌+◌, IfOk};
ghost use Rattle.kernel_channels.specs.Announced.{delta, delta_if, told};
ghost use Rattle.kernel_channels.specs.UpdateMarks.{nothing, told_at};

use kernel_events::EventBoard;
use kernel_events::event_core_api::When;
use kernel_events::signal_channel_api::Changed;
use std::alloc::AllocError;

// Nothing changed.
#[inline(always)]
pub(crate) fn no_change() -> Changed
    ensures { result ≡ nothing }
{
    Changed {
        changed: false,
        pos: false,
        neg: false,
    }
}

// A delta notification of the event so far behind the first one, if there is an event of this number.
#[inline(always)]
fn notify_behind(events: &mut EventBoard, first: u32, offset: u32)
    ensures { events.new ≡ delta (first + offset) events.old }
{
    let size = events.len();
    if let Some(e) = first.checked_add(offset) {
        if e < size {
            events.notify(e, When::Delta);
        }
    }
}

#[inline(always)]
fn notify_if(events: &mut EventBoard, yes: bool, first: u32, offset: u32)
    ensures { events.new ≡ delta_if yes (first + offset) events.old }
{
    if yes {
        notify_behind(events, first, offset);
    }
}

// The three events of a signal, of which this is the first.
#[inline(always)]
fn announce(events: &mut EventBoard, change: Changed, first: u32)
    ensures { events.new ≡ told change first events.old }
{
    notify_if(events, change.changed, first, 0);
    notify_if(events, change.pos, first, 1);
    notify_if(events, change.neg, first, 2);
}

// The same, where there is a first event.
#[inline(always)]
pub(crate) fn announce_at(events: &mut EventBoard, change: Changed, first: Option<u32>)
    ensures { events.new ≡ told_at first change events.old }
{
    match first {
        Some(e) => announce(events, change, e),
        None => {}
    }
}

// The number of channels of a kind: no room for 2^32 or more.
pub(crate) fn number_of(len: usize) -> Result<u32, AllocError>
    ensures { IfOk result (λ n. n ≡ len) }
{
    match u32::try_from(len) {
        Ok(n) => Ok(n),
        Err(_) => Err(AllocError),
    }
}
