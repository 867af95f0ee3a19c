//! What is pending for each event of a run, kept so that no phase looks at events that are not due
//! (IEEE 1666-2011, 4.2.1.4, 4.2.1.5 and 5.10).
#![tactic(auto)]

ghost use Rattle.std.specs.Prelude.{◌≡◌, ◌++◌, ◌+◌, ◌≤◌, ◌<◌, ℕ, true, None, Some, IfNone, IfSome, IsNone, IfOk, count_by, length, map, option_map, replicate, vec_len, vec_capacity};

mod deltas;
mod timing;

use deltas::{list, put_in_order, take_each};
use sim_model::event_core_api::{Effect, Events, Pending, When};
use sim_model::numbered_slots_api::only_marked_places_rise;
use std::alloc::{AllocError, Global};
use std::marker::Model;
use timed_queue::TimedQueue;
use timed_queue::sim_time_api::Time;
use timing::{cancel_all, follow, has_nothing, has_time, left_by};

/// What is pending for each event of the design, by the event's number.
///
/// All memory is taken by `new`. A notification or a cancellation takes, one with another, time in the logarithm of the number of
/// timed notifications, and what takes notifications out takes time in how many there were, times a logarithm.
#[derive(Drop)]
pub struct EventBoard {
    // What is pending for each event.
    events: Events,
    // The events with a delta notification, and some whose delta notification was taken back, in any order.
    deltas: Vec<u32>,
    // The events with a timed notification, by its time.
    times: TimedQueue,
    // How many events there are.
    size: u32,
}

impl Model for EventBoard {
    ghost use Rattle.std.specs.Prelude.{List};
    ghost use Rattle.std.specs.Coded.{coded_list};
    ghost use Rattle.sim_model.specs.EventCore.declared.notifications.Pending.{Pending as Kind};
    ghost use Rattle.sim_model.specs.EventCore.contracts.notifications.Pending.{the_row};

    ghost Value = { List Kind };

    ghost coded = { coded_list the_row.coded };

    ghost use Rattle.kernel_events.specs.Layout.{IsTied};

    ghost view = { λ b. b.events };

    ghost invariant = { λ b. IsTied b.events b.deltas b.times b.size };
}

impl EventBoard {
    ghost use Rattle.sim_model.specs.EventCore.Notifications.{notified, pending_at};
    ghost use Rattle.sim_model.specs.Configuration.{change};
    ghost use Rattle.sim_model.specs.Phases.{is_delta, is_at, due_events, without_pending, earliest_event};
    ghost use Rattle.kernel_events.specs.Layout.{is_nothing};
    ghost use Rattle.kernel_events.specs.Numbered.{fixed};

    /// The events from 0 up to `n`, of which none is pending. All memory is taken here.
    pub fn new(alloc: Global, n: u32) -> Result<EventBoard, AllocError>
        ensures { IfOk result (λ board. board ≡ replicate n Pending.Nothing) }
    {
        let events = Events::new(alloc, n)?;
        let deltas = Vec::with_capacity(alloc, n as usize * 2)?;
        let mut times = TimedQueue::new(alloc);
        times.reserve(n)?;
        Ok(EventBoard {
            events,
            deltas,
            times,
            size: n,
        })
    }

    /// How many events there are.
    pub fn len(&self) -> u32
        ensures { result ≡ length self.now }
    {
        self.size
    }

    /// Notifies an event. An earlier pending notification stays, a later one is overridden, and after an immediate
    /// notification nothing is pending: the caller fires the event. Where there is no event of this number nothing changes.
    #[inline(always)]
    pub fn notify(&mut self, e: u32, w: When)
        ensures { self.new ≡ change self.old e (notified w) }
    {
        match w {
            When::Delta => self.notify_delta(e),
            When::Immediate | When::At(_) => self.notify_any(e, w),
        }
    }

    // A delta notification of an event.
    #[inline(always)]
    fn notify_delta(&mut self, e: u32)
        ensures { self.new ≡ change self.old e (notified When.Delta) }
    {
        if e >= self.size {
            return;
        }
        if has_nothing(&self.events, e) {
            self.set_delta(e);
        } else {
            self.notify_any(e, When::Delta);
        }
    }

    // The same, of an event for which nothing is pending.
    #[inline(always)]
    fn set_delta(&mut self, e: u32)
        requires inside { e < length self.old }
        requires none { is_nothing (pending_at self.old e) ≡ true }
        ensures { self.new ≡ change self.old e (notified When.Delta) }
    {
        let _ = self.events.notify(e, When::Delta);
        list(&mut self.deltas, &self.events, self.size, e);
    }

    // Any notification of an event, whatever is pending for it.
    #[inline(never)]
    fn notify_any(&mut self, e: u32, w: When)
        ensures { self.new ≡ change self.old e (notified w) }
    {
        if e >= self.size {
            return;
        }
        let had_time = has_time(&self.events, e);
        match self.events.notify(e, w) {
            Effect::Kept => {}
            Effect::Fire | Effect::Set => {
                let left = left_by(w);
                follow(
                    &mut self.deltas,
                    &mut self.times,
                    &self.events,
                    self.size,
                    e,
                    left,
                    had_time,
                );
            }
        }
    }

    /// Takes the pending notification of an event back, if it has one.
    pub fn cancel(&mut self, e: u32)
        ensures { self.new ≡ change self.old e (λ x. Pending.Nothing) }
    {
        if e >= self.size {
            return;
        }
        let had_time = has_time(&self.events, e);
        self.events.cancel(e);
        follow(
            &mut self.deltas,
            &mut self.times,
            &self.events,
            self.size,
            e,
            Pending::Nothing,
            had_time,
        );
    }

    /// A time that no timed notification is before, in the time of a few tests; none where there is none.
    #[inline(always)]
    pub fn not_before(&self) -> Option<Time>
        ensures none { IfNone result (earliest_event self.now None ≡ None) }
        ensures nothing { earliest_event self.now None ≡ None → IsNone result }
        ensures bound { IfSome result (λ t. (u : ℕ) → earliest_event self.now None ≡ Some u → t.0 ≤ u) }
    {
        if self.times.is_empty() {
            return None;
        }
        self.times.not_before()
    }

    /// The earliest time of a timed notification.
    #[inline(always)]
    pub fn earliest(&self) -> Option<Time>
        ensures { option_map (λ t. t.0) result ≡ earliest_event self.now None }
    {
        self.times.earliest()
    }

    /// Takes all delta notifications out: their events, in rising order of the numbers, stand behind what `out` has. It
    /// takes no memory.
    #[inline(always)]
    pub fn take_deltas(&mut self, out: &mut Vec<u32>)
        requires room { vec_len out.old + count_by is_delta self.old ≤ vec_capacity out.old }
        ensures taken { fixed out.new.items ≡ fixed out.old.items ++ due_events is_delta 0 self.old }
        ensures capacity { vec_capacity out.new ≡ vec_capacity out.old }
        ensures left { self.new ≡ map (without_pending is_delta) self.old }
    {
        put_in_order(&mut self.deltas);
        take_each(&mut self.events, self.deltas.as_slice(), out);
        self.deltas.clear();
    }

    /// Takes all notifications at this very time out: their events, in rising order of the numbers, stand behind what `out`
    /// has. It takes no memory.
    #[inline(always)]
    pub fn take_at(&mut self, t: Time, out: &mut Vec<u32>)
        requires room { vec_len out.old + count_by (is_at t.0) self.old ≤ vec_capacity out.old }
        ensures taken { fixed out.new.items ≡ fixed out.old.items ++ due_events (is_at t.0) 0 self.old }
        ensures capacity { vec_capacity out.new ≡ vec_capacity out.old }
        ensures left { self.new ≡ map (without_pending (is_at t.0)) self.old }
    {
        if self.times.is_empty() {
            return;
        }
        self.take_those_at(t, out);
    }

    // The same, where some event has a timed notification.
    fn take_those_at(&mut self, t: Time, out: &mut Vec<u32>)
        requires room { vec_len out.old + count_by (is_at t.0) self.old ≤ vec_capacity out.old }
        ensures taken { fixed out.new.items ≡ fixed out.old.items ++ due_events (is_at t.0) 0 self.old }
        ensures capacity { vec_capacity out.new ≡ vec_capacity out.old }
        ensures left { self.new ≡ map (without_pending (is_at t.0)) self.old }
    {
        only_marked_places_rise();
        let before = out.len();
        self.times.take_due(t, out);
        cancel_all(&mut self.events, &out.as_slice()[before..]);
    }
}

/// What is passed on of event_core.
pub mod event_core_api {
    pub use sim_model::event_core_api::When;
}

/// What is passed on of fifo_sync.
pub mod fifo_sync_api {
    pub use sim_model::fifo_sync_api::{Fifo, Mutex, Semaphore};
}

/// What is passed on of flat_design.
pub mod flat_design_api {
    pub use sim_model::flat_design_api::{
        Design, FifoPart, ResolvedPart, SemaphorePart, SignalPart,
    };
}

/// What is passed on of logic_values.
pub mod logic_values_api {
    pub use sim_model::logic_values_api::{Digit, Value};
}

/// What is passed on of model_tree.
pub mod model_tree_api {
    pub use sim_model::model_tree_api::SignalKind;
}

/// What is passed on of signal_channel.
pub mod signal_channel_api {
    pub use sim_model::signal_channel_api::{Changed, Policy, Resolved, Signal, WriterConflict};
}

/// What is passed on of numbered_slots.
pub mod numbered_slots_api {
    pub use sim_model::numbered_slots_api::Marks;
}
