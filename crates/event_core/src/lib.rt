//! The names of events, and events by number, each with at most one pending notification.
//!
//! A new notification overrides the pending one where it is earlier (IEEE 1666-2011, 5.10.8).
#![tactic(auto)]

ghost use Rattle.std.specs.Prelude.{◌≡◌, ◌<◌, IfOk, length, replicate, slice_set};

mod event;
mod notifications;

pub use event::{Ev, same_event, same_events_are_equal};
pub use notifications::{Effect, Pending, When};
use notifications::{answer_to, surviving};
use std::alloc::{AllocError, Global};
use std::marker::Model;

/// What is pending for each event, by the event's number.
#[derive(Drop)]
pub struct Events {
    pending: Vec<Pending>,
}

impl Model for Events {
    ghost use Rattle.std.specs.Prelude.{List};
    ghost use Rattle.std.specs.Coded.{coded_list};
    ghost use Rattle.event_core.specs.declared.notifications.Pending.{Pending as Kind};
    ghost use Rattle.event_core.specs.contracts.notifications.Pending.{the_row};

    ghost Value = { List Kind };

    ghost coded = { coded_list the_row.coded };

    ghost view = { λ e. e.pending.items };
}

impl Events {
    ghost use Rattle.event_core.specs.Notifications.{notified, effect_of, when_of, pending_at};

    /// The events from 0 up to `n`, of which none is pending.
    pub fn new(alloc: Global, n: u32) -> Result<Events, AllocError>
        ensures { IfOk result (λ events. events ≡ replicate n Pending.Nothing) }
    {
        let mut pending = Vec::with_capacity(alloc, n as usize)?;
        for _ in 0..n {
            pending.push_reserved(Pending::Nothing);
        }
        Ok(Events { pending })
    }

    /// Notifies an event, and answers what that does.
    #[inline(always)]
    pub fn notify(&mut self, e: u32, w: When) -> Effect
        requires { e < length self.old }
        ensures effect { result ≡ effect_of w (pending_at self.old e) }
        ensures after { self.new ≡ slice_set self.old e (notified w (pending_at self.old e)) }
    {
        let at = e as usize;
        let before = self.pending[at];
        self.pending[at] = surviving(w, before);
        answer_to(w, before)
    }

    /// Takes a pending notification of the event back.
    #[inline(always)]
    pub fn cancel(&mut self, e: u32)
        requires { e < length self.old }
        ensures { self.new ≡ slice_set self.old e Pending.Nothing }
    {
        self.pending[e as usize] = Pending::Nothing;
    }

    /// The pending notification of the event, if there is one. It is never an immediate one.
    #[inline(always)]
    pub fn pending(&self, e: u32) -> Option<When>
        requires { e < length self.now }
        ensures { result ≡ when_of (pending_at self.now e) }
    {
        self.pending[e as usize].when()
    }
}

/// What is passed on of sim_time.
pub mod sim_time_api {
    pub use sim_time::{Resolution, Time, Unit, picoseconds_of};
}
