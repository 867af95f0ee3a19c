//! Statements on events: notifications, cancellations, how a method waits after its return, and the end of a session.
//!
//! Whole statements on events: their expressions are evaluated, and then the statement acts.
//!
//! Waits and next triggers, whole: what they name is evaluated, and then the instance waits so, or will wait so after its
//! return.
#![tactic(auto)]

mod events;
mod gathering;
mod laws;
mod notifications;
mod notifying;
mod statements;
mod triggers;

pub use events::{event_offset, first_event};
pub use laws::sound_designs_number_events;
pub use notifications::{cancel_named, notify_after, notify_delta, notify_named};
pub use notifying::{cancel, next_trigger, notify, notify_now, stop};
pub use statements::{trigger_statement, wait_statement};
