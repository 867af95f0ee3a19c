//! The channels of a run: signals and buffers, resolved signals, fifos, mutexes and semaphores, with marks of those that asked
//! for an update and of those that the last update changed (IEEE 1666-2011, clause 6 and 4.2.1.3).
#![tactic(auto)]

mod announcing;
mod asking;
mod board;
mod changes;
mod fifos;
mod laws;
mod signals;
mod wires;

pub use board::ChannelBoard;
pub use laws::{
    a_write_is_that_of_a_run, what_an_update_phase_announces, what_is_not_done_changes_nothing,
};

/// What is passed on of kernel_events.
pub mod kernel_events_api {
    pub use kernel_events::EventBoard;
}
