//! Statements on payloads and quantum keepers (IEEE 1666-2011, 14.5 and 16.2), whole: their expressions are evaluated, and then
//! the statement acts.
//!
//! Transport calls over sockets (IEEE 1666-2011, 11.1): `b_transport` and `nb_transport`, from the call to what its return hands
//! back. Each is judged by its hop.
#![tactic(auto)]

mod carrying;
mod endings;
mod entering;
mod judging;
mod keepers;
mod payloads;
mod returning;
mod sockets;
mod statements;
mod values;

pub use carrying::carry;
pub use keepers::{qk_global, qk_inc, qk_reset, qk_set};
pub use payloads::{acquire, make, release};
pub use returning::{b_transport_returns, nb_transport_returns};
pub use statements::{b_transport, nb_transport};

/// What is passed on of exec_calls.
pub mod exec_calls_api {
    pub use exec_calls::{call, calling_statement, ending_call, leave_plain_call, spawn};
}

/// What is passed on of exec_events.
pub mod exec_events_api {
    pub use exec_calls::exec_events_api::{
        cancel_named, notify_after, notify_delta, notify_named, stop, trigger_statement,
        wait_statement,
    };
}
