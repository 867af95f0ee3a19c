//! The quantum keeper of a process that runs ahead of simulated time (IEEE 1666-2011, 16.2).
//!
//! No sum wraps: where one would pass 2^64 - 1 picoseconds the call answers `None` and changes nothing.
#![tactic(auto)]

mod keeper;

pub use keeper::{Keeper, local_quantum};

/// What is passed on of sim_time.
pub mod sim_time_api {
    pub use sim_time::{Time, Unit, add, picoseconds_of, sub, times};
}
