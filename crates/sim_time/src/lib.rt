//! Simulated time: a whole number of resolutions below 2^64, its units, and the resolution.
//!
//! No call wraps or saturates: what passes the range is `None`.
#![tactic(auto)]

mod moments;
mod sums;

pub use moments::{Resolution, Time, Unit, UnitStop};
pub use sums::{add, of_unit, picoseconds_of, sub, times};
