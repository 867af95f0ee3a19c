//! The predefined channels with a value: signals, buffers and resolved signals (IEEE 1666-2011, 6.4, 6.6 and 6.13).
#![tactic(auto)]

mod laws;
mod resolved;
mod signal;
mod values;

pub use laws::what_differs_is_not_equal;
pub use resolved::Resolved;
pub use signal::{Changed, Policy, Signal, WriterConflict};

/// What is passed on of logic_values.
pub mod logic_values_api {
    pub use logic_values::Value;
}
