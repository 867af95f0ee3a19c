//! The value of an expression of the code, or its first fault from left to right, over a view of what it reads.
//!
//! An expression takes no memory. It may be any expression: where an operand has another type than its operation says,
//! it counts as 0, false, no digits or time 0. Each part of it that is no literal and no name
//! is evaluated once at most.
#![tactic(auto)]

mod conversions;
mod digits;
mod expressions;
mod operators;
mod values;
mod views;
mod words;

pub use expressions::{eval, eval_place};
pub use values::{bits, cut_to, moment, payload_handle, process_handle, truth, widened};
pub use views::{Reading, View};

/// What is passed on of event_core.
pub mod event_core_api {
    pub use sim_model::event_core_api::{Ev, When, same_event};
}

/// What is passed on of logic_values.
pub mod logic_values_api {
    pub use sim_model::logic_values_api::{Bytes, Digit, Items, Value, digit};
}

/// What is passed on of model_tree.
pub mod model_tree_api {
    pub use sim_model::model_tree_api::{Control, PrintText, ProcessKind};
}

/// What is passed on of sim_model.
pub mod sim_model_api {
    pub use sim_model::{Goal, Via};
}

/// What is passed on of sim_time.
pub mod sim_time_api {
    pub use sim_model::sim_time_api::{Time, add};
}

/// What is passed on of transport_phases.
pub mod transport_phases_api {
    pub use sim_model::transport_phases_api::Path;
}
