//! What a chooser of processes is, and the choosers of the rules of choices: what each holds, and which of the runnable serials
//! it picks (IEEE 1666-2011, 4.2.1.2 leaves the choice open).
//!
//! The kernel's phases and commands: updates, what a delta and a time set off, turns, and what a script asks for.
#![tactic(auto)]

mod chooser;
mod choosing;
mod commands;
mod due;
mod initial;
mod laws;
mod listed;
mod times;
mod turns;
mod updates;

pub use chooser::Chooser;
pub use choosing::Choosing;
pub use commands::{begin_run, set_signal};
pub use due::delta;
pub use initial::initialize;
pub use laws::{picked_in_any_order, what_is_picked_is_runnable};
pub use times::{earliest, timed};
pub use turns::turn;
pub use updates::update;

/// What is passed on of kernel_bodies.
pub mod kernel_bodies_api {
    pub use kernel_state::kernel_bodies_api::Program;
}

/// What is passed on of kernel_processes.
pub mod kernel_processes_api {
    pub use kernel_state::kernel_processes_api::top;
}

/// What is passed on of kernel_state.
pub mod kernel_state_api {
    pub use kernel_state::Kernel;
}

/// What is passed on of logic_values.
pub mod logic_values_api {
    pub use kernel_state::logic_values_api::Value;
}

/// What is passed on of ready_set.
pub mod ready_set_api {
    pub use kernel_state::ready_set_api::{ReadySet, least_of_a_set};
}

/// What is passed on of sim_model.
pub mod sim_model_api {
    pub use kernel_state::sim_model_api::{Command, Phase};
}
