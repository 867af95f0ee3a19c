//! Laws on what a wake and an event do: told instance by instance, for whoever keeps them otherwise than in a list.
//!
//! The processes of a run by their serials: who waits for what and until when, who is runnable, and who is active.
//!
//! What the processes of a run do to each other and to themselves, over a schedule: they are taken, wait, suspend, resume,
//! disable and end each other, are spawned, and are woken when their time is over.
#![tactic(auto)]

mod bodies;
mod changes;
mod control;
mod making;
mod moves;
mod parts;
mod spawning;
mod time;
mod turns;
mod waits;
mod wakes_told;
mod waking;

pub use bodies::{bodies_are_the_callers, body};
pub use changes::count_events;
pub use control::{disable, end, push, resume, stay_kept, suspend};
pub use making::empty;
pub use parts::{Process, Schedule, Trigger, Wait};
pub use spawning::spawn;
pub use time::{earliest, not_before, take_due, take_zero, wake_due};
pub use turns::{begin, initialize, take, top};
pub use waits::{hold, rest_ready, wait as begin_wait, wait_for as begin_wait_for};
pub use wakes_told::{a_wake_reaches_one_instance, an_event_reaches_each_instance};
pub use waking::{fire, is_active, wake};

/// What is passed on of event_core.
pub mod event_core_api {
    pub use wait_lists::event_core_api::{Ev, Pending, When};
}

/// What is passed on of flat_design.
pub mod flat_design_api {
    pub use sim_model::flat_design_api::{
        Choices, Code, CodeId, Design, MemoryPart, PayloadBytes, PayloadField, ProcessPart,
        RunFault, VariablePart, VisibleId,
    };
}

/// What is passed on of instance_table.
pub mod instance_table_api {
    pub use instance_table::{Deadline, ProcessKind, SpawnStop};
}

/// What is passed on of logic_values.
pub mod logic_values_api {
    pub use sim_model::logic_values_api::{Bytes, Items, Value, value_text};
}

/// What is passed on of model_tree.
pub mod model_tree_api {
    pub use sim_model::model_tree_api::ProcessKind;
}

/// What is passed on of ready_set.
pub mod ready_set_api {
    pub use ready_set::{ReadySet, least_of_a_set};
}

/// What is passed on of sim_model.
pub mod sim_model_api {
    pub use sim_model::{Command, Goal, Phase, Rule, Stop};
}

/// What is passed on of sim_time.
pub mod sim_time_api {
    pub use timed_queue::sim_time_api::{Time, add};
}
