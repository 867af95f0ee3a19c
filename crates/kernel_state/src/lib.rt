//! The state of a run: the parts that keep a configuration, what they stand for, and their moves.
#![tactic(auto)]

mod control;
mod kernel;
mod laws;
mod moves;
mod payloads;
mod reaching;
mod reading;
mod spawning;
mod statements;
mod stops;
mod ways;

pub use control::{kill, push, reset};
pub use kernel::{Cycle, Kept, Kernel, Offspring, PathOf};
pub use laws::top_lives;
pub use moves::{fire, notify, pass, set_local, set_variable, settle, wait, wait_for};
pub use payloads::{acquire, release, set_byte, set_field};
pub use reaching::targets;
pub use spawning::spawn;
pub use statements::{block, store_variable, wait_for_event, wait_so, write_fifo};
pub use stops::StatementStop;
pub use ways::{Way, move_on};

/// What is passed on of event_core.
pub mod event_core_api {
    pub use kernel_processes::event_core_api::{Ev, Pending};
}

/// What is passed on of flat_design.
pub mod flat_design_api {
    pub use kernel_processes::flat_design_api::{
        Choices, Code, Design, MemoryPart, ProcessPart, RunFault, VariablePart, VisibleId,
    };
}

/// What is passed on of instance_table.
pub mod instance_table_api {
    pub use kernel_processes::instance_table_api::{Deadline, ProcessKind, SpawnStop};
}

/// What is passed on of kernel_bodies.
pub mod kernel_bodies_api {
    pub use process_bodies::kernel_bodies_api::{Frame, Next, Program, locals_in, many_locals};
}

/// What is passed on of kernel_channels.
pub mod kernel_channels_api {
    pub use kernel_channels::{
        ChannelBoard, a_write_is_that_of_a_run, what_an_update_phase_announces,
    };
}

/// What is passed on of kernel_events.
pub mod kernel_events_api {
    pub use kernel_channels::kernel_events_api::EventBoard;
}

/// What is passed on of kernel_processes.
pub mod kernel_processes_api {
    pub use kernel_processes::{
        Schedule, Trigger, Wait, begin, count_events, disable, earliest, empty, end, fire, hold,
        initialize, is_active, not_before, push, rest_ready, resume, spawn, stay_kept, suspend,
        take, take_due, take_zero, top, wake_due,
    };
}

/// What is passed on of kernel_transactions.
pub mod kernel_transactions_api {
    pub use kernel_transactions::{
        MakeStop, TransactionBoard, left_calls_end, live_payloads_are_used, payloads_are_made,
    };
}

/// What is passed on of logic_values.
pub mod logic_values_api {
    pub use kernel_processes::logic_values_api::{Bytes, Items, Value, value_text};
}

/// What is passed on of model_tree.
pub mod model_tree_api {
    pub use kernel_processes::model_tree_api::ProcessKind;
}

/// What is passed on of process_bodies.
pub mod process_bodies_api {
    pub use process_bodies::{Body, EnterStop};
}

/// What is passed on of ready_set.
pub mod ready_set_api {
    pub use kernel_processes::ready_set_api::{ReadySet, least_of_a_set};
}

/// What is passed on of sim_model.
pub mod sim_model_api {
    pub use kernel_processes::sim_model_api::{Command, Phase, Rule, Stop};
}

/// What is passed on of sim_time.
pub mod sim_time_api {
    pub use kernel_processes::sim_time_api::{Time, add};
}
