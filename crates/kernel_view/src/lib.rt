//! The kernel as what expressions are evaluated over: for an instance, where its next statement stands.
#![tactic(auto)]

mod channels;
mod evaluating;
mod members;
mod names;
mod standings;

pub use channels::denoted_in;
pub use evaluating::{
    channel_at, denoted_at, eval_at, eval_if_at, eval_place_at, home_at, named_at, payload_at,
};
pub use names::{keeper_number, memory_number};
pub use standings::{Standing, home_within, standing_at};

/// What is passed on of event_core.
pub mod event_core_api {
    pub use expr_eval::event_core_api::{Ev, When, same_event};
}

/// What is passed on of expr_eval.
pub mod expr_eval_api {
    pub use expr_eval::{bits, cut_to, eval, eval_place, moment, process_handle, truth};
}

/// What is passed on of instance_table.
pub mod instance_table_api {
    pub use kernel_state::instance_table_api::{Deadline, ProcessKind, SpawnStop};
}

/// What is passed on of kernel_bodies.
pub mod kernel_bodies_api {
    pub use kernel_state::kernel_bodies_api::{Frame, Next, Program, locals_in, many_locals};
}

/// What is passed on of kernel_channels.
pub mod kernel_channels_api {
    pub use kernel_state::kernel_channels_api::{ChannelBoard, a_write_is_that_of_a_run};
}

/// What is passed on of kernel_processes.
pub mod kernel_processes_api {
    pub use kernel_state::kernel_processes_api::{
        Trigger, Wait, begin, count_events, disable, end, fire, hold, is_active, rest_ready,
        resume, stay_kept, suspend, top,
    };
}

/// What is passed on of kernel_state.
pub mod kernel_state_api {
    pub use kernel_state::{
        Kept, Kernel, Offspring, StatementStop, Way, acquire, block, fire, kill, move_on, notify,
        pass, push, release, reset, set_byte, set_field, set_local, set_variable, settle, spawn,
        store_variable, targets, top_lives, wait_for_event, wait_so, write_fifo,
    };
}

/// What is passed on of kernel_transactions.
pub mod kernel_transactions_api {
    pub use kernel_state::kernel_transactions_api::{
        MakeStop, TransactionBoard, left_calls_end, live_payloads_are_used, payloads_are_made,
    };
}

/// What is passed on of logic_values.
pub mod logic_values_api {
    pub use expr_eval::logic_values_api::{Bytes, Digit, Items, Value, digit};
}

/// What is passed on of model_tree.
pub mod model_tree_api {
    pub use expr_eval::model_tree_api::{Control, PrintText, ProcessKind};
}

/// What is passed on of process_bodies.
pub mod process_bodies_api {
    pub use kernel_state::process_bodies_api::{Body, EnterStop};
}

/// What is passed on of sim_model.
pub mod sim_model_api {
    pub use expr_eval::sim_model_api::{Goal, Via};
}

/// What is passed on of sim_time.
pub mod sim_time_api {
    pub use expr_eval::sim_time_api::{Time, add};
}

/// What is passed on of transport_phases.
pub mod transport_phases_api {
    pub use expr_eval::transport_phases_api::Path;
}
