//! Statements of data: local variables, assignments to variables and payloads, prints, choices, loops and returns without a value.
//!
//! Each takes the values of its expressions, or their faults, as they were evaluated where the statement stands, and does the
//! one step that the definitions of a run say of its form.
//!
//! Whole statements that store: assignments to targets of every form, writes of channels, and returns. Their expressions are
//! evaluated, and then the statement acts.
#![tactic(auto)]

mod assignments;
mod blocks;
mod elements;
mod prints;
mod stored_assignments;
mod stored_returns;
mod storing;
mod updates;
mod variables;
mod writes;

pub use blocks::{if_then, while_do};
pub use prints::print;
pub use stored_assignments::assign;
pub use stored_returns::return_value;
pub use storing::{store, variable_number};
pub use variables::var;
pub use writes::write;

/// What is passed on of event_core.
pub mod event_core_api {
    pub use kernel_view::event_core_api::Ev;
}

/// What is passed on of expr_eval.
pub mod expr_eval_api {
    pub use kernel_view::expr_eval_api::{bits, cut_to, moment, process_handle};
}

/// What is passed on of instance_table.
pub mod instance_table_api {
    pub use kernel_view::instance_table_api::{Deadline, ProcessKind, SpawnStop};
}

/// What is passed on of kernel_bodies.
pub mod kernel_bodies_api {
    pub use kernel_view::kernel_bodies_api::{Frame, Next, Program, locals_in, many_locals};
}

/// What is passed on of kernel_processes.
pub mod kernel_processes_api {
    pub use kernel_view::kernel_processes_api::{
        Trigger, Wait, begin, count_events, disable, end, fire, hold, is_active, rest_ready,
        resume, stay_kept, suspend, top,
    };
}

/// What is passed on of kernel_state.
pub mod kernel_state_api {
    pub use kernel_view::kernel_state_api::{
        Kept, Kernel, Offspring, StatementStop, Way, acquire, fire, kill, move_on, pass, push,
        release, reset, set_local, set_variable, settle, spawn, targets, top_lives,
    };
}

/// What is passed on of kernel_transactions.
pub mod kernel_transactions_api {
    pub use kernel_view::kernel_transactions_api::{
        MakeStop, TransactionBoard, left_calls_end, live_payloads_are_used, payloads_are_made,
    };
}

/// What is passed on of kernel_view.
pub mod kernel_view_api {
    pub use kernel_view::{
        denoted_at, denoted_in, eval_at, eval_if_at, home_at, home_within, keeper_number,
        memory_number, named_at, payload_at,
    };
}

/// What is passed on of logic_values.
pub mod logic_values_api {
    pub use kernel_view::logic_values_api::{Bytes, Items, Value};
}

/// What is passed on of model_tree.
pub mod model_tree_api {
    pub use kernel_view::model_tree_api::{Control, ProcessKind};
}

/// What is passed on of process_bodies.
pub mod process_bodies_api {
    pub use kernel_view::process_bodies_api::{Body, EnterStop};
}

/// What is passed on of sim_model.
pub mod sim_model_api {
    pub use kernel_view::sim_model_api::{Goal, Via};
}

/// What is passed on of sim_time.
pub mod sim_time_api {
    pub use kernel_view::sim_time_api::Time;
}

/// What is passed on of transport_phases.
pub mod transport_phases_api {
    pub use kernel_view::transport_phases_api::Path;
}
