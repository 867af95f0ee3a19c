//! Calls that are entered and left: what plain calls and transport calls share.
//!
//! Plain calls: how they are entered, and what their ends hand back.
//!
//! The statement that spawns an instance of a function (IEEE 1666-2011, 5.5).
#![tactic(auto)]

mod arguments;
mod calls;
mod entering;
mod frames;
mod given;
mod leaving;
mod returns;
mod rooms;
mod sensitivity;
mod spawns;
mod standings;
mod storing;

pub use calls::call;
pub use entering::{enter_call, enter_ready_call};
pub use exec_data::kernel_bodies_api::Frame;
pub use exec_data::process_bodies_api::EnterStop;
pub use frames::{answer_of, final_value};
pub use leaving::{ending_call, leave_call};
pub use returns::{calling_statement, leave_plain_call};
pub use rooms::{reserve_call, reserve_locals};
pub use spawns::spawn;
pub use standings::home_at;
pub use storing::{store_if_in, store_in};

/// What is passed on of exec_data.
pub mod exec_data_api {
    pub use exec_data::store;
}

/// What is passed on of exec_events.
pub mod exec_events_api {
    pub use exec_events::{
        cancel_named, notify_after, notify_delta, notify_named, stop, trigger_statement,
        wait_statement,
    };
}

/// What is passed on of expr_eval.
pub mod expr_eval_api {
    pub use exec_data::expr_eval_api::{bits, moment};
}

/// What is passed on of kernel_bodies.
pub mod kernel_bodies_api {
    pub use exec_data::kernel_bodies_api::{Frame, Program};
}

/// What is passed on of kernel_state.
pub mod kernel_state_api {
    pub use exec_data::kernel_state_api::{
        Kernel, StatementStop, acquire, pass, release, settle, top_lives,
    };
}

/// What is passed on of kernel_transactions.
pub mod kernel_transactions_api {
    pub use exec_data::kernel_transactions_api::{
        MakeStop, TransactionBoard, live_payloads_are_used, payloads_are_made,
    };
}

/// What is passed on of kernel_view.
pub mod kernel_view_api {
    pub use exec_data::kernel_view_api::{
        denoted_at, eval_at, eval_if_at, keeper_number, memory_number, named_at, payload_at,
    };
}

/// What is passed on of logic_values.
pub mod logic_values_api {
    pub use exec_data::logic_values_api::{Bytes, Items, Value};
}

/// What is passed on of sim_model.
pub mod sim_model_api {
    pub use exec_data::sim_model_api::Via;
}

/// What is passed on of sim_time.
pub mod sim_time_api {
    pub use exec_data::sim_time_api::Time;
}

/// What is passed on of transport_phases.
pub mod transport_phases_api {
    pub use exec_data::transport_phases_api::Path;
}
