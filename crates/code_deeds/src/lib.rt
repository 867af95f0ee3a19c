//! The parts of the code of operations and of statements that give no value: functions called and spawned, their arguments,
//! what is waited for, notifications, and what is written to a channel.
//!
//! The code of operations and of statements that give no value, at a place of a model.
#![tactic(auto)]

mod actions;
mod calls;
mod events;
mod homes;
mod operations;
mod written;

pub use actions::action_code;
pub use calls::{call_arguments, controlled_by, exception_number, function_number, spawn_code};
pub use events::{await_code, notification_code};
pub use homes::Home;
pub use operations::operate_code;
pub use written::{put_into, written_to};

/// What is passed on of code_terms.
pub mod code_terms_api {
    pub use code_terms::{
        Deed, NameList, Source, assign_code, body_names, body_sources, exceptions_of,
        function_sources, term_code, var_code,
    };
}

/// What is passed on of logic_values.
pub mod logic_values_api {
    pub use code_terms::logic_values_api::Items;
}
