//! The first double name of a model: of a module, of an item in its module, of a parameter or of a local variable.
//!
//! Statements with their blocks: what is visible at each, and the first broken rule in them.
#![tactic(auto)]

mod bodies;
mod items;
mod locals;
mod own;
mod statements;
mod targets;
mod types;
mod whole;

pub use statements::in_block;
pub use types::{type_finding, variable_type_finding};
pub use whole::double_finding;

/// What is passed on of check_actions.
pub mod check_actions_api {
    pub use check_actions::{Used, events_finding, misfits, site_finding, types_differ};
}

/// What is passed on of check_expressions.
pub mod check_expressions_api {
    pub use check_actions::check_expressions_api::{
        Finding, first_finding, is_integer, is_port, is_time_literal, told_if,
    };
}

/// What is passed on of check_names.
pub mod check_names_api {
    pub use check_actions::check_names_api::{
        Locals, ModelNames, ModuleNames, Place, item_name, port_size, signal_type, variable_type,
    };
}

/// What is passed on of model_rules.
pub mod model_rules_api {
    pub use check_actions::model_rules_api::{EndMeaning, ExpressionType, LeftEnd, Meaning, Need};
}

/// What is passed on of sim_time.
pub mod sim_time_api {
    pub use check_actions::sim_time_api::picoseconds_of;
}
