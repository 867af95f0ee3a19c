//! The rules on single constructs of a model: items with their parts, modules and the top instance.
#![tactic(auto)]

mod bindings;
mod constants;
mod handlers;
mod items;
mod models;
mod owns;

pub use models::construct_finding;

/// What is passed on of check_statements.
pub mod check_statements_api {
    pub use check_statements::double_finding;
}
