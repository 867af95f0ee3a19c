//! The code of expressions, of channels and of events at a place of a model.
//!
//! The code of local variables and of assignments, and of variables that get a value, at a place of a model.
//!
//! The names around a body that its code numbers: those of the module's bodies and of exceptions, and its local variables.
#![tactic(auto)]

mod bodies;
mod channels;
mod deeds;
mod exceptions;
mod forms;
mod locals;
mod named_terms;
mod names;
mod objects;
mod operands;
mod parts;
mod sources;
mod stores;
mod targets;
mod terms;
mod values;

pub use bodies::body_names;
pub use channels::{channel_code, event_code, static_code};
pub use deeds::Deed;
pub use exceptions::exceptions_of;
pub use locals::var_code;
pub use named_terms::{declared_place, use_of};
pub use names::NameList;
pub use operands::evaluated_as;
pub use sources::{Source, body_sources, function_sources};
pub use stores::{optional_store, store};
pub use targets::assign_code;
pub use terms::{option_code, term_code};

/// What is passed on of check_expressions.
pub mod check_expressions_api {
    pub use check_expressions::judge_channel;
}

/// What is passed on of check_names.
pub mod check_names_api {
    pub use check_expressions::check_names_api::Place;
}

/// What is passed on of model_rules.
pub mod model_rules_api {
    pub use code_rules::model_rules_api::{Meaning, Need};
}

/// What is passed on of logic_values.
pub mod logic_values_api {
    pub use code_rules::logic_values_api::Items;
}
