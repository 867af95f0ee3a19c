//! What items and statements of the model language share: types, channels, events and arguments.
//!
//! The operations and actions of the model language, from the tokens of a text.
#![tactic(auto)]

mod actions;
mod channels;
mod channels_exactly;
mod commas;
mod dispatch;
mod exactly;
mod operations;
mod parts;
mod spawning;
mod types;
mod waiting;

pub use channels::{channel, event, events, optional_member, sensitive};
pub use channels_exactly::{
    arguments_exactly, channel_exactly, event_exactly, signal_type_exactly, variable_type_exactly,
};
pub use dispatch::{action, operation, sees_action, sees_operation};
pub use exactly::{action_exactly, operation_exactly};
pub use parts::{arguments, optional_expression, optional_index};
pub use types::{signal_type, variable_type};

/// What is passed on of logic_values.
pub mod logic_values_api {
    pub use parse_expressions::logic_values_api::Lv;
}

/// What is passed on of model_lexer.
pub mod model_lexer_api {
    pub use parse_expressions::model_lexer_api::{
        Token, TokenKind, reads_a_language, tokens, tokens_in_language,
    };
}

/// What is passed on of parse_expressions.
pub mod parse_expressions_api {
    pub use parse_expressions::{Cursor, expression, push};
}

/// What is passed on of sim_time.
pub mod sim_time_api {
    pub use parse_expressions::sim_time_api::Unit;
}
