//! The statements and blocks of the model language, from the tokens of a text.
#![tactic(auto)]

mod blocks;
mod laws;
mod plain;

pub use blocks::block;
pub use laws::block_exactly;

/// What is passed on of logic_values.
pub mod logic_values_api {
    pub use parse_actions::logic_values_api::Lv;
}

/// What is passed on of model_lexer.
pub mod model_lexer_api {
    pub use parse_actions::model_lexer_api::{
        Token, TokenKind, reads_a_language, tokens, tokens_in_language,
    };
}

/// What is passed on of parse_actions.
pub mod parse_actions_api {
    pub use parse_actions::{optional_member, sensitive, signal_type, variable_type};
}

/// What is passed on of parse_expressions.
pub mod parse_expressions_api {
    pub use parse_actions::parse_expressions_api::{Cursor, push};
}

/// What is passed on of sim_time.
pub mod sim_time_api {
    pub use parse_actions::sim_time_api::Unit;
}
