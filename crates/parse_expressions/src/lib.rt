//! The expressions of the model language, from the tokens of a text.
#![tactic(auto)]

mod building;
mod cursor;
mod expressions;
mod kinds;
mod laws;
mod operands;
mod starts;

pub use building::push;
pub use cursor::Cursor;
pub use expressions::{expression, group, inside};
pub use laws::{expression_exactly, one_expression};

/// What is passed on of logic_values.
pub mod logic_values_api {
    pub use model_lexer::logic_values_api::Lv;
}

/// What is passed on of model_lexer.
pub mod model_lexer_api {
    pub use model_lexer::{Token, TokenKind, reads_a_language, tokens, tokens_in_language};
}

/// What is passed on of sim_time.
pub mod sim_time_api {
    pub use model_lexer::sim_time_api::Unit;
}
