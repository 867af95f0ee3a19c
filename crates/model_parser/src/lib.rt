//! The items of modules, from the tokens of a text.
//!
//! The tree that a model's text reads as.
#![tactic(auto)]

mod bodies;
mod heads;
mod module_items;
mod modules;
mod parsing;
mod plain;
mod ports;
mod sockets;
mod starts;
mod values;

pub use module_items::items;
pub use parsing::{one_tree, parse};

/// What is passed on of model_lexer.
pub mod model_lexer_api {
    pub use parse_statements::model_lexer_api::{
        Token, TokenKind, reads_a_language, tokens, tokens_in_language,
    };
}
