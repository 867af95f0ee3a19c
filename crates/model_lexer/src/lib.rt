//! The grammar of the model language: which tokens derive which tree, and how many brackets are open in it.
//!
//! The tokens of a model's text.
#![tactic(auto)]

mod forms;
mod fronts;
mod grammar;
mod languages;
mod laws;
mod lexing;
mod meanings;
mod token;

pub use grammar::{keeps_to_language, sound_tree};
pub use languages::tokens_in_language;
pub use laws::{
    limited_tokens, longest_piece, one_cut, one_form, one_piece, ordered_tokens,
    past_limit_refused, plain_tokens, reads_a_language,
};
pub use lexing::tokens;
pub use token::{Token, TokenKind, Tokens};

/// What is passed on of logic_values.
pub mod logic_values_api {
    pub use model_tree::logic_values_api::Lv;
}

/// What is passed on of model_tree.
pub mod model_tree_api {
    pub use model_tree::{CheckStop, Fault, Kind, ParseStop};
}

/// What is passed on of sim_time.
pub mod sim_time_api {
    pub use model_tree::sim_time_api::Unit;
}
