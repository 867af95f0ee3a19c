//! A page of text on which tokens are laid out: line ends, indentation by open braces, and blanks between neighbours.
//!
//! The text of a model: its tree's tokens, laid out.
#![tactic(auto)]

mod expressions;
mod items;
mod leaves;
mod page;
mod printing;
mod shapes;
mod statements;

pub use page::Page;
pub use printing::print;

/// What is passed on of logic_values.
pub mod logic_values_api {
    pub use model_tree::logic_values_api::Text;
}

/// What is passed on of model_tree.
pub mod model_tree_api {
    pub use model_tree::{CheckStop, Fault, Kind, ParseStop, Tree};
}
