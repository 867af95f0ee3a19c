//! All rules on the modules of a tree: its first fault, and that of a whole text of either language.
//!
//! The code of a model: the bodies of its functions and processes, and the threads of its clocks.
//!
//! The judgement of a tree by all rules on its modules: its first broken rule, or the tree as one that breaks none, with its
//! code.
#![tactic(auto)]

mod bodies;
mod checked;
mod clocks;
mod items;
mod judgement;
mod locals;
mod sources;
mod whole;

pub use checked::{Checked, check};
pub use judgement::judge_rules;
pub use sources::judge_source;
pub use whole::code_of;

/// What is passed on of code_terms.
pub mod code_terms_api {
    pub use code_blocks::code_terms_api::exceptions_of;
}

/// What is passed on of logic_values.
pub mod logic_values_api {
    pub use code_rules::logic_values_api::{Items, Text};
}

/// What is passed on of tick_rules.
pub mod tick_rules_api {
    pub use tick_rules::resolution_of;
}
