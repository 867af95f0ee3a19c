//! The command line: its words, and what they ask for.
#![tactic(auto)]

mod command;
mod given;
mod laws;
mod modes;
mod numbers;
mod reading;
mod words;

pub use laws::{
    budgets_are_limited, simulations_write_apart, two_names_are_a_simulation, what_excludes_what,
};
pub use modes::{ChoiceRule, Generated, Mode, Order, PageKind, Simulation, WordsStop};
pub use numbers::{BUDGET_LIMIT, DEFAULT_BUDGET, GENERATED_LIMIT};
pub use reading::read_line;
pub use words::Words;

/// What is passed on of sim_model.
pub mod sim_model_api {
    pub use sim_model::{Log, Rule, Stop};
}
