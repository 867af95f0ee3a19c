//! The steps of a session: commands of the script, the phases, the takings of processes and the steps of their bodies.
#![tactic(auto)]

mod answers;
mod commands;
mod evaluation;
mod stepping;
mod takings;

pub use answers::{Made, Telling};
pub use stepping::{make_step, make_steps};
