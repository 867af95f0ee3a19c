//! One step of an instance: what comes next in its body is found and carried out.
#![tactic(auto)]

mod answers;
mod carrying;
mod data;
mod events;
mod leaving;
mod owing;
mod stepping;

pub use answers::{StepAnswer, StepBrief};
pub use stepping::step_statement;
