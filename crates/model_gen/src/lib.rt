//! The generated model of a size: a producer, as many stages as the size says, and a consumer, joined by fifos.
#![tactic(auto)]

mod generated;
mod modules;

pub use generated::generate;

/// What is passed on of logic_values.
pub mod logic_values_api {
    pub use logic_values::Text;
}
