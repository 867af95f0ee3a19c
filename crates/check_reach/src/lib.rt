//! Marks on numbers that spread along edges, each number once, in time that grows with the edges.
//!
//! The third pass of the rules of a model: what bodies reach.
#![tactic(auto)]

mod begun;
mod bodies;
mod calls;
mod deeds;
mod edges;
mod findings;
mod followed;
mod handlers;
mod placed;
mod sets;
mod whole;

pub use edges::Edge;
pub use followed::spread;
pub use whole::reach_finding;

/// What is passed on of check_expressions.
pub mod check_expressions_api {
    pub use check_expressions::Finding;
}

/// What is passed on of check_names.
pub mod check_names_api {
    pub use check_expressions::check_names_api::{
        Locals, ModelNames, ModuleNames, Place, variable_type,
    };
}
