//! The objects of each instance by their names, found in the same time however many there are.
//!
//! The bindings of a model between its objects.
//!
//! The design of a model, made from its objects, what their bindings give, and its code.
#![tactic(auto)]

mod children;
mod counting;
mod denoted;
mod design;
mod ends;
mod frames;
mod hops;
mod kinds;
mod links;
mod list;
mod named;
mod ports;
mod processes;
mod statics;
mod tables;
mod turns;

pub use children::Children;
pub use design::design_of;
pub use list::list_binds;

/// What is passed on of elaborate_objects.
pub mod elaborate_objects_api {
    pub use elaborate_objects::{judge_cycles, list_objects};
}
