//! Laws of the tree of ticks.
//!
//! The first time of a tree that is none of a resolution.
#![tactic(auto)]

mod expressions;
mod fault_laws;
mod found;
mod items;
mod parts;
mod statements;
mod telling;
mod tree_laws;

pub use fault_laws::{inexact_times_are_in_range, unfit_times_are_past};
pub use found::Unfit;
pub use items::first_unfit;
pub use telling::inexact_name;
pub use tree_laws::{ticks_are_seen, ticks_are_trees, ticks_stand_where_times_stood};
