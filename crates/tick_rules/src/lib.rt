//! The times of expressions and statements as numbers of resolutions, written where they stand: no memory is taken.
//!
//! The times of items, modules and whole trees as numbers of resolutions, written where they stand: no memory is taken.
//!
//! What judges a whole text, of either language: its resolution, and how a fault of the tree of ticks is told.
#![tactic(auto)]

mod actions;
mod expressions;
mod items;
mod laws;
mod parts;
mod resolutions;
mod statements;
mod telling;
mod trees;
mod values;

pub use expressions::retime_span;
pub use laws::faultless_texts_have_faultless_ticks;
pub use parts::retime_events;
pub use resolutions::{judge_resolution, resolution_of};
pub use statements::retime_block;
pub use telling::told_fault;
pub use trees::with_ticks;

/// What is passed on of tick_trees.
pub mod tick_trees_api {
    pub use tick_trees::{Unfit, first_unfit, ticks_are_seen, ticks_stand_where_times_stood};
}
