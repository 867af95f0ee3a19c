//! The texts of a session over a kernel: the lines that its report gets while it runs, and what follows them at its end.
#![tactic(auto)]

mod closings;
mod faults;
mod instances;
mod paths;
mod pieces;
mod prints;
mod rows;
mod shows;

pub use closings::closing;
pub use prints::{print_in, print_within, turn_text};
pub use shows::show;
