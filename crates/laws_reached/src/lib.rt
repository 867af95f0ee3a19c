//! What every kernel function may ask of a kernel, from one fact: the kernel stands for a configuration that a run of a sound
//! design comes to. The functions do nothing, and their clauses are the laws.
#![tactic(auto)]

mod counts;
mod designs;
mod goals;
mod processes;
mod runs;
mod starts;

pub use counts::{events_keep_their_number, semaphores_are_within};
pub use designs::{designs_stay, reached_designs_are_sound};
pub use goals::{others_have_no_goal, throws_are_free};
pub use processes::{runnable_once, tops};
pub use runs::{runs_begin, runs_go_on};
pub use starts::fresh_at_start;

/// What is passed on of kernel_phases.
pub mod kernel_phases_api {
    pub use kernel_phases::Choosing;
}
