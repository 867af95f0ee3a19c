//! Laws on clocked threads, as functions that do nothing and whose clauses are the laws.
//!
//! Laws on the code of clocked threads and on its runs, as functions that do nothing and whose clauses are the laws.
#![tactic(auto)]

mod again;
mod first;
mod resets;
mod runs;
mod spots;
mod threads;
mod ticks;
mod tries;

pub use again::{
    a_caught_exception_begins_again, a_reset_at_its_level_begins_again, an_unwinding_goes_on,
};
pub use first::{
    a_reset_begins_own_statements, own_statements_begin_again_first, the_loop_would_go_on,
};
pub use resets::{a_reset_at_its_level_throws, a_reset_begins_anew};
pub use runs::ticks_of_a_text_run_as_written;
pub use spots::{ticks_go_on, what_shows_stands_in_place};
pub use threads::{
    clocked_threads_become_such_of_the_code, clocked_threads_stay_such_in_the_tree_of_ticks,
};
pub use ticks::ticks_take_their_takings;
pub use tries::{
    no_call_is_open_behind_the_wait_of_a_tick, no_try_of_its_own_catches,
    own_statements_begin_again_by_the_code,
};
