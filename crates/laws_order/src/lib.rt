//! Laws on the order of processes, as functions that do nothing and whose clauses are the laws.
//!
//! Laws on the steps between turns, and on what processes drive, in two configurations that are the same but for the order of processes.
//!
//! Laws on the runs of a design that keeps the rule on the order of processes: what each step of a process is, each turn, and each
//! evaluation phase.
//!
//! Laws on whole runs: the order of processes does not matter where a design keeps the rule on it.
#![tactic(auto)]

mod acts;
mod below;
mod done_runs;
mod drivers;
mod onward;
mod own_orders;
mod own_runs;
mod own_turns;
mod phases;
mod relation;
mod same_acts;
mod same_drivers;
mod same_turns;
mod starts;
mod turns;
mod views;

pub use acts::{
    acts_are_seen_alike, acts_go_in_either_order, acts_of_others_are_unseen, many_acts_are_unseen,
    many_acts_go_in_either_order, many_acts_leave_all_but_drivers_alike,
};
pub use done_runs::{order_does_not_matter, sessions_end_done};
pub use drivers::drivers_resolve_in_any_order;
pub use onward::{
    commands_go_on_the_same, phases_go_on_the_same, steps_between_turns_go_on_the_same,
    takings_go_on_the_same,
};
pub use own_orders::{evaluation_phases_leave_alike, turns_of_a_phase_go_in_any_order};
pub use own_runs::{
    ends_change_nothing, processes_keep_to_themselves, runs_are_on_their_own, steps_wake_nobody,
    the_stack_stays_empty_between_turns,
};
pub use own_turns::{runs_take_turns, turns_are_runs, turns_wake_nobody};
pub use phases::{evaluation_phases_are_turns, turns_of_a_phase_are_a_run};
pub use relation::{being_the_same_is_an_equivalence, runs_begin_the_same};
pub use same_acts::{acts_go_on_the_same, acts_go_on_the_same_in_either_order};
pub use same_drivers::{
    drivers_go_in_either_order, drivers_go_on_the_same, each_process_has_its_own_driver,
};
pub use same_turns::{turns_come_to_the_same_in_either_order, turns_go_on_the_same};
pub use starts::{bodies_begin_on_their_own, ends_are_unheard_at_the_start};
pub use turns::{
    statements_are_done_alike, steps_are_done_alike, steps_of_others_are_unseen,
    turns_are_done_alike, turns_do_not_depend_on_others, turns_go_in_either_order,
    turns_leave_alike, turns_of_others_are_unseen, what_is_left_alike_is_seen_alike,
};
pub use views::what_is_the_same_shows_the_same;

/// What is passed on of order_free.
pub mod order_free_api {
    pub use order_free::{Verdict, order_free};
}
