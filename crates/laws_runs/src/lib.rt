//! Laws over whole runs, as functions that do nothing and whose clauses are the laws. First the moves that each step of a
//! run is made of, of which a law over runs is proved one by one, and then of all steps at once; then what stays clean, what
//! unwinding does, what has ended, what exceptions and the base protocol keep, and the types of what is computed.
#![tactic(auto)]

mod calls;
mod clean;
mod descendants;
mod ended;
mod exact;
mod goals;
mod kills;
mod lawful;
mod left;
mod marks;
mod nesting;
mod once;
mod premises;
mod processes;
mod runs;
mod shapes;
mod snapshots;
mod stacks;
mod standing;
mod standing_residuals;
mod statements;
mod steps;
mod terms;
mod throws;
mod typed_residuals;
mod typing;

pub use calls::{all_guards_stand_below_an_end, calls_unwind_what_is_entered};
pub use clean::runs_are_clean;
pub use descendants::calls_reach_what_comes_of_their_targets;
pub use ended::{nothing_names_what_has_ended, what_has_ended_never_runs_again};
pub use exact::{
    a_freed_payload_comes_first, faults_of_the_protocol_are_exact,
    protocol_faults_come_with_entries,
};
pub use goals::runs_have_clean_goals;
pub use kills::a_kill_unwinds_all_guards;
pub use lawful::{histories_are_lawful, open_calls_are_of_instances};
pub use left::a_guard_that_was_left_never_runs_its_unwind_block;
pub use marks::{a_return_marks_what_goes, moves_keep_guards, settling_marks_what_goes};
pub use nesting::marks_are_nested;
pub use once::{unwind_blocks_run_once, unwinding_ends_before_the_caller_goes_on};
pub use premises::both_premises_are_needed;
pub use processes::{
    only_live_instances_are_taken, runs_have_clean_processes, what_has_ended_is_nowhere,
};
pub use runs::{no_earlier_end, runs_split};
pub use shapes::{bodies_begin_normal, moves_keep_shapes, shapes_have_one_unwinding};
pub use snapshots::{steps_add_snapshots, takings_add_none};
pub use stacks::steps_move_only_the_top;
pub use standing::{
    below_a_goal_are_unwind_blocks, the_statement_in_place_stands_in_a_body,
    unwindings_stand_in_unwind_blocks,
};
pub use standing_residuals::{settling_twice_is_settling_once, unwinding_keeps_guards};
pub use statements::{each_statement_keeps_everything_typed, each_statement_meets_its_types};
pub use steps::{moves_go_on, steps_are_moves, takings_are_moves};
pub use terms::typed_terms_have_their_types;
pub use throws::a_throw_unwinds_the_guards_inside_its_try;
pub use typed_residuals::moves_keep_residuals_typed;
pub use typing::{operators_meet_their_types, runs_are_typed, start_is_typed};

/// What is passed on of logic_values.
pub mod logic_values_api {
    pub use sim_model::logic_values_api::{Digit, Items, Lv, Text, Value, digit, is_same};
}

/// What is passed on of sim_model.
pub mod sim_model_api {
    pub use sim_model::{Command, Log, Phase, Rule, Stop};
}

/// What is passed on of sim_time.
pub mod sim_time_api {
    pub use sim_model::sim_time_api::Time;
}
