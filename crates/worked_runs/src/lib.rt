//! Worked runs: what the definitions of a run give for models and scripts written by hand, computed by the checker. A clause
//! says, for one model and script, that the run of exactly so many steps with these choices ends there, and its report.
//!
//! Worked runs of expressions: what operators, places, conversions and members give, and where they are faults. A clause says,
//! for one model, that the run of exactly so many steps with these choices ends there, and its report.
//!
//! Worked runs of events: of each pair of notifications of one event, which is left; and how processes wait. A clause says, for
//! one model, that the run of exactly so many steps with these choices ends there, and its report.
//!
//! Worked runs of process control (IEEE 1666-2011, 5.6.6): what each control call does to a target that waits, is runnable,
//! suspended, disabled, not begun, idle, being unwound, active or ended. A clause says, for one model, that the run of exactly so
//! many steps with these choices ends there, and its report.
//!
//! Worked runs of transport calls by the base protocol (IEEE 1666-2011, 15.2): each word of calls and answers that it allows; each
//! of its rules broken by each call, and by each return, that can break it, and several at once; and calls that are left by an
//! exception, a kill or a reset: of each phase and a blocking one, with what may follow. A clause says, for one model, that the run
//! of exactly so many steps with these choices ends there, and its report; or what was then called, returned and left on the hop.
#![tactic(auto, unfolding(crate::specs::Run::told, crate::specs::Run::told_under, crate::specs::Run::traced, crate::specs::Run::changed, crate::specs::Run::IsRuled, crate::specs::Run::marked, crate::specs::Run::called))]

mod breaking;
mod calling;
mod chains;
mod controlling;
mod data;
mod descending;
mod disabling;
mod integers;
mod itself;
mod killing;
mod leaving;
mod members;
mod pairs;
mod resetting;
mod scheduling;
mod stopping;
mod suspending;
mod throwing;
mod transporting;
mod unwinding;
mod vectors;
mod waiting;

pub use breaking::a_blocking_call_comes_alone;
pub use breaking::a_freed_payload_has_no_status;
pub use breaking::a_handler_is_missing;
pub use breaking::a_phase_comes_on_its_path;
pub use breaking::a_phase_comes_where_it_may;
pub use breaking::a_response_has_a_status;
pub use breaking::a_response_is_taken_back;
pub use breaking::a_second_call_of_one_kind_is_open;
pub use breaking::an_answer_comes_where_it_may;
pub use breaking::another_transaction_requests;
pub use breaking::another_transaction_responds;
pub use breaking::the_first_rule_that_a_call_breaks_is_the_fault;
pub use breaking::the_first_rule_that_a_return_breaks_is_the_fault;
pub use breaking::what_comes_back_may_not_come;
pub use calling::a_request_ends_by_a_call;
pub use calling::a_request_ends_by_its_answer;
pub use calling::a_request_stays_open;
pub use calling::a_transaction_ends_by_the_answers_of_its_request;
pub use chains::a_chain_is_read_piece_by_piece;
pub use chains::a_value_comes_before_its_element;
pub use controlling::a_kill_may_be_a_fault;
pub use controlling::a_kill_unwinds_at_once;
pub use controlling::a_reset_begins_again;
pub use controlling::an_exception_is_caught_where_it_is_thrown;
pub use controlling::flags_hold;
pub use data::a_buffer_announces_an_equal_value;
pub use data::a_choice_takes_one_block;
pub use data::a_clocked_counter_is_traced;
pub use data::a_fifo_answers;
pub use data::a_fifo_blocks;
pub use data::a_mutex_has_an_owner;
pub use data::a_mutex_is_handed_on;
pub use data::a_port_has_places;
pub use data::a_second_writer_is_a_fault;
pub use data::a_semaphore_counts;
pub use data::a_signal_has_a_writer;
pub use data::a_written_value_is_read_after_the_update;
pub use data::calls_may_be_too_deep;
pub use data::drivers_are_resolved;
pub use data::nothing_is_run;
pub use data::numbers_are_cut;
pub use data::the_script_sets_and_shows;
pub use data::waiters_try_again;
pub use descending::a_call_of_several_may_be_at_fault;
pub use descending::a_call_reaches_descendants;
pub use descending::a_caller_comes_last;
pub use disabling::a_disabled_process_misses_what_comes;
pub use disabling::a_lost_time_out_leaves_the_wait;
pub use disabling::a_runnable_process_is_disabled_and_runs;
pub use integers::integers_are_compared;
pub use integers::integers_are_reckoned_with;
pub use integers::integers_are_shifted;
pub use integers::integers_have_bits;
pub use integers::times_are_reckoned_with;
pub use integers::truth_values_are_joined;
pub use itself::a_method_controls_itself;
pub use itself::a_process_catches_what_it_throws_at_itself;
pub use itself::a_process_resets_itself;
pub use itself::a_thread_controls_itself;
pub use killing::a_killed_process_has_ended;
pub use killing::a_process_is_killed_before_it_begins;
pub use killing::an_ended_process_is_left_alone;
pub use leaving::a_response_is_left;
pub use leaving::a_thread_is_killed_or_thrown_at_in_a_call;
pub use leaving::a_thread_is_reset_in_a_call;
pub use leaving::a_thread_resets_itself_in_a_call;
pub use leaving::an_exception_leaves_a_call;
pub use leaving::calls_are_left_together;
pub use leaving::the_end_of_a_request_is_left;
pub use leaving::the_end_of_a_response_is_left;
pub use members::a_fifo_is_filled;
pub use members::a_handle_is_asked;
pub use members::a_keeper_is_set;
pub use members::a_payload_is_held;
pub use members::a_signal_has_changed;
pub use pairs::a_delta_notification_is_pending;
pub use pairs::a_timed_notification_is_pending;
pub use pairs::an_immediate_notification_is_past;
pub use pairs::nothing_is_pending;
pub use pairs::times_are_told_from_now;
pub use resetting::a_method_is_reset;
pub use resetting::a_process_is_reset;
pub use resetting::a_spawned_instance_is_reset;
pub use resetting::a_suspended_process_is_reset;
pub use resetting::a_thread_is_reset_before_it_begins;
pub use scheduling::a_cancelled_notification_never_comes;
pub use scheduling::a_rule_picks_each_choice;
pub use scheduling::a_run_ends_at_its_time;
pub use scheduling::a_wait_for_all_ends_by_its_time;
pub use scheduling::an_own_notification_wakes_nobody;
pub use scheduling::sessions_end;
pub use scheduling::the_earliest_notification_stands;
pub use stopping::a_stop_makes_its_update_phase;
pub use stopping::a_stop_waits_for_what_is_runnable;
pub use stopping::a_stop_wakes_nobody;
pub use suspending::a_process_is_suspended;
pub use suspending::a_suspended_process_is_resumed;
pub use suspending::a_thread_suspends_itself_in_a_call;
pub use suspending::the_flags_are_independent;
pub use throwing::a_suspended_thread_goes_on_when_it_is_resumed;
pub use throwing::a_thread_is_thrown_at;
pub use throwing::a_throw_at_a_method_does_nothing;
pub use throwing::an_exception_that_is_not_caught_is_a_fault;
pub use transporting::a_blocking_call_may_wait;
pub use transporting::a_call_gives_back;
pub use transporting::a_keeper_asks_for_a_sync;
pub use transporting::a_keeper_looks_to_the_next_quantum;
pub use transporting::a_payload_is_carried;
pub use transporting::a_spawned_instance_is_another_one;
pub use transporting::a_spawned_method_runs_anew;
pub use transporting::an_end_can_be_waited_for;
pub use transporting::calls_follow_the_base_protocol;
pub use unwinding::a_process_below_the_top_is_flagged;
pub use unwinding::a_process_below_the_top_is_not_unwound;
pub use unwinding::an_unwinding_is_not_unwound;
pub use unwinding::an_unwinding_process_is_suspended;
pub use unwinding::unwind_blocks_run_when_they_are_passed;
pub use vectors::values_are_converted;
pub use vectors::vectors_go_digit_by_digit;
pub use vectors::vectors_have_places;
pub use waiting::a_method_waits_by_its_last_next_trigger;
pub use waiting::a_thread_waits_by_what_it_named;
pub use waiting::a_wait_for_all_wants_each_event;
pub use waiting::a_wait_for_no_time_ends_in_the_next_delta_cycle;
pub use waiting::an_event_ends_its_deadline;
