//! What the laws below say of configurations that are the same, and of the runs of a design, put together.
ghost use Rattle.sim_model.specs.FlatDesign.declared.design.Design.{Design};
ghost use Rattle.order_free.specs.Free.{Free};
ghost use Rattle.laws_order.specs.Below.{OfTheSame, OfRuns};

use crate::{
    being_the_same_is_an_equivalence, evaluation_phases_are_turns, processes_keep_to_themselves,
    runs_are_on_their_own, runs_begin_the_same, runs_take_turns,
    steps_between_turns_go_on_the_same, the_stack_stays_empty_between_turns, turns_are_runs,
    turns_come_to_the_same_in_either_order, turns_go_on_the_same, turns_of_a_phase_are_a_run,
    turns_wake_nobody, what_is_the_same_shows_the_same,
};

/// Steps and turns in two configurations that are the same, and what shows of them.
pub(crate) fn the_same_goes_on()
    ensures { OfTheSame }
{
    being_the_same_is_an_equivalence();
    runs_begin_the_same();
    steps_between_turns_go_on_the_same();
    turns_go_on_the_same();
    turns_come_to_the_same_in_either_order();
    what_is_the_same_shows_the_same();
}

/// The runs of a design that keeps the rule on the order of processes.
pub(crate) fn runs_keep_to_turns()
    ensures { (d : Design) → Free d → OfRuns d }
{
    processes_keep_to_themselves();
    runs_are_on_their_own();
    runs_take_turns();
    turns_are_runs();
    turns_wake_nobody();
    evaluation_phases_are_turns();
    turns_of_a_phase_are_a_run();
    the_stack_stays_empty_between_turns();
}
