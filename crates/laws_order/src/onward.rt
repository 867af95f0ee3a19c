//! Steps that are none of a process in its turn, from two configurations that are the same.
ghost use Rattle.std.specs.Prelude.{ℕ};
ghost use Rattle.sim_model.specs.Configuration.{Config};
ghost use Rattle.sim_model.specs.Phases.{update_step, delta_step, timed_step, initialization};
ghost use Rattle.sim_model.specs.Steps.{next_command, step, taking};
ghost use Rattle.laws_order.specs.Same.{Same};
ghost use Rattle.laws_order.specs.SameSteps.{SameOutcome, SameTaking, IsBetweenTurns};

use crate::drivers_resolve_in_any_order;

/// The update phase, the delta and the timed notification phase, and initialization lead from two configurations that are the same to two
/// that are the same.
pub fn phases_go_on_the_same()
    ensures update { (c x : Config) → Same c x → Same (update_step c) (update_step x) }
    ensures delta { (c x : Config) → Same c x → Same (delta_step c) (delta_step x) }
    ensures timed { (c x : Config) → Same c x → Same (timed_step c) (timed_step x) }
    ensures begun { (c x : Config) → Same c x → Same (initialization c) (initialization x) }
{
    drivers_resolve_in_any_order();
}

/// The next command of the script leads from both to the same, or is the same fault in both; or the script of both has ended.
pub fn commands_go_on_the_same()
    ensures { (c x : Config) → Same c x → SameOutcome (next_command c c.script) (next_command x x.script) }
{}

/// A process is runnable in both or in neither, and is taken to the same.
pub fn takings_go_on_the_same()
    ensures { (c x : Config) → Same c x → (p : ℕ) → SameTaking (taking c p) (taking x p) }
{}

/// So it is with each step where no process is in its turn: both go on to the same; or both are the same fault; or both take a process
/// next; or both have ended.
pub fn steps_between_turns_go_on_the_same()
    ensures { (c x : Config) → Same c x → IsBetweenTurns c → SameOutcome (step c) (step x) }
{
    drivers_resolve_in_any_order();
}
