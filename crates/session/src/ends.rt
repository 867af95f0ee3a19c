//! How a session ends.
ghost use Rattle.std.specs.Prelude.{◌≡◌, ◌≤◌, ◌+◌, ℕ, drop, length, Some, true};
ghost use Rattle.vcd_trace.specs.SimModel.Configuration.{Config};
ghost use Rattle.vcd_trace.specs.SimModel.Steps.{step};
ghost use Rattle.vcd_trace.specs.SimModel.Runs.{stop_within};
ghost use Rattle.vcd_trace.specs.SimModel.declared.plain.Rule.{Rule};
ghost use Rattle.kernel_start.specs.KernelState.Kernel.{StandsFor};
ghost use Rattle.session.specs.Course.{IsEnd, IsEndedAs, IsOverAs, is_empty};

use kernel_start::kernel_state_api::Kernel;
use vcd_trace::sim_model_api::{Command, Phase, Stop};

/// How a session that has ended came to its end.
pub(crate) fn ended_as(k: &Kernel) -> Stop
    ensures ended { IsEndedAs k.now result }
    ensures end { IsEnd result }
{
    if k.cycle.stopped {
        Stop::Stopped
    } else {
        Stop::Done
    }
}

/// Whether no command is left.
fn has_none_left(script: &[Command], place: usize) -> bool
    requires { place ≤ length script.now }
    ensures { result ≡ is_empty (drop place script.now) }
{
    place == script.len()
}

/// Whether the session has ended.
fn is_over(k: &Kernel, script: &[Command], place: usize) -> bool
    requires { place ≤ length script.now }
    ensures { (c : Config) → StandsFor k.now c → c.script ≡ drop place script.now → IsOverAs result (step c) }
{
    if k.cycle.stopped {
        return true;
    }
    match k.cycle.phase {
        Phase::Idle => has_none_left(script, place),
        _ => false,
    }
}

/// How the session ends where the budget is used up.
pub(crate) fn end_at_budget(k: &Kernel, script: &[Command], place: usize) -> Stop
    requires { place ≤ length script.now }
    ensures ending { (c : Config) (rule : Rule) (t : ℕ) → StandsFor k.now c → c.script ≡ drop place script.now → stop_within c rule t true (step c) ≡ Some result }
    ensures end { IsEnd result }
{
    if is_over(k, script, place) {
        ended_as(k)
    } else {
        Stop::Budget
    }
}

/// How the session ends where no runnable process was picked after these takings.
pub(crate) fn not_ready(choices: &[u32]) -> Stop
    ensures place { result ≡ Stop.Replay (length choices.now + 1) }
    ensures end { IsEnd result }
{
    Stop::Replay {
        place: choices.len() as u64 + 1,
    }
}
