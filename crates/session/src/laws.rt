//! What a run of a sound design gives each of its steps.
ghost use Rattle.std.specs.Prelude.{◌<◌, ◌-◌, ◌^◌, All};
ghost use Rattle.flat_design.specs.declared.design.SemaphorePart.{SemaphorePart};
ghost use Rattle.vcd_trace.specs.SimModel.Configuration.{Config};
ghost use Rattle.kernel_start.specs.KernelState.Kernel.{StandsFor};
ghost use Rattle.kernel_start.specs.KernelState.declared.kernel.Kernel.{Kernel};
ghost use Rattle.laws_reached.specs.Reached.{IsReached};
ghost use Rattle.kernel_runs.specs.Premises.{MayStep};
ghost use Rattle.session.specs.Begun.{GoesOn};

use laws_reached::{
    designs_stay, fresh_at_start, others_have_no_goal, reached_designs_are_sound, runnable_once,
    runs_go_on, semaphores_are_within, throws_are_free,
};
use vcd_trace::laws_runs_api::{steps_add_snapshots, takings_add_none};

/// Where a kernel stands for a configuration that a run of a sound design comes to, whose semaphores start low, its next step may be
/// made.
pub(crate) fn runs_may_step()
    ensures { (k : Kernel) (c : Config) → StandsFor k c → (r : IsReached c) → c.design.events < 2 ^ 32 - 1
        → All (λ (p : SemaphorePart). p.start < 2 ^ 31) c.design.semaphores → r.steps < 2 ^ 63 → MayStep k }
{
    fresh_at_start();
    throws_are_free();
    others_have_no_goal();
    reached_designs_are_sound();
    semaphores_are_within();
}

/// A run of a sound design goes on so.
pub(crate) fn sound_runs_go_on()
    ensures { GoesOn }
{
    runs_go_on();
    designs_stay();
    runnable_once();
    steps_add_snapshots();
    takings_add_none();
}
