//! The start of the first run.
ghost use Rattle.std.specs.Prelude.{◌≡◌};
ghost use Rattle.laws_runs.specs.SimModel.Configuration.{Config};
ghost use Rattle.laws_runs.specs.SimModel.declared.plain.Phase.TheVariants as phase;
ghost use Rattle.kernel_phases.specs.KernelState.Kernel.{StandsFor};
ghost use Rattle.kernel_phases.specs.KernelState.declared.kernel.Kernel.{Kernel};
ghost use Rattle.kernel_phases.specs.Fresh.{IsFresh};
ghost use Rattle.laws_reached.specs.Reached.{IsReached};

/// Before initialization each process of the design has its instance, which is not suspended, and nobody is active (IEEE
/// 1666-2011, 4.2.1.1).
pub fn fresh_at_start()
    ensures configuration { (k : Kernel) (c : Config) → StandsFor k c → IsReached c → c.cycle.phase ≡ phase.Start → IsFresh k }
    ensures kernel { (k : Kernel) (c : Config) → StandsFor k c → IsReached c → k.cycle.phase ≡ phase.Start → IsFresh k }
{}
