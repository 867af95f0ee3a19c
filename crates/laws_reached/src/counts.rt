//! Numbers that a run bounds.
ghost use Rattle.std.specs.Prelude.{◌≡◌, ◌≤◌, ◌<◌, ◌+◌, ◌-◌, ◌^◌, ℕ, All, length};
ghost use Rattle.flat_design.specs.declared.design.SemaphorePart.{SemaphorePart};
ghost use Rattle.laws_runs.specs.SimModel.Configuration.{Config};
ghost use Rattle.kernel_phases.specs.KernelState.Kernel.{StandsFor};
ghost use Rattle.kernel_phases.specs.KernelState.declared.kernel.Kernel.{Kernel};
ghost use Rattle.laws_reached.specs.Reached.{IsReached};

/// A run has as many events throughout as its design.
pub fn events_keep_their_number()
    ensures { (k : Kernel) (c : Config) → StandsFor k c → IsReached c → length k.events ≡ k.design.events }
{}

/// A step makes a semaphore more by one at most (IEEE 1666-2011, 6.29.3.5), so that it is more than at first by no more than the
/// run has steps.
pub fn semaphores_are_within()
    ensures steps { (k : Kernel) (c : Config) → StandsFor k c → (r : IsReached c) → (most : ℕ) → All (λ (p : SemaphorePart). p.start ≤ most) k.design.semaphores → All (λ v. v ≤ most + r.steps) k.channels.semaphores }
    ensures room { (k : Kernel) (c : Config) → StandsFor k c → (r : IsReached c) → All (λ (p : SemaphorePart). p.start < 2 ^ 31) k.design.semaphores → r.steps < 2 ^ 63 → All (λ v. v < 2 ^ 64 - 1) k.channels.semaphores }
{}
