//! Who is runnable and who is active, in a kernel and in the configuration that it stands for.
ghost use Rattle.std.specs.Prelude.{◌≡◌, ◌≤◌, ◌↔◌, ℕ, List, [], ◌∷◌};
ghost use Rattle.std.specs.FinSet as set;
ghost use Rattle.laws_runs.specs.SimModel.Clean.{times};
ghost use Rattle.laws_runs.specs.SimModel.Configuration.{Config};
ghost use Rattle.laws_runs.specs.SimModel.Steps.{step, takes};
ghost use Rattle.laws_runs.specs.SimModel.Waits.{holds};
ghost use Rattle.kernel_phases.specs.KernelState.Kernel.{StandsFor};
ghost use Rattle.kernel_phases.specs.KernelState.Moves.{IsOnTop, Lives};
ghost use Rattle.kernel_phases.specs.KernelState.declared.kernel.Kernel.{Kernel};
ghost use Rattle.laws_reached.specs.Reached.{IsReached};

/// Nobody is runnable twice.
pub fn runnable_once()
    ensures { (c : Config) → IsReached c → (q : ℕ) → times q c.processes.runnable ≤ 1 }
{}

/// The instance on top of the stack of a configuration is on top of that of the kernel, and has not ended; nobody is active in
/// the one where nobody is in the other, so where a process is taken nobody is; and who is runnable in the one is so in the
/// other.
pub fn tops()
    ensures top { (k : Kernel) (c : Config) → StandsFor k c → (p : ℕ) (rest : List ℕ) → c.processes.stack ≡ p ∷ rest → IsOnTop k p }
    ensures lives { (k : Kernel) (c : Config) → StandsFor k c → IsReached c → (p : ℕ) (rest : List ℕ) → c.processes.stack ≡ p ∷ rest → Lives k p }
    ensures nobody { (k : Kernel) (c : Config) → StandsFor k c → (c.processes.stack ≡ []) ↔ (k.schedule.stack.items ≡ []) }
    ensures takes { (k : Kernel) (c : Config) → StandsFor k c → step c ≡ takes → k.schedule.stack.items ≡ [] }
    ensures runnable { (k : Kernel) (c : Config) → StandsFor k c → (q : ℕ) → set.contains k.schedule.ready.members q ≡ holds c.processes.runnable q }
{}
