//! The design of a kernel in a run.
ghost use Rattle.std.specs.Prelude.{◌≡◌, ◌<◌, ◌-◌, ◌^◌, ℕ, Some, false};
ghost use Rattle.flat_design.specs.Sound.{SoundDesign};
ghost use Rattle.laws_runs.specs.SimModel.Configuration.{Config};
ghost use Rattle.laws_runs.specs.SimModel.Steps.{step, went, takes, taking};
ghost use Rattle.kernel_phases.specs.KernelState.Kernel.{StandsFor, whole_design};
ghost use Rattle.kernel_phases.specs.KernelState.declared.kernel.Kernel.{Kernel};
ghost use Rattle.exec_control.specs.ExecData.Written.{NamesFit};
ghost use Rattle.exec_events.specs.Numbers.{NumbersEvents};
ghost use Rattle.laws_reached.specs.Reached.{IsReached};

/// A run keeps its design, and a kernel that stands for one of its configurations has the code of that design.
pub fn designs_stay()
    ensures stays { (c : Config) (r : IsReached c) → c.design ≡ r.design }
    ensures steps { (c d : Config) → IsReached c → step c ≡ went d → d.design ≡ c.design }
    ensures takings { (c d : Config) (p : ℕ) → IsReached c → step c ≡ takes → taking c p ≡ Some d → d.design ≡ c.design }
    ensures code { (k : Kernel) (c : Config) → StandsFor k c → (r : IsReached c) → k.program.now.code ≡ r.design.code }
{}

/// The design of a kernel in a run is sound: its names stand for what is there, and its events, if they are few, have numbers.
pub fn reached_designs_are_sound()
    ensures sound { (k : Kernel) (c : Config) → StandsFor k c → IsReached c → SoundDesign (whole_design k) }
    ensures names { (k : Kernel) (c : Config) → StandsFor k c → IsReached c → NamesFit (whole_design k) }
    ensures numbers { (k : Kernel) (c : Config) → StandsFor k c → IsReached c → k.design.events < 2 ^ 32 - 1 → NumbersEvents (whole_design k) }
{}
