//! What is being unwound, in every run of a sound design.
ghost use Rattle.std.specs.Prelude.{◌≡◌, ℕ, Bool, List, Some};
ghost use Rattle.sim_model.specs.FlatDesign.Sound.{SoundDesign};
ghost use Rattle.sim_model.specs.FlatDesign.declared.design.Design.{Design};
ghost use Rattle.sim_model.specs.Configuration.{Config, arena, start};
ghost use Rattle.sim_model.specs.Runs.{after};
ghost use Rattle.sim_model.specs.declared.plain.Command.{Command};
ghost use Rattle.laws_runs.specs.Goals.{CleanGoals};

/// Whatever is chosen, and however control calls are nested, after any number of steps of a run of a sound design: what is
/// left of a body has at most one goal, and that only while its instance is on the stack; below a goal are only statements
/// of unwind blocks, or reached from them; at most one unwind block is begun, and those that are owed lie outside it (IEEE
/// 1666-2011, 5.6.6).
pub fn runs_have_clean_goals()
    ensures { (design : Design) (script : List Command) → SoundDesign design → (steps : ℕ) (choices : List ℕ) (last : Config)
        → after steps choices (start design script) ≡ Some last → CleanGoals (arena last) last.processes }
{}
