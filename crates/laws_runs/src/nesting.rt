//! The marks of guards, in every run of a sound design.
ghost use Rattle.std.specs.Prelude.{◌≡◌, ℕ, Bool, List, [], slice_get, Some};
ghost use Rattle.sim_model.specs.FlatDesign.Sound.{SoundDesign};
ghost use Rattle.sim_model.specs.FlatDesign.declared.design.Design.{Design};
ghost use Rattle.sim_model.specs.Configuration.{Config, start};
ghost use Rattle.sim_model.specs.Runs.{after};
ghost use Rattle.sim_model.specs.declared.plain.Command.{Command};
ghost use Rattle.laws_runs.specs.Nesting.{after_marks, parts_at, numbers_entered, first_numbers};

/// Whatever is chosen, and however control calls are nested, after any number of steps of a run of a sound design: the marks
/// of each instance are nested as brackets are, so that it leaves a guard, and runs its unwind block, only where that guard
/// is the innermost that is open; what they leave open are the guards of what is left of its body, each with whether its
/// unwind block has begun. And guards are entered with the numbers 0, 1, 2 and so on, each once (IEEE 1666-2011, 5.6.6).
pub fn marks_are_nested()
    ensures nested { (design : Design) (script : List Command) → SoundDesign design
        → (steps : ℕ) (choices : List ℕ) (last : Config) → after steps choices (start design script) ≡ Some last
        → (p : ℕ) → after_marks p last.trace.marks [] ≡ Some (parts_at (slice_get last.processes.instances p)) }
    ensures numbers { (design : Design) (script : List Command) → SoundDesign design
        → (steps : ℕ) (choices : List ℕ) (last : Config) → after steps choices (start design script) ≡ Some last
        → numbers_entered last.trace.marks ≡ first_numbers last.trace.next_guard }
{}
