//! A guard that was left.
ghost use Rattle.std.specs.Prelude.{◌≡◌, ℕ, Bool, List, ◌∷◌, ◌++◌, Some};
ghost use Rattle.sim_model.specs.FlatDesign.Sound.{SoundDesign};
ghost use Rattle.sim_model.specs.FlatDesign.declared.design.Design.{Design};
ghost use Rattle.sim_model.specs.Residual.{Mark, leave, begin};
ghost use Rattle.sim_model.specs.Configuration.{Config, start};
ghost use Rattle.sim_model.specs.Runs.{after};
ghost use Rattle.sim_model.specs.declared.plain.Command.{Command};

/// In every run of a sound design a guard that was left, at its end or by a return, has its unwind block begun neither before
/// nor ever after, by whichever instance (IEEE 1666-2011, 5.6.6).
pub fn a_guard_that_was_left_never_runs_its_unwind_block()
    ensures { (design : Design) (script : List Command) → SoundDesign design
        → (n : ℕ) (choices : List ℕ) (c : Config) → after n choices (start design script) ≡ Some c
        → (p g : ℕ) (before behind : List Mark) → c.trace.marks ≡ before ++ leave p g ∷ behind
        → (m : ℕ) (more : List ℕ) (e : Config) → after m more c ≡ Some e
        → (q : ℕ) (earlier later : List Mark) → e.trace.marks ≡ earlier ++ begin q g ∷ later → ⊥ }
{}
