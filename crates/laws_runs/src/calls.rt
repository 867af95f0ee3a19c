//! Kills, resets and exceptions unwind all that was entered.
ghost use Rattle.std.specs.Prelude.{◌≡◌, ℕ, Bool, true, false, List, Some};
ghost use Rattle.sim_model.specs.ModelTree.declared.statements.Control.TheVariants as control;
ghost use Rattle.sim_model.specs.FlatDesign.Sound.{SoundDesign};
ghost use Rattle.sim_model.specs.FlatDesign.declared.design.Design.{Design};
ghost use Rattle.sim_model.specs.Residual.{Residual};
ghost use Rattle.sim_model.specs.Unwinding.{catches};
ghost use Rattle.sim_model.specs.Configuration.{Config, Instance, instance_at, start};
ghost use Rattle.sim_model.specs.Runs.{after};
ghost use Rattle.sim_model.specs.Clean.{open_guards};
ghost use Rattle.sim_model.specs.declared.plain.Command.{Command};
ghost use Rattle.laws_runs.specs.Once.{guards_below};
ghost use Rattle.laws_runs.specs.Throws.{guards_in_try};
ghost use Rattle.laws_runs.specs.UnwindingCalls.{Controls, Throws, MayBeUnwound, UnwindsOnTop, has_outer_goal};

/// In every run of a sound design a kill and a reset, of another instance or of the caller itself, alone or in the step of a call
/// that reaches descendants in which it is made for this instance, begin an unwinding of all guards that the target has entered and
/// not left, by the marks of the run (`kill`, `reset`); and an exception that some try of the target catches begins one of all guards
/// inside the innermost try that names it, and of no others, be it thrown by the instance itself or at another, alone or as one of
/// several (`throw`). The target lives, is not below the top of the stack, and is not being unwound; it is on top of the stack then
/// (IEEE 1666-2011, 5.6.6).
pub fn calls_unwind_what_is_entered()
    ensures kill { (design : Design) (script : List Command) → SoundDesign design
        → (n : ℕ) (choices : List ℕ) (c : Config) → after n choices (start design script) ≡ Some c
        → (p q : ℕ) → Controls c control.Kill p q → MayBeUnwound c q → (d : Config) × UnwindsOnTop c d q (open_guards q d.trace.marks) }
    ensures reset { (design : Design) (script : List Command) → SoundDesign design
        → (n : ℕ) (choices : List ℕ) (c : Config) → after n choices (start design script) ≡ Some c
        → (p q : ℕ) → Controls c control.Reset p q → MayBeUnwound c q → (d : Config) × UnwindsOnTop c d q (open_guards q d.trace.marks) }
    ensures throw { (design : Design) (script : List Command) → SoundDesign design
        → (n : ℕ) (choices : List ℕ) (c : Config) → after n choices (start design script) ≡ Some c
        → (e q : ℕ) (r : Residual) → Throws c e q r → catches r e ≡ true → MayBeUnwound c q → (d : Config) × UnwindsOnTop c d q (guards_in_try r e) }
{}

/// In every run of a sound design, while an instance is unwound to its end or to its new beginning, all guards that it has
/// entered and not left are below that goal, by the marks of the run: none stands outside it, wherever the goal is
/// (IEEE 1666-2011, 5.6.6).
pub fn all_guards_stand_below_an_end()
    ensures { (design : Design) (script : List Command) → SoundDesign design
        → (n : ℕ) (choices : List ℕ) (c : Config) → after n choices (start design script) ≡ Some c
        → (q : ℕ) (i : Instance) → instance_at c q ≡ Some i → has_outer_goal i.residual ≡ true → guards_below i.residual ≡ open_guards q c.trace.marks }
{}
