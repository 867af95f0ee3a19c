//! What a reset at its level does, and what a reset does, once it has unwound all.
ghost use Rattle.std.specs.Prelude.{◌≡◌, ℕ, suc, false, List, ◌∷◌, ◌++◌, length, Some};
ghost use Rattle.laws_runs.specs.FlatDesign.Sound.{SoundDesign};
ghost use Rattle.laws_runs.specs.FlatDesign.declared.design.Design.{Design};
ghost use Rattle.laws_runs.specs.SimModel.Residual.{settle, next_of, reaches};
ghost use Rattle.laws_runs.specs.SimModel.Configuration.{Config, Instance, arena, instance_at, start};
ghost use Rattle.laws_runs.specs.SimModel.Steps.{step, takes, taking};
ghost use Rattle.laws_runs.specs.SimModel.Runs.{after};
ghost use Rattle.laws_runs.specs.SimModel.declared.plain.Command.{Command};
ghost use Rattle.laws_runs.specs.SimModel.declared.plain.Goal.TheVariants as goal_of;
ghost use Rattle.laws_clocked.specs.Ticks.{Test, Tick, HasTick};
ghost use Rattle.laws_clocked.specs.Turns.{IsBehindWait};
ghost use Rattle.laws_clocked.specs.Levels.{NoneAtLevel, IsAtLevel};
ghost use Rattle.laws_clocked.specs.Resets.{BeginsAnew, ThrowsAfter};

/// Where a reset has unwound all of an instance that is not suspended, its next step begins its body anew, from its start and with
/// its first arguments, and it stays where it is on the stack (IEEE 1666-2011, 5.6.6).
pub fn a_reset_begins_anew()
    ensures { (c : Config) (p : ℕ) (i : Instance) → instance_at c p ≡ Some i → next_of (settle (arena c) i.residual) ≡ reaches goal_of.Restart → i.suspended ≡ false
        → BeginsAnew c p i }
{}

/// In every run of a sound design: where a thread is taken out of the wait of a tick, and a reset of the tick is then at its level, and
/// none before it, the thread goes on alone: the tests of those before it are asked, and its own; and the step after that throws the
/// exception of the reset.
pub fn a_reset_at_its_level_throws()
    ensures { (design : Design) (script : List Command) → SoundDesign design
        → (steps : ℕ) (chosen : List ℕ) (x : Config) → after steps chosen (start design script) ≡ Some x
        → (p : ℕ) (t : Tick) → HasTick (arena x) t → IsBehindWait x p t → step x ≡ takes → (d : Config) → taking x p ≡ Some d
        → (before : List Test) (y : Test) (behind : List Test) → t.tests ≡ before ++ y ∷ behind → NoneAtLevel x p before → IsAtLevel x p y
        → ThrowsAfter d p (suc (length before)) y }
{}
