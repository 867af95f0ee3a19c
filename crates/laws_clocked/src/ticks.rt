//! How many takings a tick takes, and that no reset is at its level at any of them.
ghost use Rattle.std.specs.Prelude.{◌≡◌, ◌<◌, ◌++◌, ℕ, Bool, List, ◌∷◌, Some};
ghost use Rattle.laws_runs.specs.FlatDesign.Sound.{SoundDesign};
ghost use Rattle.laws_runs.specs.FlatDesign.declared.design.Design.{Design};
ghost use Rattle.laws_runs.specs.SimModel.Configuration.{Config, arena, start};
ghost use Rattle.laws_runs.specs.SimModel.Steps.{step, takes};
ghost use Rattle.laws_runs.specs.SimModel.Runs.{after};
ghost use Rattle.laws_runs.specs.SimModel.Clean.{times};
ghost use Rattle.laws_runs.specs.SimModel.declared.plain.Command.{Command};
ghost use Rattle.laws_clocked.specs.Ticks.{Tick, HasTick};
ghost use Rattle.laws_clocked.specs.Turns.{LeavesNormally};
ghost use Rattle.laws_clocked.specs.Levels.{NoneAtLevel};
ghost use Rattle.laws_clocked.specs.Wakes.{FollowsWake};

/// In every run of a sound design, whatever is chosen and whatever other processes do meanwhile, be it that they suspend the thread,
/// resume it, disable or enable it: between the entering of a tick and where it is left normally its thread is taken exactly as many
/// times as the number of the tick says (`counted`); at none of these takings is a reset of the tick at its level (`levels`); and each
/// of them follows a wake by an event of its static sensitivity since the wait before it (`follows`).
pub fn ticks_take_their_takings()
    ensures counted { (design : Design) (script : List Command) → SoundDesign design
        → (steps : ℕ) (chosen : List ℕ) (c : Config) → after steps chosen (start design script) ≡ Some c
        → (p : ℕ) (t : Tick) → HasTick (arena c) t
        → (n : ℕ) (choices : List ℕ) (e : Config) → LeavesNormally c e p t n choices → times p choices ≡ t.edges }
    ensures levels { (design : Design) (script : List Command) → SoundDesign design
        → (steps : ℕ) (chosen : List ℕ) (c : Config) → after steps chosen (start design script) ≡ Some c
        → (p : ℕ) (t : Tick) → HasTick (arena c) t
        → (n : ℕ) (choices : List ℕ) (e : Config) → LeavesNormally c e p t n choices
        → (k : ℕ) (own left : List ℕ) (x : Config) → k < n → choices ≡ own ++ p ∷ left → after k own c ≡ Some x → step x ≡ takes
        → NoneAtLevel x p t.tests }
    ensures follows { (design : Design) (script : List Command) → SoundDesign design
        → (steps : ℕ) (chosen : List ℕ) (c : Config) → after steps chosen (start design script) ≡ Some c
        → (p : ℕ) (t : Tick) → HasTick (arena c) t
        → (n : ℕ) (choices : List ℕ) (e : Config) → LeavesNormally c e p t n choices
        → (k : ℕ) (own left : List ℕ) (x : Config) → k < n → choices ≡ own ++ p ∷ left → after k own c ≡ Some x → step x ≡ takes
        → FollowsWake c p k own x }
{}
