//! Where no try among a clocked thread's own statements catches an exception, by its code alone.
ghost use Rattle.std.specs.Prelude.{◌≡◌, ℕ, Bool, false, List, ◌∷◌, ◌++◌, Some, None};
ghost use Rattle.laws_runs.specs.FlatDesign.Sound.{SoundDesign};
ghost use Rattle.laws_runs.specs.FlatDesign.declared.design.Design.{Design};
ghost use Rattle.laws_runs.specs.FlatDesign.Code as code;
ghost use Rattle.laws_runs.specs.FlatDesign.Code.{statement_at};
ghost use Rattle.laws_runs.specs.SimModel.Residual.{Residual, Frame, settle, next_of, statement, innermost};
ghost use Rattle.laws_runs.specs.SimModel.Unwinding.{catches};
ghost use Rattle.laws_runs.specs.SimModel.Configuration.{Config, Instance, arena, instance_at, start};
ghost use Rattle.laws_runs.specs.SimModel.Steps.{step, takes, taking};
ghost use Rattle.laws_runs.specs.SimModel.Runs.{after};
ghost use Rattle.laws_runs.specs.SimModel.declared.plain.Command.{Command};
ghost use Rattle.laws_clocked.specs.Ticks.{Test, Tick, HasTick, IsInNoFunction};
ghost use Rattle.laws_clocked.specs.Turns.{IsBehindWait};
ghost use Rattle.laws_clocked.specs.Levels.{NoneAtLevel, IsAtLevel};
ghost use Rattle.laws_clocked.specs.Again.{Around, trying, StandsAt, BeginsFirst};
ghost use Rattle.laws_clocked.specs.Clocked.{HasClocked, UncaughtIn};

/// In every run of a sound design, whatever is chosen and whatever other processes do: wherever own statements of a clocked thread are
/// left, no call is open in them, and by the code no try among them has a handler for an exception, no try around what is left of them
/// catches it.
pub fn no_try_of_its_own_catches()
    ensures { (design : Design) (script : List Command) → SoundDesign design
        → (steps : ℕ) (chosen : List ℕ) (c : Config) → after steps chosen (start design script) ≡ Some c
        → (p : ℕ) (i : Instance) → instance_at c p ≡ Some i → (b : Around) (e : ℕ) (x : Frame) (r : Residual) → HasClocked (arena c) b e x.body
        → settle (arena c) i.residual ≡ trying b x r → innermost r ≡ None
        → (n : ℕ) → UncaughtIn (arena c) b n → catches r n ≡ false }
{}

/// In every run of a sound design, whatever is chosen and whatever other processes do: wherever a thread with the try of a clocked one
/// is behind the wait of a tick among its own statements, and no function's body has the tick, no call is open in them.
pub fn no_call_is_open_behind_the_wait_of_a_tick()
    ensures { (design : Design) (script : List Command) → SoundDesign design
        → (steps : ℕ) (chosen : List ℕ) (c : Config) → after steps chosen (start design script) ≡ Some c
        → (p : ℕ) (t : Tick) → HasTick (arena c) t → IsInNoFunction (arena c) t → (w : IsBehindWait c p t)
        → (b : Around) (x : Frame) (r : Residual) → settle (arena c) w.instance.residual ≡ trying b x r
        → innermost r ≡ None }
{}

/// In every run of a sound design, whatever is chosen, whatever other processes do, and whatever the unwind blocks do: where by the code
/// no try among a clocked thread's own statements has a handler for the exception of its try, and it throws that among them, with no
/// call open, these begin again, from the first, before the thread leaves the stack (`thrown`). And where it is taken out of the wait of
/// a tick among them, which no function's body has, a reset of the tick is then at its level and none before it, and the exception of
/// that reset is the one of its try, they begin again so too (`at_level`).
pub fn own_statements_begin_again_by_the_code()
    ensures thrown { (design : Design) (script : List Command) → SoundDesign design
        → (steps : ℕ) (chosen : List ℕ) (c : Config) → after steps chosen (start design script) ≡ Some c
        → (p : ℕ) (rest : List ℕ) (b : Around) (e s : ℕ) (x : Frame) (r : Residual) → HasClocked (arena c) b e x.body → UncaughtIn (arena c) b e
        → StandsAt c p rest (trying b x r) → innermost r ≡ None → next_of r ≡ statement s → statement_at (arena c) s ≡ Some (code.throw e)
        → BeginsFirst c p b }
    ensures at_level { (design : Design) (script : List Command) → SoundDesign design
        → (steps : ℕ) (chosen : List ℕ) (x : Config) → after steps chosen (start design script) ≡ Some x
        → (p : ℕ) (t : Tick) → HasTick (arena x) t → IsInNoFunction (arena x) t → (w : IsBehindWait x p t) → step x ≡ takes → (d : Config) → taking x p ≡ Some d
        → (before : List Test) (y : Test) (behind : List Test) → t.tests ≡ before ++ y ∷ behind → NoneAtLevel x p before → IsAtLevel x p y
        → (b : Around) (f : Frame) (r : Residual) → HasClocked (arena x) b y.exception f.body → UncaughtIn (arena x) b y.exception
        → settle (arena x) w.instance.residual ≡ trying b f r
        → BeginsFirst d p b }
{}
