//! How the exception of a reset begins a clocked thread's own statements again.
ghost use Rattle.std.specs.Prelude.{◌≡◌, ◌+◌, ℕ, suc, Bool, true, false, List, [], ◌∷◌, ◌++◌, length, slice_get, Some};
ghost use Rattle.laws_runs.specs.LogicValues.declared.kinds.Value.{Value};
ghost use Rattle.laws_runs.specs.FlatDesign.Sound.{SoundDesign};
ghost use Rattle.laws_runs.specs.FlatDesign.declared.design.Design.{Design};
ghost use Rattle.laws_runs.specs.FlatDesign.Code as code;
ghost use Rattle.laws_runs.specs.FlatDesign.Code.{statement_at};
ghost use Rattle.laws_runs.specs.SimModel.Values.{truth};
ghost use Rattle.laws_runs.specs.SimModel.Residual.{Residual, Frame, skip, settle, next_of, statement};
ghost use Rattle.laws_runs.specs.SimModel.Unwinding.{unw, catches};
ghost use Rattle.laws_runs.specs.SimModel.Configuration.{Config, arena, start};
ghost use Rattle.laws_runs.specs.SimModel.Steps.{step, takes, taking};
ghost use Rattle.laws_runs.specs.SimModel.Runs.{after};
ghost use Rattle.laws_runs.specs.SimModel.declared.plain.Command.{Command};
ghost use Rattle.laws_clocked.specs.Ticks.{Test, Tick, HasTick, left_at, checking};
ghost use Rattle.laws_clocked.specs.Turns.{IsBehindWait};
ghost use Rattle.laws_clocked.specs.Levels.{NoneAtLevel, IsAtLevel};
ghost use Rattle.laws_clocked.specs.Clocked.{HasClocked};
ghost use Rattle.laws_clocked.specs.Again.{Around, HasAround, trying, unwinding, IsPlain, StandsAt, IsCaught, BeginsAgain, Unwinds};

/// An exception that a clocked thread throws among its own statements, and that no try in them catches, comes to the try around them:
/// that step unwinds them, so that their unwind blocks are left of them and nothing else, and the thread stays on top of the stack
/// (`thrown`). Where they are unwound, the thread's own statements begin again, by three steps, the end of the unwinding, the test of
/// the loop and the try: with the fourth, the first of them is carried out, and the thread was on top of the stack all along (`unwound`).
pub fn a_caught_exception_begins_again()
    ensures thrown { (c : Config) (p : ℕ) (rest : List ℕ) (b : Around) (e s : ℕ) → HasAround (arena c) b e → (x : Frame) (r : Residual) → StandsAt c p rest (trying b x r)
        → next_of r ≡ statement s → statement_at (arena c) s ≡ Some (code.throw e) → catches r e ≡ false
        → IsCaught c p rest b x (settle (arena c) (unw r)) }
    ensures unwound { (c : Config) (p : ℕ) (rest : List ℕ) (b : Around) (e : ℕ) → HasAround (arena c) b e → (x : Frame) → StandsAt c p rest (unwinding b x skip)
        → (v : Value) → slice_get x.locals b.again ≡ Some v → truth v ≡ true
        → BeginsAgain c p rest b x 3 }
{}

/// In every run of a sound design, whatever is chosen, and whatever the unwind blocks do: behind the step that throws an exception
/// among a clocked thread's own statements, which no try in them catches, these are unwound with the thread on the stack, until that
/// is over and the next step is its own. From there on they begin again, as above.
pub fn an_unwinding_goes_on()
    ensures { (design : Design) (script : List Command) → SoundDesign design
        → (steps : ℕ) (chosen : List ℕ) (c : Config) → after steps chosen (start design script) ≡ Some c
        → (p : ℕ) (rest : List ℕ) (b : Around) (e s : ℕ) → HasAround (arena c) b e → (x : Frame) (r : Residual) → StandsAt c p rest (trying b x r)
        → next_of r ≡ statement s → statement_at (arena c) s ≡ Some (code.throw e) → catches r e ≡ false
        → (n : ℕ) (choices : List ℕ) (d : Config) → after (suc n) choices c ≡ Some d → Unwinds c d p b (suc n) choices }
{}

/// In every run of a sound design: where a thread is taken out of the wait of a tick, a reset of the tick is then at its level and
/// none before it, and the tick stands among a clocked thread's own statements with no guard around it and no try that catches the
/// exception of the reset, these begin again: by the tests up to that of the reset, the throw and three more steps, the first of them
/// comes next, and the thread was alone on the stack all along.
pub fn a_reset_at_its_level_begins_again()
    ensures { (design : Design) (script : List Command) → SoundDesign design
        → (steps : ℕ) (chosen : List ℕ) (x : Config) → after steps chosen (start design script) ≡ Some x
        → (p : ℕ) (t : Tick) → HasTick (arena x) t → (w : IsBehindWait x p t) → step x ≡ takes → (d : Config) → taking x p ≡ Some d
        → (before : List Test) (y : Test) (behind : List Test) → t.tests ≡ before ++ y ∷ behind → NoneAtLevel x p before → IsAtLevel x p y
        → (b : Around) (f : Frame) (r : Residual) → HasClocked (arena x) b y.exception f.body → settle (arena x) w.instance.residual ≡ trying b f r → IsPlain y.exception (left_at t (checking t.tests)) r
        → BeginsAgain d p [] b f (length before + 5) }
{}
