//! A reset begins a clocked thread's own statements again before the thread leaves the stack.
ghost use Rattle.std.specs.Prelude.{◌≡◌, ℕ, Bool, true, false, List, ◌∷◌, ◌++◌, Some};
ghost use Rattle.laws_runs.specs.FlatDesign.Sound.{SoundDesign};
ghost use Rattle.laws_runs.specs.FlatDesign.declared.design.Design.{Design};
ghost use Rattle.laws_runs.specs.FlatDesign.Code as code;
ghost use Rattle.laws_runs.specs.FlatDesign.Code.{statement_at};
ghost use Rattle.laws_runs.specs.SimModel.Residual.{Residual, Frame, goal, settle, next_of, statement};
ghost use Rattle.laws_runs.specs.SimModel.Unwinding.{catches};
ghost use Rattle.laws_runs.specs.SimModel.Configuration.{Config, Instance, arena, instance_at, start};
ghost use Rattle.laws_runs.specs.SimModel.Steps.{step, takes, taking};
ghost use Rattle.laws_runs.specs.SimModel.Runs.{after};
ghost use Rattle.laws_runs.specs.SimModel.declared.plain.Command.{Command};
ghost use Rattle.laws_runs.specs.SimModel.declared.plain.Goal.TheVariants as goal_of;
ghost use Rattle.laws_clocked.specs.Ticks.{Test, Tick, HasTick};
ghost use Rattle.laws_clocked.specs.Turns.{IsBehindWait};
ghost use Rattle.laws_clocked.specs.Levels.{NoneAtLevel, IsAtLevel};
ghost use Rattle.laws_clocked.specs.Again.{Around, trying, unwinding, injected_into, StandsAt, BeginsFirst, BeginsUnlessHeldBack};
ghost use Rattle.laws_clocked.specs.Clocked.{HasClocked, AsksTrue};

/// In every run of a sound design, whatever is chosen and whatever other processes do: wherever own statements of a clocked thread
/// are left (`among`), and wherever an exception that its try has caught unwinds them (`unwound`), the variable that its loop asks is
/// true.
pub fn the_loop_would_go_on()
    ensures among { (design : Design) (script : List Command) → SoundDesign design
        → (steps : ℕ) (chosen : List ℕ) (c : Config) → after steps chosen (start design script) ≡ Some c
        → (p : ℕ) (i : Instance) → instance_at c p ≡ Some i → (b : Around) (e : ℕ) (x : Frame) (r : Residual) → HasClocked (arena c) b e x.body
        → settle (arena c) i.residual ≡ trying b x r → AsksTrue b x }
    ensures unwound { (design : Design) (script : List Command) → SoundDesign design
        → (steps : ℕ) (chosen : List ℕ) (c : Config) → after steps chosen (start design script) ≡ Some c
        → (p : ℕ) (i : Instance) → instance_at c p ≡ Some i → (b : Around) (e : ℕ) (x : Frame) (r : Residual) → HasClocked (arena c) b e x.body
        → settle (arena c) i.residual ≡ unwinding b x r → AsksTrue b x }
{}

/// In every run of a sound design, whatever is chosen, whatever other processes do, and whatever the unwind blocks do: where a clocked
/// thread throws the exception of its try among its own statements, and no try in them catches it, these begin again, from the first,
/// before the thread leaves the stack (`thrown`). And where it is taken out of the wait of a tick among them, a reset of the tick is
/// then at its level and none before it, and no try among them catches the exception of that reset, they begin again so too, be it
/// with guards around the tick or without (`at_level`).
pub fn own_statements_begin_again_first()
    ensures thrown { (design : Design) (script : List Command) → SoundDesign design
        → (steps : ℕ) (chosen : List ℕ) (c : Config) → after steps chosen (start design script) ≡ Some c
        → (p : ℕ) (rest : List ℕ) (b : Around) (e s : ℕ) (x : Frame) (r : Residual) → HasClocked (arena c) b e x.body → StandsAt c p rest (trying b x r)
        → next_of r ≡ statement s → statement_at (arena c) s ≡ Some (code.throw e) → catches r e ≡ false
        → BeginsFirst c p b }
    ensures at_level { (design : Design) (script : List Command) → SoundDesign design
        → (steps : ℕ) (chosen : List ℕ) (x : Config) → after steps chosen (start design script) ≡ Some x
        → (p : ℕ) (t : Tick) → HasTick (arena x) t → (w : IsBehindWait x p t) → step x ≡ takes → (d : Config) → taking x p ≡ Some d
        → (before : List Test) (y : Test) (behind : List Test) → t.tests ≡ before ++ y ∷ behind → NoneAtLevel x p before → IsAtLevel x p y
        → (b : Around) (f : Frame) (r : Residual) → HasClocked (arena x) b y.exception f.body → settle (arena x) w.instance.residual ≡ trying b f r → catches r y.exception ≡ false
        → BeginsFirst d p b }
{}

/// In every run of a sound design, whatever is chosen and whatever other processes do: where a reset that was asked for, by another
/// process or by the thread itself, unwinds all of a clocked thread, its own statements begin, from the first, before it leaves the
/// stack, or it is suspended where that has unwound all of it (`reset`); and so it is where an exception that another process throws
/// into the thread, and that its try has caught, unwinds them (`thrown_into`) (IEEE 1666-2011, 5.6.6).
pub fn a_reset_begins_own_statements()
    ensures reset { (design : Design) (script : List Command) → SoundDesign design
        → (steps : ℕ) (chosen : List ℕ) (c : Config) → after steps chosen (start design script) ≡ Some c
        → (p : ℕ) (i : Instance) → instance_at c p ≡ Some i → (b : Around) (e : ℕ) → HasClocked (arena c) b e i.code
        → i.started ≡ true → (r : Residual) → i.residual ≡ goal r goal_of.Restart
        → BeginsUnlessHeldBack c p b }
    ensures thrown_into { (design : Design) (script : List Command) → SoundDesign design
        → (steps : ℕ) (chosen : List ℕ) (c : Config) → after steps chosen (start design script) ≡ Some c
        → (p : ℕ) (i : Instance) → instance_at c p ≡ Some i → (b : Around) (e : ℕ) (x : Frame) (r : Residual) → HasClocked (arena c) b e x.body
        → i.residual ≡ injected_into b x r
        → BeginsUnlessHeldBack c p b }
{}
