//! Turns in the runs of a design that keeps the rule on the order of processes.
ghost use Rattle.std.specs.Prelude.{◌≡◌, ◌⊎◌, ℕ, suc, List, [], ◌∷◌, Some};
ghost use Rattle.sim_model.specs.FlatDesign.declared.design.Design.{Design};
ghost use Rattle.sim_model.specs.Configuration.{Config, start};
ghost use Rattle.sim_model.specs.Waits.{without};
ghost use Rattle.sim_model.specs.Steps.{step, takes, taking};
ghost use Rattle.sim_model.specs.Runs.{after};
ghost use Rattle.sim_model.specs.declared.plain.Command.{Command};
ghost use Rattle.order_free.specs.Free.{Uses, Free};
ghost use Rattle.laws_order.specs.Turns.{TakesTurn};
ghost use Rattle.laws_order.specs.Turned.{IsInTurn, HasTurned};

/// Where a run takes a process, it goes on by the turn of that process, each step of which is its own: either the process is still alone on
/// the stack, and nobody else was taken; or it made its turn, and the run went on from there.
pub fn runs_take_turns()
    ensures { (d : Design) (script : List Command) → Free d → (n : ℕ) (choices : List ℕ) (c : Config) → after n choices (start d script) ≡ Some c → step c ≡ takes
        → (p : ℕ) (b : Config) → taking c p ≡ Some b → (m : ℕ) (more : List ℕ) (e : Config) → after m more b ≡ Some e
        → IsInTurn p b more e ⊎ HasTurned d p c m more e }
{}

/// And the other way about: where a run takes a process, and that makes a turn, the turn is the run's.
pub fn turns_are_runs()
    ensures { (d : Design) (script : List Command) → Free d → (n : ℕ) (choices : List ℕ) (c : Config) → after n choices (start d script) ≡ Some c → step c ≡ takes
        → (p m : ℕ) (e : Config) → TakesTurn (Uses d p) p m c e → after (suc m) (p ∷ []) c ≡ Some e }
{}

/// A turn in a run makes nobody runnable: behind it those are that were before, but for the one that took it; and the phase and the time
/// are what they were.
pub fn turns_wake_nobody()
    ensures { (d : Design) (script : List Command) → Free d → (n : ℕ) (choices : List ℕ) (c : Config) → after n choices (start d script) ≡ Some c → step c ≡ takes
        → (p m : ℕ) (e : Config) → TakesTurn (Uses d p) p m c e
        → (e.processes.runnable ≡ without c.processes.runnable p) × (e.cycle ≡ c.cycle) }
{}
