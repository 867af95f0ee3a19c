//! Evaluation phases in the runs of a design that keeps the rule on the order of processes.
ghost use Rattle.std.specs.Prelude.{◌≡◌, ◌⊎◌, ℕ, List, [], Some};
ghost use Rattle.sim_model.specs.FlatDesign.declared.design.Design.{Design};
ghost use Rattle.sim_model.specs.Configuration.{Config, start};
ghost use Rattle.sim_model.specs.Runs.{after};
ghost use Rattle.sim_model.specs.declared.plain.Phase.TheVariants as phase;
ghost use Rattle.sim_model.specs.declared.plain.Command.{Command};
ghost use Rattle.order_free.specs.Free.{Free};
ghost use Rattle.laws_order.specs.Evaluated.{TurnOf, TakesTurns, serials_of, steps_of, HasEvaluated};

/// An evaluation phase is a list of turns: where a run comes to one, with nobody on the stack, and goes on, it is in an evaluation phase
/// at that time still, or it was through with it by one turn of each of those who were runnable, in the order in which they were chosen;
/// each step of a turn is of the one whose turn it is (IEEE 1666-2011, 4.2.1.2).
pub fn evaluation_phases_are_turns()
    ensures { (d : Design) (script : List Command) → Free d → (n : ℕ) (choices : List ℕ) (c : Config) → after n choices (start d script) ≡ Some c
        → c.cycle.phase ≡ phase.Evaluate → c.processes.stack ≡ [] → (m : ℕ) (more : List ℕ) (e : Config) → after m more c ≡ Some e
        → (e.cycle ≡ c.cycle) ⊎ HasEvaluated d c m more e }
{}

/// And the other way about: turns that follow one another from there, in whichever order, are what the run comes to by these choices.
pub fn turns_of_a_phase_are_a_run()
    ensures { (d : Design) (script : List Command) → Free d → (n : ℕ) (choices : List ℕ) (c : Config) → after n choices (start d script) ≡ Some c
        → c.cycle.phase ≡ phase.Evaluate → c.processes.stack ≡ [] → (ts : List TurnOf) (e : Config) → TakesTurns d ts c e
        → after (steps_of ts) (serials_of ts) c ≡ Some e }
{}
