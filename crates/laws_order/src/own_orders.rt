//! The order of turns in an evaluation phase of a design that keeps the rule on the order of processes.
ghost use Rattle.std.specs.Prelude.{◌≡◌, ℕ, List, [], Some, IsPermutation};
ghost use Rattle.sim_model.specs.FlatDesign.declared.design.Design.{Design};
ghost use Rattle.sim_model.specs.Configuration.{Config, start};
ghost use Rattle.sim_model.specs.Runs.{after};
ghost use Rattle.sim_model.specs.declared.plain.Phase.TheVariants as phase;
ghost use Rattle.sim_model.specs.declared.plain.Command.{Command};
ghost use Rattle.order_free.specs.Free.{Free};
ghost use Rattle.laws_order.specs.LeftAlike.{AreLeftAlike};
ghost use Rattle.laws_order.specs.Evaluated.{TurnOf, TakesTurns, serials_of, steps_of, HasEvaluated};

use crate::{turns_go_in_either_order, turns_leave_alike};

/// The turns of an evaluation phase may be taken in any order: each process has its turn, with as many steps in all, and all is left alike
/// but for the drivers of resolved signals.
pub fn turns_of_a_phase_go_in_any_order()
    ensures { (d : Design) (script : List Command) → Free d → (n : ℕ) (choices : List ℕ) (c : Config) → after n choices (start d script) ≡ Some c
        → c.cycle.phase ≡ phase.Evaluate → c.processes.stack ≡ [] → (ts : List TurnOf) (e : Config) → TakesTurns d ts c e
        → (ps : List ℕ) → IsPermutation (serials_of ts) ps
        → (us : List TurnOf) × (y : Config) × (serials_of us ≡ ps) × (steps_of us ≡ steps_of ts) × TakesTurns d us c y × AreLeftAlike e y }
{
    turns_go_in_either_order();
    turns_leave_alike();
}

/// So two evaluation phases that begin alike, in runs under whichever scripts and choices, take as many steps and end alike, where both
/// runs are through with them.
pub fn evaluation_phases_leave_alike()
    ensures { (d : Design) (script : List Command) → Free d → (n : ℕ) (choices : List ℕ) (c : Config) → after n choices (start d script) ≡ Some c
        → c.cycle.phase ≡ phase.Evaluate → c.processes.stack ≡ [] → (other : List Command) (m : ℕ) (more : List ℕ) (x : Config) → after m more (start d other) ≡ Some x
        → AreLeftAlike c x → (k : ℕ) (own : List ℕ) (e : Config) (one_ : HasEvaluated d c k own e) (l : ℕ) (others : List ℕ) (y : Config) (two : HasEvaluated d x l others y)
        → (steps_of two.turns ≡ steps_of one_.turns) × AreLeftAlike one_.turned two.turned }
{
    turns_go_in_either_order();
    turns_leave_alike();
}
