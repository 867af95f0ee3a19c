//! What each step makes of the stack of the active instances.
ghost use Rattle.std.specs.Prelude.{◌≡◌, ℕ, Bool, List, [], Some};
ghost use Rattle.sim_model.specs.FlatDesign.Sound.{SoundDesign};
ghost use Rattle.sim_model.specs.FlatDesign.declared.design.Design.{Design};
ghost use Rattle.sim_model.specs.Configuration.{Config, start};
ghost use Rattle.sim_model.specs.Steps.{step, went, takes, taking};
ghost use Rattle.sim_model.specs.Runs.{after};
ghost use Rattle.sim_model.specs.declared.plain.Command.{Command};
ghost use Rattle.laws_runs.specs.Stacks.{OnlyTopMoves};

/// In every run of a sound design a step moves only the top of the stack: what is below it stays, in its order, until it is on
/// top again. So who makes a control call makes its next step when all that came on top of it has left (IEEE 1666-2011,
/// 5.6.6). A process is taken only where the stack is empty.
pub fn steps_move_only_the_top()
    ensures steps { (design : Design) (script : List Command) → SoundDesign design
        → (n : ℕ) (choices : List ℕ) (c d : Config) → after n choices (start design script) ≡ Some c → step c ≡ went d
        → OnlyTopMoves c.processes.stack d.processes.stack }
    ensures takings { (c : Config) → step c ≡ takes → c.processes.stack ≡ [] }
{}
