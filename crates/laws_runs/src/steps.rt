//! Steps and takings are made of moves.
ghost use Rattle.std.specs.Prelude.{◌≡◌, ℕ, Option, Some};
ghost use Rattle.sim_model.specs.Configuration.{Config};
ghost use Rattle.sim_model.specs.Steps.{step, went, takes, taking};
ghost use Rattle.laws_runs.specs.Moves.{Moves, StepMoves, TakingMoves};

/// What leads by moves from one configuration to another, and on from there, leads from the first to the last.
pub fn moves_go_on()
    ensures { (who : Option ℕ) (c d e : Config) → Moves who c d → Moves who d e → Moves who c e }
{}

/// Each step that goes on, be it a statement, a control call, the end of a call or of a body, a phase of the scheduler or a
/// command of the script, is made of moves (IEEE 1666-2011, 4.2.1).
pub fn steps_are_moves()
    ensures { (c d : Config) → step c ≡ went d → StepMoves c d }
{}

/// The taking of a process, where one comes next, is made of moves.
pub fn takings_are_moves()
    ensures { (c d : Config) (p : ℕ) → step c ≡ takes → taking c p ≡ Some d → TakingMoves c p d }
{}
