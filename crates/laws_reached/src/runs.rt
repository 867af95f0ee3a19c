//! How a run goes on.
ghost use Rattle.std.specs.Prelude.{◌≡◌, ℕ, List, [], ◌∷◌, Some, false};
ghost use Rattle.flat_design.specs.Sound.{SoundDesign};
ghost use Rattle.flat_design.specs.declared.design.Design.{Design};
ghost use Rattle.laws_runs.specs.SimModel.Configuration.{Config, start};
ghost use Rattle.laws_runs.specs.SimModel.Steps.{step, went, takes, taking};
ghost use Rattle.laws_runs.specs.SimModel.declared.plain.Command.{Command};
ghost use Rattle.laws_reached.specs.Reached.{IsReached, GoesOn};

/// A run of a sound design comes to the configuration before the first command by no step.
pub fn runs_begin()
    ensures { (design : Design) (script : List Command) → SoundDesign design
        → (r : IsReached (start design script)) × (r.design ≡ design) × (r.script ≡ script) × (r.steps ≡ 0) × (r.choices ≡ []) }
{}

/// From a configuration to which a run comes it comes to the next one, by a step or by the taking of a process.
pub fn runs_go_on()
    ensures steps { (c d : Config) → IsReached c → step c ≡ went d → IsReached d }
    ensures takings { (c d : Config) (p : ℕ) → IsReached c → step c ≡ takes → taking c p ≡ Some d → IsReached d }
    ensures one_step { (c d : Config) (r : IsReached c) → step c ≡ went d → GoesOn c d r [] }
    ensures one_taking { (c d : Config) (p : ℕ) (r : IsReached c) → step c ≡ takes → taking c p ≡ Some d → GoesOn c d r (p ∷ []) }
{}
