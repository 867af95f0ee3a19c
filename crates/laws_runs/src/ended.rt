//! An instance that has ended.
ghost use Rattle.std.specs.Prelude.{◌≡◌, ℕ, Bool, List, ◌∷◌, Some};
ghost use Rattle.sim_model.specs.FlatDesign.Sound.{SoundDesign};
ghost use Rattle.sim_model.specs.FlatDesign.declared.design.Design.{Design};
ghost use Rattle.sim_model.specs.Configuration.{Config, start};
ghost use Rattle.sim_model.specs.Steps.{taking};
ghost use Rattle.sim_model.specs.Runs.{after};
ghost use Rattle.sim_model.specs.declared.plain.Command.{Command};
ghost use Rattle.laws_runs.specs.Nowhere.{IsNamedNowhere, HasEnded};

/// In every run of a sound design an instance that has ended stays ended (`stays`): it is never taken again (`taken`), and no
/// statement of it is ever carried out (`steps`), however long the run goes on (IEEE 1666-2011, 5.6.6).
pub fn what_has_ended_never_runs_again()
    ensures stays { (design : Design) (script : List Command) → SoundDesign design
        → (n : ℕ) (choices : List ℕ) (c : Config) → after n choices (start design script) ≡ Some c → (q : ℕ) → HasEnded c q
        → (m : ℕ) (more : List ℕ) (e : Config) → after m more c ≡ Some e → HasEnded e q }
    ensures taken { (design : Design) (script : List Command) → SoundDesign design
        → (n : ℕ) (choices : List ℕ) (c : Config) → after n choices (start design script) ≡ Some c → (q : ℕ) → HasEnded c q
        → (m : ℕ) (more : List ℕ) (e next : Config) → after m more c ≡ Some e → taking e q ≡ Some next → ⊥ }
    ensures steps { (design : Design) (script : List Command) → SoundDesign design
        → (n : ℕ) (choices : List ℕ) (c : Config) → after n choices (start design script) ≡ Some c → (q : ℕ) → HasEnded c q
        → (m : ℕ) (more : List ℕ) (e : Config) (rest : List ℕ) → after m more c ≡ Some e → e.processes.stack ≡ q ∷ rest → ⊥ }
{}

/// In every run nothing names an instance that has ended: it is neither runnable nor active, no event reaches it, no wake has
/// an effect on it, and no timer stands for it. (What asks for an update is a channel, never an instance.)
pub fn nothing_names_what_has_ended()
    ensures { (design : Design) (script : List Command) (n : ℕ) (choices : List ℕ) (c : Config) → after n choices (start design script) ≡ Some c
        → (q : ℕ) → HasEnded c q → IsNamedNowhere c q }
{}
