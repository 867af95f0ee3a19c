//! Laws on the steps of a run.
ghost use Rattle.std.specs.Prelude.{◌≡◌, ◌<◌, ◌+◌, ◌++◌, ℕ, suc, List, [], length, Some, None};
ghost use Rattle.sim_model.specs.Configuration.{Config};
ghost use Rattle.sim_model.specs.Runs.{after, Ruled, stop_of};
ghost use Rattle.sim_model.specs.declared.plain.Rule.{Rule};

/// A step looks at no choice but its own: n steps and then m are n + m steps with the choices of both, and the other way
/// about; and n steps use just so many choices.
pub fn runs_split()
    ensures joined { (n m : ℕ) (own left : List ℕ) (first middle : Config) → after n own first ≡ Some middle
        → after (n + m) (own ++ left) first ≡ after m left middle }
    ensures parted { (n m : ℕ) (choices : List ℕ) (first last : Config) → after (n + m) choices first ≡ Some last
        → (own : List ℕ) × (left : List ℕ) × (middle : Config) × (choices ≡ own ++ left) × (after n own first ≡ Some middle) × (after m left middle ≡ Some last) }
    ensures own { (n : ℕ) (own left : List ℕ) (first middle last : Config) → after n own first ≡ Some middle → after n (own ++ left) first ≡ Some last
        → left ≡ [] }
{}

/// A run by a rule of choices that goes on past n steps, fewer than the budget, had no end there: so a session that is a
/// run ends at its first named cause or at the budget, and nowhere else. The choices of its first n steps are a front of
/// all its choices.
pub fn no_earlier_end()
    ensures { (rule : Rule) (n more budget : ℕ) (choices : List ℕ) (first last : Config) → after (n + suc more) choices first ≡ Some last
        → Ruled rule (n + suc more) choices first → n < budget
        → (c : Config) × (used : List ℕ) × (left : List ℕ) × (choices ≡ used ++ left) × (after n used first ≡ Some c) × (stop_of c rule (length used) n budget ≡ None) }
{}
