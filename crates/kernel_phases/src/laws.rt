ghost use Rattle.std.specs.Prelude.{◌≡◌, ◌≤◌, ℕ, List, IsSomeAnd, true};
ghost use Rattle.std.specs.Ordering.{nat_cmp};
ghost use Rattle.std.specs.FinSet as set;
ghost use Rattle.kernel_state.specs.ReadySet.Ready.{rising};
ghost use Rattle.kernel_state.specs.SimModel.Clean.{times};
ghost use Rattle.kernel_state.specs.SimModel.Waits.{holds};
ghost use Rattle.kernel_state.specs.SimModel.Runs.{Chooser, picked};
ghost use Rattle.kernel_phases.specs.Own.{ChoosesItself};

/// What is picked from a runnable list without doubles does not depend on its order: it is what is picked from the
/// rising order of the set of its members.
pub fn picked_in_any_order()
    ensures { (k : Chooser) (s : set.FinSet nat_cmp) (runnable : List ℕ) → ((q : ℕ) → set.contains s q ≡ holds runnable q) → ((q : ℕ) → times q runnable ≤ 1) → picked k runnable ≡ picked k (rising s) }
{}

/// Where something is runnable, every rule but a replayed list picks a serial that is.
pub fn what_is_picked_is_runnable()
    ensures { (k : Chooser) (s : set.FinSet nat_cmp) (r : ℕ) → ChoosesItself k → set.contains s r ≡ true → IsSomeAnd (picked k (rising s)) (λ p. set.contains s p ≡ true) }
{}
