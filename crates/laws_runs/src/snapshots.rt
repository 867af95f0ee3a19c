//! What steps and takings add to the snapshots of a run.
ghost use Rattle.std.specs.Prelude.{◌≡◌, ◌++◌, ℕ, Some};
ghost use Rattle.sim_model.specs.Configuration.{Config};
ghost use Rattle.sim_model.specs.Steps.{step, went, taking};
ghost use Rattle.laws_runs.specs.AddedStanding.{added};

/// A step adds a snapshot exactly where it moves the simulated time, and one only: of the time before, with the values that are
/// seen after it, for such a step changes none of them (IEEE 1666-2011, 4.2.1.5). So it is of every configuration, be it one that
/// a run comes to or not.
pub fn steps_add_snapshots()
    ensures { (c d : Config) → step c ≡ went d → d.trace.snapshots ≡ c.trace.snapshots ++ added c d }
{}

/// A taking adds no snapshot, and moves no time.
pub fn takings_add_none()
    ensures snapshots { (c d : Config) (p : ℕ) → taking c p ≡ Some d → d.trace.snapshots ≡ c.trace.snapshots }
    ensures now { (c d : Config) (p : ℕ) → taking c p ≡ Some d → d.cycle.now ≡ c.cycle.now }
{}
