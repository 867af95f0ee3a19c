//! What takings add to a trace.
ghost use Rattle.std.specs.Prelude.{◌≡◌, ℕ, Some};
ghost use Rattle.laws_runs.specs.SimModel.Configuration.{Config};
ghost use Rattle.laws_runs.specs.SimModel.Steps.{taking};
ghost use Rattle.vcd_trace.specs.Traced.{trace_so_far, last_seen};

use laws_runs::takings_add_none;

/// A taking adds nothing to a trace, and what is kept of it stays.
pub fn takings_add_no_text()
    ensures text { (c d : Config) (p : ℕ) → taking c p ≡ Some d → d.design ≡ c.design → trace_so_far d ≡ trace_so_far c }
    ensures last { (c d : Config) (p : ℕ) → taking c p ≡ Some d → last_seen d.trace.snapshots ≡ last_seen c.trace.snapshots }
{
    takings_add_none();
}
