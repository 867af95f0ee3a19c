//! The law of a whole trace.
ghost use Rattle.std.specs.Prelude.{◌≡◌, ◌++◌, ℕ, List};
ghost use Rattle.std.specs.List.{concat};
ghost use Rattle.flat_design.specs.declared.design.Design.{Design};
ghost use Rattle.laws_runs.specs.SimModel.Configuration.{Snapshot};
ghost use Rattle.laws_runs.specs.SimModel.Trace as spec;
ghost use Rattle.vcd_trace.specs.Points.{ArePoints};

/// The header of a design and the points of snapshots, each behind the one before it, are together the trace of the design with
/// these snapshots.
pub fn header_and_points_are_the_trace()
    ensures { (d : Design) (snapshots : List Snapshot) (points : List (List ℕ)) → ArePoints None snapshots points → spec.header d ++ concat points ≡ spec.vcd d snapshots }
{}
