ghost use Rattle.std.specs.Prelude.{◌≡◌, List, ℕ};
ghost use Rattle.bus_router.specs.TrafficFile.declared.Bus.{Bus};
ghost use Rattle.bus_router.specs.TrafficFile.Traffic.{CanRun};
ghost use Rattle.bus_runs.specs.declared.runs.BusRun.{BusRun};
ghost use Rattle.bus_runs.specs.Runs.{IsRunOf, IsRunText, IsWrittenFor};
ghost use Rattle.bus_runs.specs.Same.{AreSameRuns};

/// Traffic that can be run has one run, at most.
pub fn one_run()
    ensures { (bus : Bus) (one other : BusRun) → CanRun bus → IsRunOf bus one → IsRunOf bus other → AreSameRuns one other }
{}

/// It has one text, at most.
pub fn one_run_text()
    ensures { (bus : Bus) (one other : List ℕ) → CanRun bus → IsRunText bus one → IsRunText bus other → one ≡ other }
{}

/// One text is written for that of a traffic file, at most.
pub fn one_written_text()
    ensures { (text one other : List ℕ) → IsWrittenFor text one → IsWrittenFor text other → one ≡ other }
{}
