ghost use Rattle.std.specs.Prelude.{◌≡◌, List, ◌≤◌};
ghost use Rattle.traffic_file.specs.declared.Bus.{Bus};
ghost use Rattle.bus_router.specs.declared.rows.BusRow.{BusRow};
ghost use Rattle.bus_router.specs.Times.{IsTableOf};

/// Traffic has one table of times, at most: each way over a hop takes time, so that what comes first is settled first.
pub fn one_table()
    ensures { (bus : Bus) (one other : List BusRow) → 1 ≤ bus.delay → IsTableOf bus one → IsTableOf bus other → one ≡ other }
{}
