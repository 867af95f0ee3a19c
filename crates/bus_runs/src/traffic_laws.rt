//! Laws of traffic through a router: what direct access leaves as it is.
ghost use Rattle.std.specs.Prelude.{◌≡◌, ◌↔◌, ◌<◌, [], ℕ, List, length};
ghost use Rattle.bus_router.specs.PayloadPool.declared.payload.Payload.{Payload};
ghost use Rattle.bus_router.specs.PayloadPool.declared.payload.TheConstants.{OK};
ghost use Rattle.bus_router.specs.DmiMap.declared.grants.Region.{Region};
ghost use Rattle.bus_router.specs.DmiMap.Ranges.{AreApart};
ghost use Rattle.bus_router.specs.TrafficFile.declared.Bus.{Bus};
ghost use Rattle.bus_router.specs.TrafficFile.Traffic.{CanRun};
ghost use Rattle.bus_router.specs.declared.rows.BusRow.{BusRow};
ghost use Rattle.bus_router.specs.Times.{Table, row_at, IsTableOf};
ghost use Rattle.bus_router.specs.Answers.{payload_at, IsServiceOrder, AreAnswers};
ghost use Rattle.bus_router.specs.Leaving.{AreLeft};
ghost use Rattle.bus_runs.specs.Runs.{IsRunText};
ghost use Rattle.bus_runs.specs.Direct.{DirectIsAsRouted};
ghost use Rattle.bus_runs.specs.Turns.{TakeTurns, IsWhole};
ghost use Rattle.bus_runs.specs.Routed.{NoneKeeps, IsRoutedTable, IsRoutedText};

/// An access that is done directly gives the status, the data and the memory that the router would give at that moment.
pub fn direct_is_as_routed()
    ensures { DirectIsAsRouted }
{}

/// What accesses read, write and are answered depends on the order in which they are served alone: where two tables have the same
/// order at each home, the answers by one are those by the other, whatever is direct in each.
pub fn answers_go_by_the_order()
    ensures { (bus : Bus) (one other : Table) (payloads : List Payload)
        → ((home : ℕ) (ks : List ℕ) → IsServiceOrder bus one home ks → IsServiceOrder bus other home ks)
        → AreAnswers bus one payloads → AreAnswers bus other payloads }
{}

/// Where no initiator keeps grants, the table of times is that of accesses that all go through the router.
pub fn all_is_routed_without_marks()
    ensures { (bus : Bus) (rows : List BusRow) → CanRun bus → NoneKeeps bus → IsTableOf bus rows ↔ IsRoutedTable bus rows }
{}

/// There no grant is left.
pub fn none_is_left_without_marks()
    ensures { (bus : Bus) (table : Table) (regions : List Region) → CanRun bus → NoneKeeps bus → AreLeft bus table regions → regions ≡ [] }
{}

/// There the text is that of accesses that all go through the router, whatever invalidations there are.
pub fn same_text_without_marks()
    ensures { (bus : Bus) (out : List ℕ) → CanRun bus → NoneKeeps bus → IsRunText bus out → IsRoutedText bus out }
{}

/// Accesses on a hop take turns, so that its entries stand in the order of their times.
pub fn hops_take_turns()
    ensures { (bus : Bus) (rows : List BusRow) → IsTableOf bus rows → TakeTurns bus (row_at rows) }
{}

/// An access is OK exactly where it has a home, which has all its bytes: so a grant is brought by an access that comes back OK.
pub fn ok_where_whole()
    ensures { (bus : Bus) (table : Table) (payloads : List Payload) → CanRun bus → AreApart bus.map → AreAnswers bus table payloads
        → (k : ℕ) → k < length bus.lines → ((payload_at payloads k).status ≡ OK) ↔ IsWhole bus k }
{}
