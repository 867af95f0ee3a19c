ghost use Rattle.std.specs.Prelude.{◌≡◌, ◌<◌, ℕ, List, length, map};
ghost use Rattle.transport_phases.specs.Unbroken.{Unbroken};
ghost use Rattle.bus_router.specs.TrafficFile.declared.Bus.{Bus};
ghost use Rattle.bus_router.specs.TrafficFile.Traffic.{CanRun};
ghost use Rattle.bus_router.specs.Times.{Table};
ghost use Rattle.bus_runs.specs.declared.entries.BusEntry.{BusEntry};
ghost use Rattle.bus_runs.specs.Entries.{entry_of, AreHops};
ghost use Rattle.bus_runs.specs.Own.{hop_at, HasItsEntries};

/// Hops have one list of entries each by a table of times, at most.
pub fn one_list_of_hops()
    ensures { (bus : Bus) (table : Table) (one other : List (List BusEntry)) → AreHops bus table one → AreHops bus table other → one ≡ other }
{}

/// No entry of a hop breaks a rule of the base protocol (IEEE 1666-2011, 15.2).
pub fn no_entry_breaks_a_rule()
    ensures { (bus : Bus) (table : Table) (hops : List (List BusEntry)) → AreHops bus table hops → (h : ℕ) → h < length hops → Unbroken (map entry_of (hop_at hops h)) }
{}

/// Each access has its entries on its own hops, and on no other.
pub fn each_access_has_its_entries()
    ensures { (bus : Bus) (table : Table) (hops : List (List BusEntry)) → CanRun bus → AreHops bus table hops
        → (k : ℕ) → k < length bus.lines → HasItsEntries bus table hops k }
{}
