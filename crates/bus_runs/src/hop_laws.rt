ghost use Rattle.std.specs.Prelude.{ℕ, List};
ghost use Rattle.transport_phases.specs.Unbroken.{Unbroken};
ghost use Rattle.bus_runs.specs.Hops.{entries_of};

/// Whichever accesses go over a hop one behind another, no entry breaks a rule of the base protocol (IEEE 1666-2011, 15.2).
pub fn no_rule_is_broken()
    ensures { (accesses : List ℕ) → Unbroken (entries_of accesses) }
{}
