//! Laws of the base protocol's rules.
ghost use Rattle.std.specs.Prelude.{◌≢◌, ℕ, List, IsTrue};
ghost use Rattle.std.specs.FinMap as map;
ghost use Rattle.transport_phases.specs.declared.transaction.Open.TheVariants.{Nothing};
ghost use Rattle.transport_phases.specs.Phases.{is_requesting, is_responding};
ghost use Rattle.transport_phases.specs.History.{Entry, is_open, StandsFor};
ghost use Rattle.transport_phases.specs.Rows.{Rows};
ghost use Rattle.transport_phases.specs.Unbroken.{Unbroken, AtMostOne};

/// In a history that breaks no rule no two transactions request at once, and no two respond at once
/// (IEEE 1666-2011, 15.2.6, the exclusion rules).
pub fn one_at_a_time()
    ensures requests { (h : List Entry) → Unbroken h → AtMostOne is_requesting h }
    ensures responds { (h : List Entry) → Unbroken h → AtMostOne is_responding h }
{}

/// A transaction of which a call is open has a row: it is registered, and its return takes no room.
pub fn open_calls_have_rows()
    ensures { (rows : Rows) (h : List Entry) → StandsFor rows h → (t : ℕ) → is_open h t ≢ Nothing → IsTrue (map.contains_key rows.kept t) }
{}
