//! How many instances an event gives out at most, so that a caller can make room for them.
ghost use Rattle.std.specs.Prelude.{◌≡◌, ℕ, ◌+◌, ◌≤◌, ◌<◌, true, List, length};
ghost use Rattle.std.specs.FinMap as map;
ghost use Rattle.event_core.specs.declared.event.Ev.{Ev};
ghost use Rattle.wait_lists.specs.Waits.{Waits, waits_naming, is_met_by, AllHaveRoom, AddsEach};

use crate::WaitLists;

/// An event gives out no more instances than wait for it.
pub fn as_many_as_wait_for_it()
    ensures { (w : Waits) (e : Ev) (old new : List ℕ) → AddsEach old new (λ p. is_met_by w p e) → length new ≤ length old + map.len (waits_naming w e) }
{}

/// No more instances wait for an event than wait at all, and no more wait than have room.
pub fn as_many_as_have_room()
    ensures waiting { (w : Waits) (e : Ev) → map.len (waits_naming w e) ≤ map.len w.waits }
    ensures room { (w : Waits) → AllHaveRoom w → map.len w.waits ≤ map.len w.room }
{}

/// Where all that have room are among `n` serials in a row, they are at most `n`.
pub fn as_many_as_serials()
    ensures { (w : Waits) (first n : ℕ) → ((p : ℕ) → map.contains_key w.room p ≡ true → (first ≤ p) × (p < first + n)) → map.len w.room ≤ n }
{}

/// Who waits has room.
pub fn who_waits_has_room(lists: &WaitLists)
    ensures { AllHaveRoom lists.now }
{
    let _kept = &lists.kept;
}
