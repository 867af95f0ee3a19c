//! The rows of a hop, in a map with room.
ghost use Rattle.std.specs.Prelude.{◌≡◌, ◌⊎◌, ◌+◌, ◌<◌, false, IsTrue};
ghost use Rattle.std.specs.Ordering.{nat_cmp};
ghost use Rattle.std.specs.FinMap as map;
ghost use Rattle.room_map.specs.Entries.{as_map};
ghost use Rattle.transport_phases.specs.Phases.{is_fresh};
ghost use Rattle.transport_phases.specs.Rows.{kept_in};
ghost use Rattle.transport_phases.specs.Seats.{SetsRow};

use crate::transaction::Kept;
use room_map::RoomMap;

// What is kept of the transaction.
pub(crate) fn row_at(rows: &RoomMap<u32, Kept>, t: u32) -> Kept
    ensures { result ≡ kept_in (as_map nat_cmp rows.now.entries) t }
{
    match rows.get(t) {
        Some(kept) => kept,
        None => Kept::fresh(),
    }
}

// Gives the transaction this row, or takes out the one that it has where this says nothing.
pub(crate) fn set_row(rows: &mut RoomMap<u32, Kept>, t: u32, kept: Kept)
    requires { is_fresh kept ≡ false → IsTrue (map.contains_key (as_map nat_cmp rows.old.entries) t) ⊎ (0 < rows.old.spare) }
    ensures set { SetsRow (as_map nat_cmp rows.old.entries) (as_map nat_cmp rows.new.entries) t kept }
    ensures places { map.len (as_map nat_cmp rows.new.entries) + rows.new.spare ≡ map.len (as_map nat_cmp rows.old.entries) + rows.old.spare }
{
    if rows.contains(t) {
        if kept.is_fresh() {
            rows.remove(t);
        } else {
            rows.replace(t, kept);
        }
    } else if !kept.is_fresh() {
        rows.insert(t, kept);
    }
}
