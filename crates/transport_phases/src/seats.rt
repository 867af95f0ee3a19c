//! Who requests and who responds: a seat each, which one transaction has, if any.
ghost use Rattle.std.specs.Prelude.{◌≡◌};
ghost use Rattle.transport_phases.specs.Seats.{has_other as other_has, seat_after as after};

// Whether a transaction other than this one has the seat.
pub(crate) fn has_other(seat: Option<u32>, t: u32) -> bool
    ensures { result ≡ other_has seat t }
{
    match seat {
        Some(u) => u != t,
        None => false,
    }
}

// Who has the seat where this transaction takes it, or has it no longer.
pub(crate) fn seat_after(seat: Option<u32>, t: u32, takes: bool) -> Option<u32>
    ensures { result ≡ after seat t takes }
{
    if takes {
        return Some(t);
    }
    match seat {
        Some(u) if u != t => Some(u),
        _ => None,
    }
}
