//! The entries of one access on a hop.
ghost use Rattle.std.specs.Prelude.{◌≡◌, ◌∷◌, [], ◌++◌, OnOk, map};
ghost use Rattle.bus_runs.specs.Hops.{entries_of};
ghost use Rattle.bus_runs.specs.Entries.{entry_of};

use bus_router::logic_values_api::Items;
use std::alloc::AllocError;
use transport_phases::Path;

/// What is called or returned on a hop, of the transaction of a payload.
#[derive(Clone, Copy)]
pub enum BusEntry {
    /// A call of nonblocking transport.
    Call {
        /// The number of the payload, which is the place of its access in the file.
        payload: u32,
        /// From the initiator, or to it.
        path: Path,
        /// The phase.
        phase: i32,
        /// Whether the response status is another than INCOMPLETE.
        complete: bool,
        /// Whether the other end has a handler.
        handled: bool,
    },
    /// The return of a call.
    Return {
        /// The number of the payload.
        payload: u32,
        /// ACCEPTED, UPDATED or COMPLETED, as 0, 1 or 2.
        status: i32,
        /// The phase.
        phase: i32,
        /// Whether the response status is another than INCOMPLETE.
        complete: bool,
    },
}

/// The entries of one hop, in order.
pub type BusHop = Items<BusEntry>;

/// The entries of hops.
pub type BusHops = Items<BusHop>;

/// Adds the four entries of access k: BEGIN_REQ, which is accepted, and BEGIN_RESP, which completes it.
pub(crate) fn add_entries(hop: &mut Vec<BusEntry>, payload: u32) -> Result<(), AllocError>
    ensures { OnOk result (map entry_of hop.new.items ≡ map entry_of hop.old.items ++ entries_of (payload ∷ [])) }
{
    hop.extend_from_slice(&[
        BusEntry::Call {
            payload,
            path: Path::Forward,
            phase: 1,
            complete: false,
            handled: true,
        },
        BusEntry::Return {
            payload,
            status: 0,
            phase: 1,
            complete: false,
        },
        BusEntry::Call {
            payload,
            path: Path::Backward,
            phase: 3,
            complete: true,
            handled: true,
        },
        BusEntry::Return {
            payload,
            status: 2,
            phase: 3,
            complete: true,
        },
    ])
}
