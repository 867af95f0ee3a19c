//! Accesses carried out at a memory.
ghost use Rattle.std.specs.Prelude.{◌≡◌, ℕ, ◌<◌, ◌≤◌, length, slice_index, slice_set};
ghost use Rattle.std.specs.Option.{option_map_or};
ghost use Rattle.traffic_file.specs.DmiMap.Accesses.{accessed, memory_accessed};
ghost use Rattle.bus_router.specs.Answers.{asked, payload_at, AreHomes};
ghost use Rattle.bus_router.specs.Serving.{ArePlaces, ServedSofar};

use traffic_file::Bus;
use traffic_file::dmi_map_api::{TargetRange, direct};
use traffic_file::payload_pool_api::Payload;

fn low_of(home: Option<TargetRange>) -> u64
    ensures { result ≡ option_map_or (λ range. range.low) home 0 }
{
    match home {
        Some(range) => range.low,
        None => 0,
    }
}

/// Access k is carried out at a memory whose first byte has the address `low`.
fn serve(payloads: &mut Vec<Payload>, memory: &mut [u8], k: usize, low: u64)
    requires there { k < length payloads.old.items }
    requires within { low ≤ (payload_at payloads.old.items k).address }
    ensures payloads { payloads.new.items ≡ slice_set payloads.old.items k (accessed low (payload_at payloads.old.items k) memory.old) }
    ensures memory { memory.new ≡ memory_accessed low (payload_at payloads.old.items k) memory.old }
{
    let payload = &mut payloads[k];
    let _status = direct(payload, memory, low);
}

/// The accesses of a home are carried out at its memory, one behind another.
pub(crate) fn serve_all(
    payloads: &mut Vec<Payload>,
    memory: &mut [u8],
    bus: &Bus,
    homes: &[Option<TargetRange>],
    order: &[u32],
)
    requires homes { AreHomes bus.now homes.now }
    requires many { length payloads.old.items ≡ length bus.now.lines }
    requires places { ArePlaces bus.now order.now }
    requires asked { (i : ℕ) → i < length order.now → payload_at payloads.old.items (slice_index order.now i) ≡ asked bus.now (slice_index order.now i) }
    ensures { ServedSofar bus.now memory.old order.now payloads.old.items payloads.new.items memory.new (length order.now) }
{
    for k in order {
        let place = *k as usize;
        serve(payloads, memory, place, low_of(homes[place]));
    }
}
