//! Whether an initiator holds a grant.
ghost use Rattle.std.specs.Prelude.{◌≡◌, ℕ, ◌<◌, ◌≤◌, ◌↔◌, IsTrue, IfNone, IfSome, length};
ghost use Rattle.traffic_file.specs.Traffic.{initiator_of, CanRun};
ghost use Rattle.bus_router.specs.Times.{row_at, IsLeft, IsHeld};
ghost use Rattle.bus_router.specs.TableSofar.{TimedSofar};
ghost use Rattle.bus_router.specs.Making.{IsDone};
ghost use Rattle.bus_router.specs.Holding.{Brings, NoneBrings, LastBrings, Premises};

use crate::places::{holds_all, initiator_at, line_at, reaches};
use crate::rows::BusRow;
use traffic_file::Bus;
use traffic_file::dmi_map_api::TargetRange;

// Whether no invalidation with a time from `from` to `to` shares an address with the range.
pub(crate) fn is_left(bus: &Bus, range: &TargetRange, from: u64, to: u64) -> bool
    ensures { IsTrue result ↔ IsLeft bus.now range.now from to }
{
    for i in 0..bus.invalidates.as_slice().len() {
        let invalidate = &bus.invalidates.as_slice()[i];
        if from <= invalidate.time && invalidate.time <= to && reaches(invalidate, range) {
            return false;
        }
    }
    true
}

// Whether access j of the initiator went through the router, with all its bytes in the range.
fn brings(bus: &Bus, rows: &[BusRow], range: &TargetRange, i: u32, j: usize) -> bool
    requires there { j < length bus.now.lines }
    requires many { length rows.now ≡ length bus.now.lines }
    ensures { IsTrue result ↔ Brings bus.now (row_at rows.now) range.now i j }
{
    let line = line_at(bus, j);
    line.initiator == i && !rows[j].direct && holds_all(range, line)
}

// The last access below k that did.
fn last_bringing(bus: &Bus, rows: &[BusRow], range: &TargetRange, i: u32, k: usize) -> Option<usize>
    requires there { k ≤ length bus.now.lines }
    requires many { length rows.now ≡ length bus.now.lines }
    ensures none { IfNone result (NoneBrings bus.now (row_at rows.now) range.now i k) }
    ensures last { IfSome result (LastBrings bus.now (row_at rows.now) range.now i k) }
{
    let mut last = None;
    for j in 0..k {
        if brings(bus, rows, range, i, j) {
            last = Some(j);
        }
    }
    last
}

// Whether the initiator of access k holds a grant at this time of k's home, which has all bytes of k.
pub(crate) fn holds_grant(bus: &Bus, rows: &[BusRow], k: usize, time: u64) -> bool
    requires can { CanRun bus.now }
    requires there { k < length bus.now.lines }
    requires many { length rows.now ≡ length bus.now.lines }
    ensures { Premises bus.now (row_at rows.now) k time → (IsTrue result ↔ IsHeld bus.now (row_at rows.now) k time) }
{
    let line = line_at(bus, k);
    if !initiator_at(bus, line.initiator as usize).dmi {
        return false;
    }
    let Some(range) = bus.map.range_with(line.address) else {
        return false;
    };
    if !holds_all(range, line) {
        return false;
    }
    bus.map.ranges_are_apart();
    match last_bringing(bus, rows, range, line.initiator, k) {
        Some(j) => is_left(bus, range, rows[j].e, time),
        None => false,
    }
}
