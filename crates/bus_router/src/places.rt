//! What stands at the places of a bus.
ghost use Rattle.std.specs.Prelude.{◌≡◌, ◌<◌, ◌↔◌, IsTrue, length, max};
ghost use Rattle.traffic_file.specs.TextLines.Words as words;
ghost use Rattle.traffic_file.specs.Traffic as traffic;
ghost use Rattle.bus_router.specs.Times as times;

use traffic_file::dmi_map_api::TargetRange;
use traffic_file::text_lines_api::BusAction;
use traffic_file::{Bus, BusInitiator, BusLine, BusTarget, Invalidate};

/// Access k, counted from 0.
pub fn line_at(bus: &Bus, k: usize) -> &BusLine
    requires { k < length bus.now.lines }
    ensures { result.now ≡ traffic.line_at bus.now k }
{
    &bus.lines.as_slice()[k]
}

/// Target t, counted from 0.
pub fn target_at(bus: &Bus, t: usize) -> &BusTarget
    requires { t < length bus.now.targets }
    ensures { result.now ≡ traffic.target_at bus.now t }
{
    &bus.targets.as_slice()[t]
}

/// Initiator i, counted from 0.
pub fn initiator_at(bus: &Bus, i: usize) -> &BusInitiator
    requires { i < length bus.now.initiators }
    ensures { result.now ≡ traffic.initiator_at bus.now i }
{
    &bus.initiators.as_slice()[i]
}

// How many bytes the access reads or writes.
pub(crate) fn length_of(action: &BusAction) -> u64
    ensures { result ≡ words.length_of action.now }
{
    match action {
        BusAction::Get { len } => u64::from(*len),
        BusAction::Put { bytes } => bytes.as_slice().len() as u64,
    }
}

/// Whether all bytes of the access are in the range.
pub fn holds_all(range: &TargetRange, line: &BusLine) -> bool
    ensures { IsTrue result ↔ times.HoldsAll range.now line.now }
{
    let len = length_of(&line.action);
    range.low <= line.address
        && line.address - range.low <= range.size
        && len <= range.size - (line.address - range.low)
}

/// Whether the invalidation shares an address with the range.
pub fn reaches(invalidate: &Invalidate, range: &TargetRange) -> bool
    ensures { result ≡ times.reaches invalidate.now range.now }
{
    (invalidate.low < range.low || invalidate.low - range.low < range.size)
        && range.low <= invalidate.high
}

pub(crate) fn later_of(one: u64, other: u64) -> u64
    ensures { result ≡ max one other }
{
    if one < other { other } else { one }
}
