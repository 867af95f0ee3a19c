//! The grants of direct access that stand when all traffic is over.
ghost use Rattle.std.specs.Prelude.{◌≡◌, ◌<◌, ◌-◌, ◌^◌, ◌↔◌, IsTrue, IfOk, OnOk, length};
ghost use Rattle.traffic_file.specs.Traffic.{CanRun};
ghost use Rattle.traffic_file.specs.Traffic as traffic;
ghost use Rattle.bus_router.specs.Times.{row_at};
ghost use Rattle.bus_router.specs.Leaving.{StaysFrom, LeavesOf, AreLeft};
ghost use Rattle.bus_router.specs.GrantsSofar.{IsMore};

use crate::{BusRow, holds_all, initiator_at, line_at, reaches};
use std::alloc::{AllocError, Global};
use traffic_file::Bus;
use traffic_file::dmi_map_api::{Grants, TargetRange};

// Whether no invalidation at this time or later shares an address with the range.
fn stays_from(bus: &Bus, range: &TargetRange, from: u64) -> bool
    ensures { IsTrue result ↔ StaysFrom bus.now range.now from }
{
    for i in 0..bus.invalidates.as_slice().len() {
        let invalidate = &bus.invalidates.as_slice()[i];
        if from <= invalidate.time && reaches(invalidate, range) {
            return false;
        }
    }
    true
}

// Whether the initiator of access j keeps grants.
fn keeps(bus: &Bus, j: usize) -> bool
    requires can { CanRun bus.now }
    requires there { j < length bus.now.lines }
    ensures { result ≡ (traffic.initiator_at bus.now (traffic.initiator_of bus.now j)).dmi }
{
    initiator_at(bus, line_at(bus, j).initiator as usize).dmi
}

// Whether access j, which goes to this range, leaves a grant of it.
fn leaves(bus: &Bus, row: BusRow, j: usize, range: &TargetRange) -> bool
    requires can { CanRun bus.now }
    requires there { j < length bus.now.lines }
    ensures { IsTrue result ↔ LeavesOf bus.now row j range.now }
{
    if row.direct || !keeps(bus, j) || !holds_all(range, line_at(bus, j)) {
        return false;
    }
    stays_from(bus, range, row.e)
}

// Grants what access j leaves.
fn grant_left(grants: &mut Grants, bus: &Bus, row: BusRow, j: usize) -> Result<(), AllocError>
    requires can { CanRun bus.now }
    requires there { j < length bus.now.lines }
    requires few { length grants.old < 2 ^ 32 - 1 }
    ensures { OnOk result (IsMore bus.now row j grants.old grants.new) }
{
    let line = line_at(bus, j);
    let Some(range) = bus.map.range_with(line.address) else {
        return Ok(());
    };
    if !leaves(bus, row, j, range) {
        return Ok(());
    }
    bus.map.ranges_are_apart();
    grants.grant(line.initiator, range.target, range.low, range.size)
}

/// The grants that stand when all accesses with these times are back, each once.
pub fn grants_of(alloc: Global, bus: &Bus, rows: &[BusRow]) -> Result<Grants, AllocError>
    requires can { CanRun bus.now }
    requires many { length rows.now ≡ length bus.now.lines }
    ensures { IfOk result (AreLeft bus.now (row_at rows.now)) }
{
    let mut grants = Grants::new(alloc);
    for j in 0..rows.len() {
        grant_left(&mut grants, bus, rows[j], j)?;
    }
    Ok(grants)
}
