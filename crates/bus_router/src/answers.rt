//! The answers to all accesses.
ghost use Rattle.std.specs.Prelude.{◌≡◌, ℕ, ◌<◌, ◌+◌, ◌^◌, IfOk, OnOk, length, map, replicate};
ghost use Rattle.traffic_file.specs.Traffic.{target_at, CanRun};
ghost use Rattle.bus_router.specs.Times.{row_at, IsTableOf};
ghost use Rattle.bus_router.specs.Answers.{served_rank, AreHomes, AreAnswers};
ghost use Rattle.bus_router.specs.Serving.{HomesSofar};

use crate::asking::first_payloads;
use crate::homes::{homes_of, order_at, ranks_of};
use crate::serving::serve_all;
use crate::{BusRow, target_at};
use std::alloc::{AllocError, Global};
use traffic_file::Bus;
use traffic_file::dmi_map_api::{Rank, TargetRange};
use traffic_file::payload_pool_api::Payload;

/// A memory in which each byte is 0.
fn new_memory(alloc: Global, size: u64) -> Result<Vec<u8>, AllocError>
    ensures { IfOk result (λ memory. memory.items ≡ replicate size 0) }
{
    vec![in alloc; 0; size as usize]
}

/// The accesses of one home are answered.
fn answer_at(
    alloc: Global,
    payloads: &mut Vec<Payload>,
    bus: &Bus,
    rows: &[BusRow],
    ranks: &[Rank],
    homes: &[Option<TargetRange>],
    home: u32,
) -> Result<(), AllocError>
    requires can { CanRun bus.now }
    requires ranked { ranks.now ≡ map served_rank rows.now }
    requires homes { AreHomes bus.now homes.now }
    requires there { home < length bus.now.targets }
    requires sofar { HomesSofar bus.now (row_at rows.now) payloads.old.items home }
    ensures { OnOk result (HomesSofar bus.now (row_at rows.now) payloads.new.items (home + 1)) }
{
    let order = order_at(alloc, bus, rows, ranks, homes, home)?;
    let mut memory = new_memory(alloc, target_at(bus, home as usize).size)?;
    serve_all(
        payloads,
        memory.as_mut_slice(),
        bus,
        homes,
        order.as_slice(),
    );
    Ok(())
}

/// What each access reads or writes, and its response status, in the order of the file.
pub fn answers_of(alloc: Global, bus: &Bus, rows: &[BusRow]) -> Result<Vec<Payload>, AllocError>
    requires can { CanRun bus.now }
    ensures { IfOk result (λ payloads. AreAnswers bus.now (row_at rows.now) payloads.items) }
{
    let homes = homes_of(alloc, bus)?;
    let ranks = ranks_of(alloc, rows)?;
    let mut payloads = first_payloads(alloc, bus, homes.as_slice())?;
    for home in 0..bus.targets.as_slice().len() {
        answer_at(
            alloc,
            &mut payloads,
            bus,
            rows,
            ranks.as_slice(),
            homes.as_slice(),
            home as u32,
        )?;
    }
    Ok(payloads)
}
