//! The entries of each hop.
ghost use Rattle.std.specs.Prelude.{◌≡◌, ℕ, ◌<◌, ◌≤◌, ◌+◌, ◌++◌, IfOk, OnOk, length, map, filter, slice_index};
ghost use Rattle.bus_router.specs.TrafficFile.Traffic.{CanRun};
ghost use Rattle.bus_router.specs.Times.{row_at};
ghost use Rattle.bus_router.specs.Answers.{served_rank, AreHomes};
ghost use Rattle.bus_runs.specs.Entries.{is_routed, is_sent, sent_by, IsHopOf, IsTargetHop, AreHops};
ghost use Rattle.bus_runs.specs.Sofar.{HopsSofar};

use crate::entries::{BusEntry, BusHop, BusHops, add_entries};
use bus_router::dmi_map_api::{Rank, TargetRange};
use bus_router::traffic_file_api::Bus;
use bus_router::{BusRow, homes_of, line_at, order_at, ranks_of};
use std::alloc::{AllocError, Global};

fn is_routed(rows: &[BusRow], k: usize) -> bool
    ensures { result ≡ is_routed (row_at rows.now) k }
{
    match rows.get(k) {
        Some(row) => !row.direct,
        None => true,
    }
}

/// Whether access k is the initiator's, and goes through the router.
fn is_sent(bus: &Bus, rows: &[BusRow], i: u32, k: usize) -> bool
    requires { k < length bus.now.lines }
    ensures { result ≡ is_sent bus.now (row_at rows.now) i k }
{
    line_at(bus, k).initiator == i && is_routed(rows, k)
}

/// What an initiator sends through the router, in the order of the file.
fn sent_by(alloc: Global, bus: &Bus, rows: &[BusRow], i: u32) -> Result<Vec<u32>, AllocError>
    requires { length bus.now.lines ≤ 4096 }
    ensures { IfOk result (λ ks. ks.items ≡ sent_by bus.now (row_at rows.now) i) }
{
    let mut ks = Vec::new(alloc);
    for k in 0..bus.lines.as_slice().len() {
        if is_sent(bus, rows, i, k) {
            ks.push(k as u32)?;
        }
    }
    Ok(ks)
}

/// Those of these accesses that go through the router.
fn routed_of(alloc: Global, rows: &[BusRow], order: &[u32]) -> Result<Vec<u32>, AllocError>
    ensures { IfOk result (λ ks. ks.items ≡ filter (is_routed (row_at rows.now)) order.now) }
{
    let mut ks = Vec::new(alloc);
    for k in order {
        if is_routed(rows, *k as usize) {
            ks.push(*k)?;
        }
    }
    Ok(ks)
}

/// The hop with these accesses.
fn hop_of(alloc: Global, ks: &[u32]) -> Result<BusHop, AllocError>
    ensures { IfOk result (IsHopOf ks.now) }
{
    let mut hop = Vec::new(alloc);
    for k in ks {
        add_entries(&mut hop, *k)?;
    }
    Ok(BusHop::from_vec(hop))
}

/// The hop of an initiator.
fn initiator_hop(alloc: Global, bus: &Bus, rows: &[BusRow], i: u32) -> Result<BusHop, AllocError>
    requires { length bus.now.lines ≤ 4096 }
    ensures { IfOk result (IsHopOf (sent_by bus.now (row_at rows.now) i)) }
{
    let ks = sent_by(alloc, bus, rows, i)?;
    hop_of(alloc, ks.as_slice())
}

/// The hop of a target.
fn target_hop(
    alloc: Global,
    bus: &Bus,
    rows: &[BusRow],
    ranks: &[Rank],
    homes: &[Option<TargetRange>],
    home: u32,
) -> Result<BusHop, AllocError>
    requires few { length bus.now.lines ≤ 4096 }
    requires ranked { ranks.now ≡ map served_rank rows.now }
    requires homes { AreHomes bus.now homes.now }
    ensures { IfOk result (IsTargetHop bus.now (row_at rows.now) home) }
{
    let order = order_at(alloc, bus, rows, ranks, homes, home)?;
    let ks = routed_of(alloc, rows, order.as_slice())?;
    hop_of(alloc, ks.as_slice())
}

/// Adds the hop of each initiator, in the order of the file.
fn initiator_hops(alloc: Global, bus: &Bus, rows: &[BusRow]) -> Result<Vec<BusHop>, AllocError>
    requires { CanRun bus.now }
    ensures { IfOk result (λ hops. HopsSofar bus.now (row_at rows.now) hops.items (length bus.now.initiators) 0) }
{
    let mut hops = Vec::new(alloc);
    for i in 0..bus.initiators.as_slice().len() {
        let hop = initiator_hop(alloc, bus, rows, i as u32)?;
        hops.push(hop)?;
    }
    Ok(hops)
}

/// What is called and returned on each hop where accesses have these times: first on that of each initiator, then on that of
/// each target, in the order of the file.
pub fn hops_of(alloc: Global, bus: &Bus, rows: &[BusRow]) -> Result<BusHops, AllocError>
    requires { CanRun bus.now }
    ensures { IfOk result (AreHops bus.now (row_at rows.now)) }
{
    let homes = homes_of(alloc, bus)?;
    let ranks = ranks_of(alloc, rows)?;
    let mut hops = initiator_hops(alloc, bus, rows)?;
    for home in 0..bus.targets.as_slice().len() {
        let hop = target_hop(
            alloc,
            bus,
            rows,
            ranks.as_slice(),
            homes.as_slice(),
            home as u32,
        )?;
        hops.push(hop)?;
    }
    Ok(BusHops::from_vec(hops))
}
