//! Where accesses go, and in which order they are served there.
ghost use Rattle.std.specs.Prelude.{◌≡◌, ◌<◌, ◌≤◌, ◌↔◌, IsTrue, Some, IfOk, length, map, option_map};
ghost use Rattle.traffic_file.specs.Traffic.{range_of_line};
ghost use Rattle.bus_router.specs.Answers.{served_rank, AreHomes, IsServiceOrder};
ghost use Rattle.bus_router.specs.Times.{row_at};

use crate::{BusRow, line_at};
use std::alloc::{AllocError, Global};
use traffic_file::Bus;
use traffic_file::dmi_map_api::{Rank, TargetRange, put_in_order};

/// The range of the home of access k.
fn home_of(bus: &Bus, k: usize) -> Option<TargetRange>
    requires { k < length bus.now.lines }
    ensures { result ≡ range_of_line bus.now k }
{
    match bus.map.range_with(line_at(bus, k).address) {
        Some(range) => Some(*range),
        None => None,
    }
}

/// The range of the home of each access, in the order of the file; `None` where it has no home.
pub fn homes_of(alloc: Global, bus: &Bus) -> Result<Vec<Option<TargetRange>>, AllocError>
    ensures { IfOk result (λ homes. AreHomes bus.now homes.items) }
{
    let mut homes = Vec::new(alloc);
    for k in 0..bus.lines.as_slice().len() {
        homes.push(home_of(bus, k))?;
    }
    Ok(homes)
}

fn rank_of(row: &BusRow) -> Rank
    ensures { result ≡ served_rank row.now }
{
    Rank {
        first: row.s,
        second: if row.direct { 0 } else { row.a },
    }
}

/// What the accesses at a home are ordered by.
pub fn ranks_of(alloc: Global, rows: &[BusRow]) -> Result<Vec<Rank>, AllocError>
    ensures { IfOk result (λ ranks. ranks.items ≡ map served_rank rows.now) }
{
    rows.iter().map(rank_of).collect(alloc)
}

fn is_home(range: Option<TargetRange>, home: u32) -> bool
    ensures { IsTrue result ↔ (option_map (λ range. range.target) range ≡ Some home) }
{
    match range {
        Some(range) => range.target == home,
        None => false,
    }
}

/// The accesses of a home, in the order in which they are served.
pub fn order_at(
    alloc: Global,
    bus: &Bus,
    rows: &[BusRow],
    ranks: &[Rank],
    homes: &[Option<TargetRange>],
    home: u32,
) -> Result<Vec<u32>, AllocError>
    requires few { length bus.now.lines ≤ 4096 }
    requires ranked { ranks.now ≡ map served_rank rows.now }
    requires homes { AreHomes bus.now homes.now }
    ensures { IfOk result (λ order. IsServiceOrder bus.now (row_at rows.now) home order.items) }
{
    let mut order = Vec::new(alloc);
    for k in 0..homes.len() {
        if is_home(homes[k], home) {
            put_in_order(&mut order, ranks, k as u32)?;
        }
    }
    Ok(order)
}
