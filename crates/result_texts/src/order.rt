//! The order of the lines.
ghost use Rattle.std.specs.Prelude.{◌≡◌, ◌≤◌, IfOk, length, map};
ghost use Rattle.result_texts.specs.Lines.{returned_rank, last_time, IsReturnOrder};

use bus_router::BusRow;
use bus_router::dmi_map_api::{Rank, put_in_order};
use bus_router::traffic_file_api::Bus;
use std::alloc::{AllocError, Global};

fn rank_of(row: &BusRow) -> Rank
    ensures { result ≡ returned_rank row.now }
{
    Rank {
        first: row.r,
        second: 0,
    }
}

fn ranks_of(alloc: Global, rows: &[BusRow]) -> Result<Vec<Rank>, AllocError>
    ensures { IfOk result (λ ranks. ranks.items ≡ map returned_rank rows.now) }
{
    rows.iter().map(rank_of).collect(alloc)
}

/// All accesses in the order in which their responses come back.
pub(crate) fn return_order(
    alloc: Global,
    bus: &Bus,
    rows: &[BusRow],
) -> Result<Vec<u32>, AllocError>
    requires { length bus.now.lines ≤ 4096 }
    ensures { IfOk result (λ order. IsReturnOrder bus.now rows.now order.items) }
{
    let ranks = ranks_of(alloc, rows)?;
    let mut order = Vec::new(alloc);
    for k in 0..bus.lines.as_slice().len() {
        put_in_order(&mut order, ranks.as_slice(), k as u32)?;
    }
    Ok(order)
}

/// The time of the last response; 0 where there is none.
pub(crate) fn last_time(rows: &[BusRow]) -> u64
    ensures { result ≡ last_time rows.now }
{
    let mut last = 0;
    for row in rows {
        if last < row.r {
            last = row.r;
        }
    }
    last
}
