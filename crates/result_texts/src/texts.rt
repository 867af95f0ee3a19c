//! The text of all accesses.
ghost use Rattle.std.specs.Prelude.{◌≡◌, ℕ, ◌<◌, ◌++◌, IfOk, OnOk, length, slice_index};
ghost use Rattle.std.specs.List.{flat_map};
ghost use Rattle.bus_router.specs.TrafficFile.Traffic.{CanRun};
ghost use Rattle.bus_router.specs.Times.{row_at};
ghost use Rattle.bus_router.specs.Pools.{payload_with, IsLive};
ghost use Rattle.result_texts.specs.Lines.{access_line, end_line, IsTextOf};

use crate::bus_lines::{push_line, push_number};
use crate::order::{last_time, return_order};
use bus_router::payload_pool_api::Pool;
use bus_router::traffic_file_api::Bus;
use bus_router::{BusRow, live_payload};
use std::alloc::{AllocError, Global};

/// Adds the lines of these accesses.
fn push_lines(
    alloc: Global,
    text: &mut Vec<u8>,
    bus: &Bus,
    rows: &[BusRow],
    pool: &Pool,
    order: &[u32],
) -> Result<(), AllocError>
    requires can { CanRun bus.now }
    requires rows { length rows.now ≡ length bus.now.lines }
    requires live { (k : ℕ) → k < length bus.now.lines → IsLive pool.now k }
    requires there { (i : ℕ) → i < length order.now → slice_index order.now i < length bus.now.lines }
    ensures { OnOk result (text.new.items ≡ text.old.items ++ flat_map (λ k. access_line bus.now (row_at rows.now k) k (payload_with pool.now k)) order.now) }
{
    for k in order {
        let place = *k as usize;
        push_line(alloc, text, bus, rows[place], place, live_payload(pool, *k))?;
    }
    Ok(())
}

fn push_end(alloc: Global, text: &mut Vec<u8>, rows: &[BusRow]) -> Result<(), AllocError>
    ensures { OnOk result (text.new.items ≡ text.old.items ++ end_line rows.now) }
{
    text.extend_from_slice(b"end bus ")?;
    push_number(alloc, text, last_time(rows))?;
    text.extend_from_slice(b"\n")
}

/// The text of traffic with these times and payloads.
///
/// A line `TIME INITIATOR LINE STATUS` says of each access when its response came back, and its line in the file. The status is
/// `OK` or `ADDRESS`; behind `OK` of a read come the bytes in hexadecimal, and a line of a direct access ends with `dmi`. The
/// lines stand in the order of their times, at one time in that of the file. Last comes `end bus TIME` with the greatest time.
pub fn text_of(
    alloc: Global,
    bus: &Bus,
    rows: &[BusRow],
    pool: &Pool,
) -> Result<Vec<u8>, AllocError>
    requires can { CanRun bus.now }
    requires rows { length rows.now ≡ length bus.now.lines }
    requires live { (k : ℕ) → k < length bus.now.lines → IsLive pool.now k }
    ensures { IfOk result (λ text. IsTextOf bus.now rows.now (payload_with pool.now) text.items) }
{
    let order = return_order(alloc, bus, rows)?;
    let mut text = Vec::new(alloc);
    push_lines(alloc, &mut text, bus, rows, pool, order.as_slice())?;
    push_end(alloc, &mut text, rows)?;
    Ok(text)
}
