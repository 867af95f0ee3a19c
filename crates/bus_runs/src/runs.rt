//! A run.
ghost use Rattle.std.specs.Prelude.{◌≡◌, IfOk};
ghost use Rattle.bus_router.specs.TrafficFile.Traffic.{CanRun};
ghost use Rattle.bus_router.specs.Times.{row_at};
ghost use Rattle.bus_runs.specs.Runs.{AreAnswersIn, IsRunOf};

use crate::{BusHops, hops_of};
use bus_router::dmi_map_api::Grants;
use bus_router::payload_pool_api::Pool;
use bus_router::traffic_file_api::Bus;
use bus_router::{BusRow, BusRows, answers_of, grants_of, pool_of, times_of};
use std::alloc::{AllocError, Global};

/// A run of all accesses of a bus.
#[derive(Drop)]
pub struct BusRun {
    /// When each access begins, arrives, is served and is back, in the order of the file.
    pub rows: BusRows,
    /// What is called and returned on each hop: first on those of the initiators, then on those of the targets.
    pub hops: BusHops,
    /// What each access reads or writes, and its response status, under its place in the file.
    pub pool: Pool,
    /// The grants that stand when all accesses are back.
    pub grants: Grants,
}

/// The payloads of all accesses.
fn answers(alloc: Global, bus: &Bus, rows: &[BusRow]) -> Result<Pool, AllocError>
    requires { CanRun bus.now }
    ensures { IfOk result (AreAnswersIn bus.now (row_at rows.now)) }
{
    let payloads = answers_of(alloc, bus, rows)?;
    pool_of(alloc, payloads)
}

/// The run of all accesses of a bus.
pub fn run_bus(alloc: Global, bus: &Bus) -> Result<BusRun, AllocError>
    requires { CanRun bus.now }
    ensures { IfOk result (IsRunOf bus.now) }
{
    let rows = times_of(alloc, bus)?;
    let hops = hops_of(alloc, bus, rows.as_slice())?;
    let pool = answers(alloc, bus, rows.as_slice())?;
    let grants = grants_of(alloc, bus, rows.as_slice())?;
    Ok(BusRun {
        rows,
        hops,
        pool,
        grants,
    })
}
