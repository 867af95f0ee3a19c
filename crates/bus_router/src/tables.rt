//! The times of all accesses.
ghost use Rattle.std.specs.Prelude.{◌≡◌, ◌<◌, ◌≤◌, IsTrue, IfOk, length};
ghost use Rattle.std.specs.Bool.{MatchBool};
ghost use Rattle.traffic_file.specs.Traffic.{CanRun};
ghost use Rattle.bus_router.specs.Times.{IsTableOf};
ghost use Rattle.bus_router.specs.Making.{done_count, IsMaking};

use crate::plan::{Plan, begin_next, empty_plan, next, serve};
use crate::rows::BusRows;
use std::alloc::{AllocError, Global};
use traffic_file::Bus;

// The first access of each initiator begins.
fn begin_all(plan: &mut Plan, bus: &Bus)
    requires can { CanRun bus.now }
    requires empty { IsMaking bus.now plan.old 0 }
    requires now { plan.old.now ≡ 0 }
    ensures { IsMaking bus.now plan.new (length bus.now.initiators) }
{
    for i in 0..bus.initiators.as_slice().len() {
        begin_next(plan, bus, i as u32, 0, 0);
    }
}

// The next access is served, if one waits; else all rows are made.
fn step(plan: &mut Plan, bus: &Bus) -> Result<bool, AllocError>
    requires can { CanRun bus.now }
    requires making { IsMaking bus.now plan.old (length bus.now.initiators) }
    ensures goes { IfOk result (λ more. MatchBool more (IsMaking bus.now plan.new (length bus.now.initiators)) (IsTableOf bus.now plan.new.rows.items)) }
    ensures count { IfOk result (λ more. IsTrue more → done_count plan.old.rows.items < done_count plan.new.rows.items) }
    ensures few { IfOk result (λ more. IsTrue more → done_count plan.new.rows.items ≤ length bus.now.lines) }
{
    match next(plan)? {
        None => Ok(false),
        Some(k) => {
            serve(plan, bus, k);
            Ok(true)
        }
    }
}

/// The times of each access, in the order of the file.
pub fn times_of(alloc: Global, bus: &Bus) -> Result<BusRows, AllocError>
    requires { CanRun bus.now }
    ensures { IfOk result (IsTableOf bus.now) }
{
    let mut plan = empty_plan(alloc, bus)?;
    begin_all(&mut plan, bus);
    while step(&mut plan, bus)? {}
    Ok(BusRows::from_vec(plan.rows))
}
