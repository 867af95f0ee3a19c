//! The table while it is made: the rows so far, and what waits.
ghost use Rattle.std.specs.Prelude.{◌≡◌, ℕ, ◌+◌, ◌^◌, ◌<◌, ◌≤◌, IsTrue, IfOk, OnOk, MatchOption, length, replicate, slice_set, slice_index, vec_len};
ghost use Rattle.timed_queue.specs.Timed.{with_time, IsEarliest};
ghost use Rattle.traffic_file.specs.Traffic.{initiator_of, CanRun};
ghost use Rattle.bus_router.specs.Making.{done_count, waiting_row, direct_row, IsServedNow, IsMaking, IsServing, IsReturning, IsOver};
ghost use Rattle.std.specs.Bool.{MatchBool};
ghost use Rattle.traffic_file.specs.declared.Bus.{Bus};

use crate::holding::holds_grant;
use crate::places::{later_of, line_at, target_at};
use crate::rows::BusRow;
use std::alloc::{AllocError, Global};
use timed_queue::sim_time_api::Time;
use timed_queue::{TimedQueue, due_names_are_held};
use traffic_file::Bus;

// The rows so far; when each home has served the last that went there; when what waits arrives; and what of it is due now, from
// a place on.
#[derive(Drop)]
pub(crate) struct Plan {
    pub(crate) rows: Vec<BusRow>,
    pub(crate) busy: Vec<u64>,
    pub(crate) queue: TimedQueue,
    pub(crate) due: Vec<u32>,
    pub(crate) place: usize,
    pub(crate) now: u64,
}

// Access k begins at b, and is on its way to the router.
fn wait(plan: &mut Plan, bus: &Bus, k: usize, b: u64)
    requires there { k < vec_len plan.old.rows }
    requires name { k < 2 ^ 32 }
    requires room { 0 < plan.old.queue.spare }
    requires fits { b + bus.now.delay < 2 ^ 64 }
    ensures rows { plan.new.rows.items ≡ slice_set plan.old.rows.items k (waiting_row b (b + bus.now.delay)) }
    ensures queue { plan.new.queue ≡ with_time plan.old.queue k (record { 0 = b + bus.now.delay }) }
    ensures busy { plan.new.busy ≡ plan.old.busy }
    ensures due { plan.new.due ≡ plan.old.due }
    ensures place { plan.new.place ≡ plan.old.place }
    ensures now { plan.new.now ≡ plan.old.now }
{
    let a = b + bus.delay;
    plan.rows[k] = BusRow {
        b,
        a,
        s: 0,
        e: 0,
        r: 0,
        direct: false,
    };
    plan.queue.set(k as u32, Time(a));
}

fn at_once(b: u64) -> BusRow
    ensures { result ≡ direct_row b }
{
    BusRow {
        b,
        a: b,
        s: b,
        e: b,
        r: b,
        direct: true,
    }
}

// The accesses of k's initiator before k are back, the last of them at `back`: k begins. Answers when it is back, where it is done
// at once.
fn begin(plan: &mut Plan, bus: &Bus, k: usize, back: u64) -> Option<u64>
    ghost started: { ℕ }
    requires can { CanRun bus.now }
    requires there { k < length bus.now.lines }
    requires returning { IsReturning bus.now plan.old started (initiator_of bus.now k) k back }
    ensures begins { MatchOption result (IsMaking bus.now plan.new started) (IsReturning bus.now plan.new started (initiator_of bus.now k) (k + 1)) }
    ensures more { done_count plan.old.rows.items ≤ done_count plan.new.rows.items }
    ensures now { plan.new.now ≡ plan.old.now }
{
    let b = later_of(line_at(bus, k).time, back);
    if holds_grant(bus, plan.rows.as_slice(), k, b) {
        plan.rows[k] = at_once(b);
        return Some(b);
    }
    wait(plan, bus, k, b);
    None
}

// The initiator's accesses below `from` are back, the last of them at `back`: the next begins, and those after it as long as
// they are done at once.
pub(crate) fn begin_next(plan: &mut Plan, bus: &Bus, i: u32, from: usize, back: u64)
    ghost started: { ℕ }
    requires can { CanRun bus.now }
    requires within { from ≤ length bus.now.lines }
    requires returning { IsReturning bus.now plan.old started i from back }
    ensures making { IsMaking bus.now plan.new started }
    ensures more { done_count plan.old.rows.items ≤ done_count plan.new.rows.items }
    ensures now { plan.new.now ≡ plan.old.now }
{
    let mut back = back;
    for k in from..bus.lines.as_slice().len() {
        if line_at(bus, k).initiator == i {
            match begin(plan, bus, k, back) {
                Some(b) => back = b,
                None => return,
            }
        }
    }
}

// The row of access k after it is served.
fn served_row(busy: &mut Vec<u64>, bus: &Bus, k: usize, row: BusRow) -> BusRow
    requires can { CanRun bus.now }
    requires there { k < length bus.now.lines }
    requires homes { length busy.old.items ≡ length bus.now.targets }
    requires low { row.a < 2 ^ 60 }
    requires early { (home : ℕ) → slice_index busy.old.items home < 2 ^ 60 }
    ensures { IsServedNow bus.now k row result busy.old.items busy.new.items }
{
    match bus.map.range_with(line_at(bus, k).address) {
        None => BusRow {
            b: row.b,
            a: row.a,
            s: row.a,
            e: row.a,
            r: row.a + bus.delay,
            direct: false,
        },
        Some(range) => {
            let home = range.target as usize;
            let s = later_of(row.a, busy[home]);
            let e = s + target_at(bus, home).latency;
            busy[home] = e;
            BusRow {
                b: row.b,
                a: row.a,
                s,
                e,
                r: e + bus.delay,
                direct: false,
            }
        }
    }
}

// Access k is served: it is back, and its initiator goes on.
pub(crate) fn serve(plan: &mut Plan, bus: &Bus, k: usize)
    ghost started: { ℕ }
    requires can { CanRun bus.now }
    requires serving { IsServing bus.now plan.old started k }
    ensures making { IsMaking bus.now plan.new started }
    ensures more { done_count plan.old.rows.items < done_count plan.new.rows.items }
{
    let row = served_row(&mut plan.busy, bus, k, plan.rows[k]);
    plan.rows[k] = row;
    begin_next(plan, bus, line_at(bus, k).initiator, k + 1, row.r);
}

// What is in the queue at its earliest time is due now, in the order of the file.
fn take(plan: &mut Plan, t: Time) -> Result<(), AllocError>
    requires { length plan.old.due.items ≤ plan.old.place }
    ensures making { (bus : Bus) (started : ℕ) → IsEarliest plan.old.queue.times t → IsMaking bus plan.old started → OnOk result (IsMaking bus plan.new started) }
    ensures some { IsEarliest plan.old.queue.times t → OnOk result (plan.new.place < length plan.new.due.items) }
    ensures rows { OnOk result (plan.new.rows ≡ plan.old.rows) }
{
    plan.due.clear();
    plan.due.reserve(plan.queue.len() as usize)?;
    due_names_are_held();
    plan.queue.take_due(t, &mut plan.due);
    plan.due.sort_unstable();
    plan.place = 0;
    plan.now = t.0;
    Ok(())
}

// Whether one is due, where the earliest in the queue are due once none is.
fn fill(plan: &mut Plan) -> Result<bool, AllocError>
    ensures fills { (bus : Bus) (started : ℕ) → IsMaking bus plan.old started → IfOk result (λ some. MatchBool some (IsMaking bus plan.new started) (IsOver bus plan.new started)) }
    ensures some { IfOk result (λ some. IsTrue some → plan.new.place < length plan.new.due.items) }
    ensures rows { OnOk result (plan.new.rows ≡ plan.old.rows) }
{
    if plan.place < plan.due.len() {
        return Ok(true);
    }
    match plan.queue.earliest() {
        None => Ok(false),
        Some(t) => {
            take(plan, t)?;
            Ok(true)
        }
    }
}

// The access that is served next, if one waits: the earliest that arrives, of several at one time the first in the file.
pub(crate) fn next(plan: &mut Plan) -> Result<Option<usize>, AllocError>
    ensures next { (bus : Bus) (started : ℕ) → IsMaking bus plan.old started → IfOk result (λ k. MatchOption k (IsOver bus plan.new started) (IsServing bus plan.new started)) }
    ensures rows { OnOk result (plan.new.rows ≡ plan.old.rows) }
{
    if !fill(plan)? {
        return Ok(None);
    }
    let k = plan.due[plan.place];
    plan.place += 1;
    Ok(Some(k as usize))
}

// A plan in which no access has begun.
pub(crate) fn empty_plan(alloc: Global, bus: &Bus) -> Result<Plan, AllocError>
    requires { CanRun bus.now }
    ensures making { IfOk result (λ plan. IsMaking bus.now plan 0) }
    ensures now { IfOk result (λ plan. plan.now ≡ 0) }
{
    let lines = bus.lines.as_slice().len();
    let rows = zero_rows(alloc, lines)?;
    let busy = zeros(alloc, bus.targets.as_slice().len())?;
    let mut queue = TimedQueue::new(alloc);
    queue.reserve(lines as u32)?;
    Ok(Plan {
        rows,
        busy,
        queue,
        due: Vec::new(alloc),
        place: 0,
        now: 0,
    })
}

fn zeros(alloc: Global, n: usize) -> Result<Vec<u64>, AllocError>
    ensures { IfOk result (λ times. times.items ≡ replicate n 0) }
{
    vec![in alloc; 0; n]
}

fn zero_rows(alloc: Global, n: usize) -> Result<Vec<BusRow>, AllocError>
    ensures { IfOk result (λ rows. rows.items ≡ replicate n (waiting_row 0 0)) }
{
    let row = BusRow {
        b: 0,
        a: 0,
        s: 0,
        e: 0,
        r: 0,
        direct: false,
    };
    vec![in alloc; row; n]
}
