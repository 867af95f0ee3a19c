//! New instances.
ghost use Rattle.std.specs.Prelude.{◌≡◌, ◌<◌, ◌≤◌, ◌-◌, ◌+◌, ◌^◌, ◌≢◌, ℕ, not, false, true, IfOk, OnOk, OnErr, Err, length};
ghost use Rattle.std.specs.FinMap as map;
ghost use Rattle.std.specs.FinSet as set;
ghost use Rattle.wait_lists.specs.Waits.{HasRoom};
ghost use Rattle.kernel_processes.specs.InstanceViews.{is_on, shown_at};
ghost use Rattle.kernel_processes.specs.Sound.{IsSound};
ghost use Rattle.kernel_processes.specs.Moves.{MovesOne};
ghost use Rattle.kernel_processes.specs.Moved.{Stays, Spawns, Adds, HasPlaceMore, IsFresh, same_stack, spawned_as, settled_as};

use super::changes::{mark_wait, put_wait};
use super::moves::join;
use crate::{Process, Schedule, Trigger, Wait};
use instance_table::{Deadline, MAX_LIVE, ProcessKind, SpawnStop};
use sim_model::logic_values_api::Items;
use std::alloc::AllocError;
use wait_lists::event_core_api::Ev;

/// Makes room for one instance more.
fn make_places<B>(s: &mut Schedule<B>) -> Result<(), AllocError>
    requires sound { IsSound s.old }
    ensures ok { OnOk result (HasPlaceMore s.new) }
    ensures stays { Stays s.old s.new }
    ensures table { s.new.table ≡ s.old.table }
    ensures sound { IsSound s.new }
{
    let places = s.lists.instances() + 1;
    match s.ready.reserve(places) {
        Ok(()) => {}
        Err(_) => return Err(AllocError),
    }
    match s.stack.reserve(places as usize) {
        Ok(()) => {}
        Err(_) => return Err(AllocError),
    }
    match s.woken.reserve(places as usize) {
        Ok(()) => {}
        Err(_) => return Err(AllocError),
    }
    match s.due.reserve(places as usize) {
        Ok(()) => Ok(()),
        Err(_) => Err(AllocError),
    }
}

/// Makes room for an instance in the wait lists, so that it can wait for its static sensitivity.
fn reserve_lists<B>(s: &mut Schedule<B>, p: u32, sensitive: &[Ev]) -> Result<(), AllocError>
    ensures ok { OnOk result (HasRoom s.new.lists p (length sensitive.now)) }
    ensures kept { s.new ≡ record s.old { lists = record s.old.lists { room = s.new.lists.room } } }
    ensures others { (q : ℕ) → q ≢ p → map.get s.new.lists.room q ≡ map.get s.old.lists.room q }
    ensures err { OnErr result (s.new ≡ s.old) }
{
    match u32::try_from(sensitive.len()) {
        Ok(items) => s.lists.reserve_for(p, items),
        Err(_) => Err(AllocError),
    }
}

/// Adds an instance that waits for nothing and is not runnable.
fn add<B: Drop>(
    s: &mut Schedule<B>,
    p: u32,
    kind: ProcessKind,
    sensitive: Items<Ev>,
    body: B,
) -> Result<(), SpawnStop>
    requires sound { IsSound s.old }
    requires places { HasPlaceMore s.old }
    requires number { p ≡ s.old.table.next }
    requires serials { s.old.table.next + 1 < 2 ^ 32 - 1 }
    ensures adds { OnOk result (Adds p kind sensitive body s.old s.new) }
    ensures few { OnOk result (map.len s.old.table.live < MAX_LIVE) }
    ensures many { (result ≡ Err SpawnStop.TooMany) → map.len s.old.table.live ≡ MAX_LIVE }
    ensures stays { OnErr result (Stays s.old s.new) }
    ensures sound { IsSound s.new }
{
    match reserve_lists(s, p, sensitive.as_slice()) {
        Ok(()) => {}
        Err(_) => return Err(SpawnStop::NoMemory),
    }
    match s.table.spawn(kind, Process { sensitive, body }) {
        Ok(_) => Ok(()),
        Err(stop) => {
            s.lists.forget(p);
            Err(stop)
        }
    }
}

/// Lets a new instance wait for its static sensitivity, or makes it runnable.
fn settle<B>(s: &mut Schedule<B>, p: u32, waits: bool)
    requires sound { IsSound s.old }
    requires fresh { IsFresh p s.old }
    ensures moves { MovesOne p (settled_as waits) (not waits) same_stack s.old s.new }
    ensures sound { IsSound s.new }
{
    if !waits {
        join(s, p);
        return;
    }
    let t = Trigger {
        wait: Wait::Static,
        deadline: Deadline::None,
    };
    put_wait(s, p, &t.wait);
    mark_wait(s, p, &t, false);
}

/// Adds an instance under the next serial, which is answered: it waits for its static sensitivity, or it is runnable at once
/// (IEEE 1666-2011, 5.5). Where it is refused nothing changes.
pub fn spawn<B: Drop>(
    s: &mut Schedule<B>,
    kind: ProcessKind,
    sensitive: Items<Ev>,
    body: B,
    waits: bool,
) -> Result<u32, SpawnStop>
    requires sound { IsSound s.old }
    requires serials { s.old.table.next + 1 < 2 ^ 32 - 1 }
    ensures spawns { IfOk result (λ p. Spawns p (spawned_as kind sensitive waits) body (not waits) s.old s.new) }
    ensures few { OnOk result (map.len s.old.table.live < MAX_LIVE) }
    ensures many { (result ≡ Err SpawnStop.TooMany) → map.len s.old.table.live ≡ MAX_LIVE }
    ensures stays { OnErr result (Stays s.old s.new) }
    ensures sound { IsSound s.new }
{
    match make_places(s) {
        Ok(()) => {}
        Err(_) => return Err(SpawnStop::NoMemory),
    }
    let p = s.table.next_serial();
    match add(s, p, kind, sensitive, body) {
        Ok(()) => {
            settle(s, p, waits);
            Ok(p)
        }
        Err(stop) => Err(stop),
    }
}
