//! The waits as they are kept: a place for each instance that has room, at the place its waiter, and a node for each event of
//! each wait, in the list of the event and in that of the waiter.
ghost use Rattle.std.specs.Prelude.{◌≡◌, ◌≢◌, ℕ, ◌+◌, ◌^◌, ◌<◌, ◌≤◌, [], ◌∷◌, ◌++◌, true, false, Some, None, IfSome, length, drop, slice_get, slice_set, vec_capacity};
ghost use Rattle.std.specs.Ordering.{nat_cmp};
ghost use Rattle.std.specs.FinMap as map;
ghost use Rattle.wait_lists.specs.Waits.{no_waits, with_wait, with_mark, without_instance, room_for};
ghost use Rattle.wait_lists.specs.Shown.{Shown, listed};
ghost use Rattle.wait_lists.specs.Chains.{none};
ghost use Rattle.wait_lists.specs.declared.waiter.Waiter.{Waiter};
ghost use Rattle.wait_lists.specs.Nodes.{code_of, event_of};
ghost use Rattle.wait_lists.specs.Layout.{IsSound, IsUsed, IsOf, IsShorter, IsCutAt, IsOver, shown_by, waits_by};

use crate::heads::Heads;
use crate::linking::{cut_event, cut_wait, put_event, put_wait};
use crate::nodes::{FREE, NONE, Node};
use crate::waiter::{Waiter, set_kind, set_muted, set_over, set_room};
use event_core::Ev;
use room_map::RoomMap;
use std::alloc::{AllocError, Global};

#[derive(Drop)]
pub(crate) struct Kept {
    // By serial.
    pub(crate) places: RoomMap<u32, u32>,
    // By place.
    pub(crate) waiters: Vec<Waiter>,
    // The places that no instance has.
    pub(crate) vacant: Vec<u32>,
    pub(crate) nodes: Vec<Node>,
    pub(crate) heads: Heads,
    // For how many events there is room, in all.
    pub(crate) total: u64,
}

pub(crate) fn nothing_kept(alloc: Global) -> Kept
    ensures sound { IsSound result }
    ensures nobody { waits_by result ≡ no_waits }
{
    Kept {
        places: RoomMap::new(alloc),
        waiters: Vec::new(alloc),
        vacant: Vec::new(alloc),
        nodes: Vec::new(alloc),
        heads: Heads::new(alloc),
        total: 0,
    }
}

#[inline(always)]
pub(crate) fn event_code(e: Ev) -> u64
    ensures { result ≡ code_of e }
{
    match e {
        Ev::Fixed(n) => 3 * u64::from(n) + 2,
        Ev::Terminated(n) => 3 * u64::from(n) + 3,
        Ev::Restarted(n) => 3 * u64::from(n) + 4,
    }
}

// Takes a node out of the list of its event and out of that of its waiter. It is free from now on.
pub(crate) fn drop_node(kept: &mut Kept, i: u32)
    requires sound { IsSound kept.old }
    requires used { IsUsed kept.old i }
    ensures sound { IsSound kept.new }
    ensures places { kept.new.places ≡ kept.old.places }
    ensures vacant { kept.new.vacant ≡ kept.old.vacant }
    ensures total { kept.new.total ≡ kept.old.total }
    ensures len { length kept.new.waiters.items ≡ length kept.old.waiters.items }
    ensures shorter { (at : ℕ) (s : Shown) → IsOf kept.old at i → slice_get (shown_by kept.old) at ≡ Some s → IsShorter kept.old kept.new at i s }
    ensures cut { (at : ℕ) → IsOf kept.old at i → IsCutAt kept.old kept.new at }
{
    cut_event(&mut kept.nodes, &mut kept.heads, i);
    put_event(&mut kept.nodes, &mut kept.heads, i, FREE);
    cut_wait(&mut kept.nodes, &mut kept.waiters, i);
}

// Lets the waiter at this place wait for the event of this code too, before all others. It has room for that.
#[inline(always)]
fn add_node(kept: &mut Kept, at: u32, code: u64)
    requires sound { IsSound kept.old }
    requires event { 1 < code }
    requires inside { at < length kept.old.waiters.items }
    requires room { (s : Shown) → slice_get (shown_by kept.old) at ≡ Some s → length s.events < s.room }
    ensures sound { IsSound kept.new }
    ensures places { kept.new.places ≡ kept.old.places }
    ensures vacant { kept.new.vacant ≡ kept.old.vacant }
    ensures total { kept.new.total ≡ kept.old.total }
    ensures len { length kept.new.waiters.items ≡ length kept.old.waiters.items }
    ensures more { (s : Shown) → slice_get (shown_by kept.old) at ≡ Some s → shown_by kept.new ≡ slice_set (shown_by kept.old) at (record s { events = event_of code ∷ s.events }) }
{
    let i = kept.heads.free;
    cut_event(&mut kept.nodes, &mut kept.heads, i);
    put_event(&mut kept.nodes, &mut kept.heads, i, code);
    put_wait(&mut kept.nodes, &mut kept.waiters, i, at);
}

// The first node of the list of the waiter at this place.
#[inline(always)]
pub(crate) fn first_node(kept: &Kept, at: u32) -> u32
    requires { at < length kept.now.waiters.items }
    ensures { (w : Waiter) → slice_get kept.now.waiters.items at ≡ Some w → result ≡ w.first }
{
    kept.waiters[at as usize].first
}

// For how many events the waiter at this place has room.
#[inline(always)]
pub(crate) fn room_at(kept: &Kept, at: u32) -> u32
    requires { at < length kept.now.waiters.items }
    ensures { (w : Waiter) → slice_get kept.now.waiters.items at ≡ Some w → result ≡ w.room }
{
    kept.waiters[at as usize].room
}

// Takes the waiter at this place out of all lists.
#[inline(always)]
pub(crate) fn clear_wait(kept: &mut Kept, at: u32)
    requires sound { IsSound kept.old }
    requires inside { at < length kept.old.waiters.items }
    ensures sound { IsSound kept.new }
    ensures places { kept.new.places ≡ kept.old.places }
    ensures vacant { kept.new.vacant ≡ kept.old.vacant }
    ensures total { kept.new.total ≡ kept.old.total }
    ensures len { length kept.new.waiters.items ≡ length kept.old.waiters.items }
    ensures cleared { (s : Shown) → slice_get (shown_by kept.old) at ≡ Some s → shown_by kept.new ≡ slice_set (shown_by kept.old) at (record s { events = [] }) }
    ensures cut { IsCutAt kept.old kept.new at }
{
    let mut first = first_node(kept, at);
    while first != NONE {
        drop_node(kept, first);
        first = first_node(kept, at);
    }
}

// Ends the wait of the waiter at this place. Its nodes stay.
#[inline(always)]
pub(crate) fn end_at(kept: &mut Kept, at: u32)
    requires sound { IsSound kept.old }
    requires inside { at < length kept.old.waiters.items }
    ensures sound { IsSound kept.new }
    ensures places { kept.new.places ≡ kept.old.places }
    ensures over { (s : Shown) → slice_get (shown_by kept.old) at ≡ Some s → IsOver kept.old kept.new at s }
{
    set_over(&mut kept.waiters, at, true);
}

// Lets the waiter at this place wait again for the events of its nodes.
#[inline(always)]
fn resume(kept: &mut Kept, at: u32)
    requires sound { IsSound kept.old }
    requires inside { at < length kept.old.waiters.items }
    ensures sound { IsSound kept.new }
    ensures places { kept.new.places ≡ kept.old.places }
    ensures resumed { (s : Shown) → slice_get (shown_by kept.old) at ≡ Some s → shown_by kept.new ≡ slice_set (shown_by kept.old) at (record s { over = false }) }
{
    set_over(&mut kept.waiters, at, false);
}

// Whether these events are those of the nodes of the waiter at this place, in the order of its list.
#[inline(always)]
fn has_nodes_for(kept: &Kept, at: u32, list: &[Ev]) -> bool
    requires sound { IsSound kept.now }
    requires inside { at < length kept.now.waiters.items }
    ensures { (s : Shown) → slice_get (shown_by kept.now) at ≡ Some s → result ≡ true → s.events ≡ list.now }
{
    let mut i = first_node(kept, at);
    let mut k = 0;
    while k < list.len() {
        if i == NONE {
            return false;
        }
        let node = kept.nodes[i as usize];
        if node.code != event_code(list[k]) {
            return false;
        }
        i = node.after;
        k += 1;
    }
    i == NONE
}

// Whether the nodes of the waiter at this place are those of such a wait.
#[inline(always)]
fn is_linked(kept: &Kept, at: u32, for_all: bool, list: &[Ev]) -> bool
    requires sound { IsSound kept.now }
    requires inside { at < length kept.now.waiters.items }
    ensures { (s : Shown) → slice_get (shown_by kept.now) at ≡ Some s → result ≡ true → (s.for_all ≡ for_all) × (s.events ≡ list.now) }
{
    kept.waiters[at as usize].for_all == for_all && has_nodes_for(kept, at, list)
}

// Lets a waiter that waits for nothing wait for these events, for which it has room.
#[inline(always)]
fn begin_wait(kept: &mut Kept, at: u32, for_all: bool, list: &[Ev])
    requires sound { IsSound kept.old }
    requires inside { at < length kept.old.waiters.items }
    requires free { (s : Shown) → slice_get (shown_by kept.old) at ≡ Some s → (s.events ≡ []) × (length list.now ≤ s.room) }
    ensures sound { IsSound kept.new }
    ensures places { kept.new.places ≡ kept.old.places }
    ensures begun { (s : Shown) → slice_get (shown_by kept.old) at ≡ Some s → shown_by kept.new ≡ slice_set (shown_by kept.old) at (record s { for_all = for_all; events = list.now; over = false }) }
{
    set_kind(&mut kept.waiters, at, for_all);
    list_events(kept, at, list);
}

// Lets a waiter that waits for nothing yet wait for these events, from the last to the first.
#[inline(always)]
fn list_events(kept: &mut Kept, at: u32, list: &[Ev])
    requires sound { IsSound kept.old }
    requires inside { at < length kept.old.waiters.items }
    requires free { (s : Shown) → slice_get (shown_by kept.old) at ≡ Some s → (s.events ≡ []) × (length list.now ≤ s.room) }
    ensures sound { IsSound kept.new }
    ensures places { kept.new.places ≡ kept.old.places }
    ensures begun { (s : Shown) → slice_get (shown_by kept.old) at ≡ Some s → shown_by kept.new ≡ slice_set (shown_by kept.old) at (record s { events = list.now }) }
{
    let mut k = list.len();
    while 0 < k {
        k -= 1;
        add_node(kept, at, event_code(list[k]));
    }
}

// The place of the instance, if it has one. It is looked for first at the place of its own number.
#[inline(always)]
pub(crate) fn place_of(kept: &Kept, p: u32) -> Option<u32>
    requires { IsSound kept.now }
    ensures { result ≡ map.find nat_cmp p kept.now.places.entries }
{
    if (p as usize) < kept.waiters.len() {
        let waiter = kept.waiters[p as usize];
        if waiter.serial == p && 0 < waiter.room {
            return Some(p);
        }
    }
    kept.places.get(p)
}

// Lets the instance wait for any or for all of these events, in place of what it waited for.
#[inline(always)]
pub(crate) fn set_wait(kept: &mut Kept, p: u32, for_all: bool, list: &[Ev])
    requires sound { IsSound kept.old }
    requires room { length list.now ≤ room_for (waits_by kept.old) p }
    ensures sound { IsSound kept.new }
    ensures waits { waits_by kept.new ≡ with_wait (waits_by kept.old) p (listed for_all list.now) }
{
    if let Some(at) = place_of(kept, p) {
        wait_at(kept, at, for_all, list);
    }
}

// Lets the waiter at this place wait for any or for all of these events, for which it has room, in place of what it waited for.
#[inline(always)]
fn wait_at(kept: &mut Kept, at: u32, for_all: bool, list: &[Ev])
    requires sound { IsSound kept.old }
    requires inside { at < length kept.old.waiters.items }
    requires room { (s : Shown) → slice_get (shown_by kept.old) at ≡ Some s → length list.now ≤ s.room }
    ensures sound { IsSound kept.new }
    ensures places { kept.new.places ≡ kept.old.places }
    ensures begun { (s : Shown) → slice_get (shown_by kept.old) at ≡ Some s → shown_by kept.new ≡ slice_set (shown_by kept.old) at (record s { for_all = for_all; events = list.now; over = false }) }
{
    if is_linked(kept, at, for_all, list) {
        resume(kept, at);
    } else {
        relink(kept, at, for_all, list);
    }
}

// Links nodes for these events, for which the waiter at this place has room, in place of its own.
#[inline(never)]
fn relink(kept: &mut Kept, at: u32, for_all: bool, list: &[Ev])
    requires sound { IsSound kept.old }
    requires inside { at < length kept.old.waiters.items }
    requires room { (s : Shown) → slice_get (shown_by kept.old) at ≡ Some s → length list.now ≤ s.room }
    ensures sound { IsSound kept.new }
    ensures places { kept.new.places ≡ kept.old.places }
    ensures begun { (s : Shown) → slice_get (shown_by kept.old) at ≡ Some s → shown_by kept.new ≡ slice_set (shown_by kept.old) at (record s { for_all = for_all; events = list.now; over = false }) }
{
    clear_wait(kept, at);
    begin_wait(kept, at, for_all, list);
}

// Ends the wait of the instance.
#[inline(always)]
pub(crate) fn end_wait(kept: &mut Kept, p: u32)
    requires { IsSound kept.old }
    ensures sound { IsSound kept.new }
    ensures waits { waits_by kept.new ≡ with_wait (waits_by kept.old) p None }
{
    if let Some(at) = place_of(kept, p) {
        end_at(kept, at);
    }
}

pub(crate) fn set_mark(kept: &mut Kept, p: u32, on: bool)
    requires sound { IsSound kept.old }
    requires room { map.contains_key (waits_by kept.old).room p ≡ true }
    ensures sound { IsSound kept.new }
    ensures waits { waits_by kept.new ≡ with_mark (waits_by kept.old) p on }
{
    if let Some(at) = place_of(kept, p) {
        set_muted(&mut kept.waiters, at, on);
    }
}

// Takes the instance out, with its mark and its room.
pub(crate) fn put_out(kept: &mut Kept, p: u32)
    requires { IsSound kept.old }
    ensures sound { IsSound kept.new }
    ensures waits { waits_by kept.new ≡ without_instance (waits_by kept.old) p }
{
    if let Some(at) = place_of(kept, p) {
        clear_wait(kept, at);
        vacate(kept, p, at);
    }
}

// Takes the place of an instance that waits for nothing.
fn vacate(kept: &mut Kept, p: u32, at: u32)
    requires sound { IsSound kept.old }
    requires place { map.find nat_cmp p kept.old.places.entries ≡ Some at }
    requires free { (s : Shown) → slice_get (shown_by kept.old) at ≡ Some s → s.events ≡ [] }
    ensures sound { IsSound kept.new }
    ensures waits { waits_by kept.new ≡ without_instance (waits_by kept.old) p }
{
    kept.total -= u64::from(room_at(kept, at));
    set_room(&mut kept.waiters, at, 0);
    kept.vacant.push_reserved(at);
    kept.places.remove(p);
}
