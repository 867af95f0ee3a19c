//! Room for more instances, and for more events that are waited for.
ghost use Rattle.std.specs.Prelude.{◌≡◌, ◌+◌, ◌<◌, ◌≤◌, ◌^◌, None, Some, OnOk, OnErr, length, max, vec_len, vec_capacity};
ghost use Rattle.std.specs.Ordering.{nat_cmp};
ghost use Rattle.std.specs.FinMap as map;
ghost use Rattle.wait_lists.specs.Waits.{with_room, room_for};
ghost use Rattle.wait_lists.specs.Chains.{none};
ghost use Rattle.wait_lists.specs.Layout.{IsSound, shown_by, waits_by};

use crate::layout::{Kept, place_of, room_at};
use crate::linking::put_event;
use crate::nodes::{FREE, NONE, loose_node};
use crate::waiter::{idle_waiter, put_waiter, set_room};
use std::alloc::AllocError;

// Adds a free node, for which memory was taken.
fn add_free(kept: &mut Kept)
    requires sound { IsSound kept.old }
    requires memory { vec_len kept.old.nodes < vec_capacity kept.old.nodes }
    requires room { length kept.old.nodes.items + 1 ≤ length kept.old.heads.events.far.entries + kept.old.heads.events.far.spare }
    requires few { length kept.old.nodes.items < none }
    ensures sound { IsSound kept.new }
    ensures shown { shown_by kept.new ≡ shown_by kept.old }
    ensures places { kept.new.places ≡ kept.old.places }
    ensures waiters { kept.new.waiters ≡ kept.old.waiters }
    ensures vacant { kept.new.vacant ≡ kept.old.vacant }
    ensures total { kept.new.total ≡ kept.old.total }
    ensures one_more { length kept.new.nodes.items ≡ length kept.old.nodes.items + 1 }
    ensures memory { vec_capacity kept.new.nodes ≡ vec_capacity kept.old.nodes }
    ensures room { length kept.new.heads.events.far.entries + kept.new.heads.events.far.spare ≡ length kept.old.heads.events.far.entries + kept.old.heads.events.far.spare }
{
    let i = kept.nodes.len() as u32;
    kept.nodes.push_reserved(loose_node());
    put_event(&mut kept.nodes, &mut kept.heads, i, FREE);
}

// Makes nodes for so many events more than there is room for.
#[inline(never)]
fn make_nodes(kept: &mut Kept, more: u32) -> Result<(), AllocError>
    requires { IsSound kept.old }
    ensures sound { IsSound kept.new }
    ensures shown { shown_by kept.new ≡ shown_by kept.old }
    ensures places { kept.new.places ≡ kept.old.places }
    ensures waiters { kept.new.waiters ≡ kept.old.waiters }
    ensures vacant { kept.new.vacant ≡ kept.old.vacant }
    ensures total { kept.new.total ≡ kept.old.total }
    ensures ok { OnOk result (kept.old.total + more ≤ length kept.new.nodes.items) }
{
    let wanted = kept.total + u64::from(more);
    if u64::from(NONE) < wanted {
        return Err(AllocError);
    }
    reserve_nodes(kept, wanted as usize)?;
    while kept.nodes.len() < wanted as usize {
        add_free(kept);
    }
    Ok(())
}

// Takes memory for so many nodes in all.
fn reserve_nodes(kept: &mut Kept, wanted: usize) -> Result<(), AllocError>
    requires sound { IsSound kept.old }
    requires few { wanted ≤ none }
    ensures sound { IsSound kept.new }
    ensures shown { shown_by kept.new ≡ shown_by kept.old }
    ensures places { kept.new.places ≡ kept.old.places }
    ensures waiters { kept.new.waiters ≡ kept.old.waiters }
    ensures vacant { kept.new.vacant ≡ kept.old.vacant }
    ensures total { kept.new.total ≡ kept.old.total }
    ensures memory { OnOk result (wanted ≤ vec_capacity kept.new.nodes) }
    ensures room { OnOk result (wanted ≤ length kept.new.heads.events.far.entries + kept.new.heads.events.far.spare) }
{
    kept.nodes.reserve(wanted.saturating_sub(kept.nodes.len()))?;
    kept.heads.reserve(wanted as u32)
}

// Makes a place that no instance has, if there is none.
fn make_place(kept: &mut Kept) -> Result<(), AllocError>
    requires { IsSound kept.old }
    ensures sound { IsSound kept.new }
    ensures waits { waits_by kept.new ≡ waits_by kept.old }
    ensures places { kept.new.places ≡ kept.old.places }
    ensures total { kept.new.total ≡ kept.old.total }
    ensures nodes { kept.new.nodes ≡ kept.old.nodes }
    ensures ok { OnOk result (0 < length kept.new.vacant.items) }
{
    if !kept.vacant.is_empty() {
        return Ok(());
    }
    if NONE as usize <= kept.waiters.len() {
        return Err(AllocError);
    }
    kept.waiters.reserve(1)?;
    kept.vacant.reserve(kept.waiters.len() + 1)?;
    add_place(kept);
    Ok(())
}

// Adds a place that no instance has, where all others are taken and there is memory for it.
fn add_place(kept: &mut Kept)
    requires sound { IsSound kept.old }
    requires taken { length kept.old.vacant.items ≡ 0 }
    requires few { length kept.old.waiters.items < none }
    requires memory { vec_len kept.old.waiters < vec_capacity kept.old.waiters }
    requires room { length kept.old.waiters.items + 1 ≤ vec_capacity kept.old.vacant }
    ensures sound { IsSound kept.new }
    ensures waits { waits_by kept.new ≡ waits_by kept.old }
    ensures places { kept.new.places ≡ kept.old.places }
    ensures total { kept.new.total ≡ kept.old.total }
    ensures nodes { kept.new.nodes ≡ kept.old.nodes }
    ensures one { 0 < length kept.new.vacant.items }
{
    let at = kept.waiters.len() as u32;
    kept.waiters.push_reserved(idle_waiter(0, 0));
    kept.vacant.push_reserved(at);
}

// Gives the instance a place that none has, with room for so many events.
fn take_place(kept: &mut Kept, p: u32, items: u32)
    requires sound { IsSound kept.old }
    requires absent { map.find nat_cmp p kept.old.places.entries ≡ None }
    requires spare { 0 < kept.old.places.spare }
    requires vacant { 0 < length kept.old.vacant.items }
    requires enough { kept.old.total + items ≤ length kept.old.nodes.items }
    ensures sound { IsSound kept.new }
    ensures waits { waits_by kept.new ≡ with_room (waits_by kept.old) p items }
{
    if let Some(at) = kept.vacant.pop() {
        put_waiter(&mut kept.waiters, at, idle_waiter(p, items));
        kept.places.insert(p, at);
        kept.total += u64::from(items);
    }
}

// Makes room for an instance that has none, and for so many events.
#[inline(never)]
fn admit(kept: &mut Kept, p: u32, items: u32) -> Result<(), AllocError>
    requires sound { IsSound kept.old }
    requires absent { map.find nat_cmp p kept.old.places.entries ≡ None }
    ensures sound { IsSound kept.new }
    ensures ok { OnOk result (waits_by kept.new ≡ with_room (waits_by kept.old) p items) }
    ensures err { OnErr result (waits_by kept.new ≡ waits_by kept.old) }
{
    // for as many again, so that one instance after another asks seldom
    kept.places.reserve(kept.places.len().max(1))?;
    make_nodes(kept, items)?;
    make_place(kept)?;
    take_place(kept, p, items);
    Ok(())
}

// Makes room for so many events of an instance that has room.
#[inline(always)]
fn widen(kept: &mut Kept, p: u32, at: u32, items: u32) -> Result<(), AllocError>
    requires sound { IsSound kept.old }
    requires place { map.find nat_cmp p kept.old.places.entries ≡ Some at }
    ensures sound { IsSound kept.new }
    ensures ok { OnOk result (waits_by kept.new ≡ with_room (waits_by kept.old) p (max items (room_for (waits_by kept.old) p))) }
    ensures err { OnErr result (waits_by kept.new ≡ waits_by kept.old) }
{
    let room = room_at(kept, at);
    if items <= room {
        return Ok(());
    }
    make_nodes(kept, items - room)?;
    set_room(&mut kept.waiters, at, items);
    kept.total += u64::from(items - room);
    Ok(())
}

// Makes room for the instance, so that it can wait for so many events.
#[inline(always)]
pub(crate) fn make_room(kept: &mut Kept, p: u32, items: u32) -> Result<(), AllocError>
    requires { IsSound kept.old }
    ensures sound { IsSound kept.new }
    ensures ok { OnOk result (waits_by kept.new ≡ with_room (waits_by kept.old) p (max items (room_for (waits_by kept.old) p))) }
    ensures err { OnErr result (waits_by kept.new ≡ waits_by kept.old) }
{
    match place_of(kept, p) {
        Some(at) => widen(kept, p, at, items),
        None => admit(kept, p, items),
    }
}
