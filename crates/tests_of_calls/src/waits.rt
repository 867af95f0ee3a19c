//! Waits of instances, against plain lists.

use crate::draws::Draws;
use std::alloc::AllocError;
use std::test::Fail;
use wait_lists::{Ev, WaitLists, as_many_as_have_room, who_waits_has_room};

// The last twelve serials that there are begin here.
const FIRST: u32 = u32::MAX - 11;

// The serials of the test, in rising order: eight that may be numbers of places, and the last four that there are.
fn serial(at: u32) -> u32 {
    if at < 8 { at } else { FIRST.saturating_add(at) }
}

// What one instance waits for, as a plain list keeps it.
#[derive(Drop)]
struct Plain {
    events: Vec<Ev>,
    for_all: bool,
    is_muted: bool,
}

fn draw_event(draws: &mut Draws) -> Ev {
    match draws.below(10) {
        0 => Ev::Fixed(0),
        1 => Ev::Fixed(u32::MAX),
        2 => Ev::Terminated(0),
        3 => Ev::Terminated(u32::MAX),
        4 => Ev::Restarted(0),
        5 => Ev::Restarted(u32::MAX),
        // Codes for which there is a place from a few nodes on.
        6 => Ev::Fixed(12),
        7 => Ev::Fixed(60),
        8 => Ev::Terminated(150),
        _ => Ev::Fixed(1),
    }
}

// Fires the event, with room for all that may come out.
fn fire(lists: &mut WaitLists, e: Ev, out: &mut Vec<u32>) -> Result<(), AllocError> {
    out.clear();
    out.push(7)?;
    out.reserve(lists.instances() as usize)?;
    who_waits_has_room(lists);
    as_many_as_have_room();
    lists.fire(e, out);
    Ok(())
}

// What `fire` gives, found by a look at each.
fn plain_fire(plain: &mut [Plain], e: Ev, out: &mut Vec<u32>) -> Result<(), AllocError> {
    out.clear();
    out.push(7)?;
    let mut at = 0u32;
    for waiter in plain.iter_mut() {
        if !waiter.is_muted && waiter.events.contains(&e) {
            if waiter.for_all {
                waiter.events.retain(|x| *x != e);
            } else {
                waiter.events.clear();
            }
            if waiter.events.is_empty() {
                out.push(serial(at))?;
            }
        }
        at = at.saturating_add(1);
    }
    Ok(())
}

// Lets the instance wait for these events, or for nothing, on the lists and on the plain list.
fn wait(
    lists: &mut WaitLists,
    waiter: &mut Plain,
    p: u32,
    for_all: bool,
    list: &[Ev],
) -> Result<(), AllocError> {
    let Ok(items) = u32::try_from(list.len()) else {
        return Err(AllocError);
    };
    lists.reserve_for(p, items)?;
    if for_all {
        lists.wait_all(p, list);
    } else {
        lists.wait_any(p, list);
    }
    waiter.for_all = for_all;
    waiter.events.clear();
    waiter.events.extend_from_slice(list)
}

// Mutes the instance, or ends that, on both.
fn mute(lists: &mut WaitLists, waiter: &mut Plain, p: u32, on: bool) -> Result<(), AllocError> {
    lists.reserve_for(p, 1)?;
    lists.mute(p, on);
    waiter.is_muted = on;
    Ok(())
}

// Makes another call than `fire` for the instance, on both.
fn change(
    lists: &mut WaitLists,
    waiter: &mut Plain,
    p: u32,
    draws: &mut Draws,
    list: &[Ev],
) -> Result<(), AllocError> {
    match draws.below(10) {
        0 | 1 | 2 => wait(lists, waiter, p, false, list),
        3 | 4 | 5 | 6 => wait(lists, waiter, p, true, list),
        7 => {
            lists.leave(p);
            waiter.events.clear();
            Ok(())
        }
        8 => mute(lists, waiter, p, draws.below(3) == 0),
        _ => {
            lists.forget(p);
            waiter.is_muted = false;
            waiter.events.clear();
            Ok(())
        }
    }
}

// One to six events, of which some may stand twice.
fn draw_list(draws: &mut Draws, list: &mut Vec<Ev>) -> Result<(), AllocError> {
    list.clear();
    for _ in 0..=draws.below(6) {
        list.push(draw_event(draws))?;
    }
    Ok(())
}

// Two thousand calls as a generator draws them, on the lists and on plain lists.
#[test]
fn events_give_what_plain_lists_give(rt: HostRuntime) -> Result<(), Fail> {
    let mut lists = WaitLists::new(rt.alloc());
    let mut plain = Vec::new(rt.alloc());
    for _ in 0..12u32 {
        plain.push(Plain {
            events: Vec::new(rt.alloc()),
            for_all: false,
            is_muted: false,
        })?;
    }
    let mut out = Vec::new(rt.alloc());
    let mut wanted = Vec::new(rt.alloc());
    let mut list = Vec::new(rt.alloc());
    let mut draws = Draws::new();
    for _ in 0..2000u32 {
        let at = draws.below(12);
        draw_list(&mut draws, &mut list)?;
        if let Some(waiter) = plain.get_mut(at as usize) {
            change(&mut lists, waiter, serial(at), &mut draws, list.as_slice())?;
        }
        let e = draw_event(&mut draws);
        if draws.below(2) == 0 {
            fire(&mut lists, e, &mut out)?;
            plain_fire(plain.as_mut_slice(), e, &mut wanted)?;
            assert_eq!(rt; out.as_slice(), wanted.as_slice());
        }
    }
    Ok(())
}
