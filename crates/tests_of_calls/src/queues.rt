//! A queue of names by time, against a plain list.

use crate::draws::Draws;
use std::alloc::AllocError;
use std::test::Fail;
use timed_queue::sim_time_api::Time;
use timed_queue::{TimedQueue, due_names_are_held};

// A time behind this one, or any: of each number of bits, and some of them again and again.
fn draw_time(draws: &mut Draws, earliest: Option<Time>) -> Time {
    let unit = 1u64.checked_shl(draws.below(64)).unwrap_or(1);
    let time = u64::from(draws.below(3)).saturating_mul(unit);
    match earliest {
        Some(t) if draws.below(4) > 0 => Time(time.saturating_add(t.0)),
        _ => Time(time),
    }
}

// Gives the name this time, or none, in the queue and in the plain list.
fn change(
    queue: &mut TimedQueue,
    plain: &mut [Option<Time>],
    name: u32,
    time: Option<Time>,
) -> Result<(), AllocError> {
    match time {
        Some(t) => {
            queue.reserve(1)?;
            queue.set(name, t);
        }
        None => queue.clear(name),
    }
    if let Some(held) = plain.get_mut(name as usize) {
        *held = time;
    }
    Ok(())
}

// Takes the names with this time out.
fn take(queue: &mut TimedQueue, t: Time, out: &mut Vec<u32>) -> Result<(), AllocError> {
    out.clear();
    out.reserve(queue.len() as usize)?;
    due_names_are_held();
    queue.take_due(t, out);
    Ok(())
}

// What `take` gives, found by a look at each.
fn plain_take(plain: &mut [Option<Time>], t: Time, out: &mut Vec<u32>) -> Result<(), AllocError> {
    out.clear();
    let mut name = 0u32;
    for held in plain.iter_mut() {
        if *held == Some(t) {
            *held = None;
            out.push(name)?;
        }
        name = name.saturating_add(1);
    }
    Ok(())
}

// The earliest time of all, found by a look at each.
fn plain_earliest(plain: &[Option<Time>]) -> Option<Time> {
    let mut earliest: Option<Time> = None;
    for held in plain {
        match (*held, earliest) {
            (None, _) => {}
            (Some(t), Some(least)) if least <= t => {}
            (Some(_), _) => earliest = *held,
        }
    }
    earliest
}

// Two thousand calls as a generator draws them, on the queue and on a plain list of the time of each name.
#[test]
fn names_come_as_a_plain_list_gives_them(rt: HostRuntime) -> Result<(), Fail> {
    let mut queue = TimedQueue::new(rt.alloc());
    let mut plain = Vec::new(rt.alloc());
    plain.resize(24, None)?;
    let mut out = Vec::new(rt.alloc());
    let mut wanted = Vec::new(rt.alloc());
    let mut draws = Draws::new();
    for _ in 0..2000u32 {
        let name = draws.below(24);
        let t = draw_time(&mut draws, queue.earliest());
        let time = if draws.below(5) > 0 { Some(t) } else { None };
        change(&mut queue, plain.as_mut_slice(), name, time)?;
        let earliest = queue.earliest();
        assert_eq!(rt; earliest, plain_earliest(plain.as_slice()));
        let due = if draws.below(2) == 0 { earliest } else { time };
        if let Some(t) = due {
            take(&mut queue, t, &mut out)?;
            plain_take(plain.as_mut_slice(), t, &mut wanted)?;
            assert_eq!(rt; out.as_slice(), wanted.as_slice());
        }
    }
    Ok(())
}
