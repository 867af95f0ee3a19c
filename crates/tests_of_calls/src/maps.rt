//! A map with room, at numbers.

use crate::draws::Draws;
use room_map::RoomMap;
use std::alloc::AllocError;
use std::test::Fail;

// Puts the value at the key, whether there is one or not.
fn put(map: &mut RoomMap<u32, u64>, key: u32, value: u64) -> Result<(), AllocError> {
    match map.get(key) {
        Some(_) => map.replace(key, value),
        None => {
            map.reserve(1)?;
            map.insert(key, value);
        }
    }
    Ok(())
}

// Each public call. The wanted values are worked out by hand.
#[test]
fn entries_come_in_the_order_of_their_keys(rt: HostRuntime) -> Result<(), Fail> {
    let mut map = RoomMap::new(rt.alloc());
    assert!(rt; map.is_empty());
    for (key, value) in [(30, 1), (10, 2), (20, 3), (30, 4)] {
        put(&mut map, key, value)?;
    }
    map.reserve(2)?;
    for (k, wanted) in [(0, Some((10, 2))), (1, Some((20, 3))), (3, None)] {
        assert_eq!(rt; map.kth(k), wanted);
    }
    assert_eq!(rt; map.least(), Some((10, 2)));
    assert_eq!(rt; map.greatest(), Some((30, 4)));
    for (key, found, next) in [
        (10, Some(2), Some((10, 2))),
        (11, None, Some((20, 3))),
        (31, None, None),
    ] {
        assert_eq!(rt; map.get(key), found);
        assert_eq!(rt; map.contains(key), found.is_some());
        assert_eq!(rt; map.first_not_below(key), next);
    }
    assert_eq!(rt; map.remove(20), Some(3));
    assert_eq!(rt; map.remove(20), None);
    assert_eq!(rt; map.len(), 2);
    assert_eq!(rt; map.spare(), 3);
    Ok(())
}

// All entries, by their places.
fn entries(map: &RoomMap<u32, u64>, out: &mut Vec<(u32, u64)>) -> Result<(), AllocError> {
    out.clear();
    for k in 0..map.len() {
        if let Some(entry) = map.kth(k) {
            out.push(entry)?;
        }
    }
    Ok(())
}

// What `entries` gives from this key on, of a plain list of the value of each key.
fn plain_entries(
    plain: &[Option<u64>],
    from: u32,
    out: &mut Vec<(u32, u64)>,
) -> Result<(), AllocError> {
    out.clear();
    let mut key = 0u32;
    for held in plain {
        match *held {
            Some(value) if key >= from => out.push((key, value))?,
            _ => {}
        }
        key = key.saturating_add(1);
    }
    Ok(())
}

// Two thousand calls as a generator draws them, on the map and on a plain list of the value of each key.
#[test]
fn entries_are_those_of_a_plain_list(rt: HostRuntime) -> Result<(), Fail> {
    let mut map = RoomMap::new(rt.alloc());
    let mut plain = Vec::new(rt.alloc());
    plain.resize(64, None)?;
    let mut out = Vec::new(rt.alloc());
    let mut wanted = Vec::new(rt.alloc());
    let mut draws = Draws::new();
    for value in 0..2000u64 {
        let key = draws.below(64);
        if let Some(held) = plain.get_mut(key as usize) {
            assert_eq!(rt; map.get(key), *held);
            if draws.below(2) == 0 {
                put(&mut map, key, value)?;
                *held = Some(value);
            } else {
                assert_eq!(rt; map.remove(key), *held);
                *held = None;
            }
        }
        let from = draws.below(65);
        plain_entries(plain.as_slice(), from, &mut wanted)?;
        assert_eq!(rt; map.first_not_below(from), wanted.first().copied());
        plain_entries(plain.as_slice(), 0, &mut wanted)?;
        entries(&map, &mut out)?;
        assert_eq!(rt; out.as_slice(), wanted.as_slice());
    }
    Ok(())
}
