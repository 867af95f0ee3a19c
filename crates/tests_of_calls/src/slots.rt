//! Values under numbers that are never given twice, and the live processes by their serials, at numbers.

use instance_table::{Deadline, ProcessKind, Table, Waiting};
use numbered_slots::Slots;
use std::test::Fail;

// Each public call once, at slots of numbers. The wanted values are worked out by hand.
#[test]
fn numbers_rise_and_what_was_taken_out_is_not_found(rt: HostRuntime) -> Result<(), Fail> {
    let mut slots: Slots<u64> = Slots::new(rt.alloc());
    assert_eq!(rt; slots.next_number(), 0);
    assert_eq!(rt; slots.insert(10).map_err(|_| "out of memory")?, 0);
    assert_eq!(rt; slots.insert(20).map_err(|_| "out of memory")?, 1);
    assert_eq!(rt; slots.len(), 2);
    assert_eq!(rt; slots.remove(0), Some(10));
    assert_eq!(rt; slots.remove(0), None);
    assert_eq!(rt; slots.len(), 1);
    assert_eq!(rt; slots.next_number(), 2);
    assert_eq!(rt; slots.insert(30).map_err(|_| "out of memory")?, 2);
    assert!(rt; slots.get(0).is_none());
    assert_eq!(rt; slots.get(1), Some(&20));
    let third = slots.get_mut(2).ok_or("number 2 is live")?;
    *third = 31;
    assert_eq!(rt; slots.get(2), Some(&31));
    assert_eq!(rt; slots.get(1), Some(&20));
    assert!(rt; slots.get_mut(3).is_none());
    Ok(())
}

// Each public call once, at a table of numbers. The wanted values are worked out by hand.
#[test]
fn serials_rise_and_ended_ones_are_not_found(rt: HostRuntime) -> Result<(), Fail> {
    let mut table: Table<u64> = Table::new(rt.alloc());
    assert_eq!(rt; table.next_serial(), 0);
    assert_eq!(rt; table.spawn(ProcessKind::Thread, 10), Ok(0));
    assert_eq!(rt; table.spawn(ProcessKind::Method, 20), Ok(1));
    let fresh = table.get(0).ok_or("serial 0 is live")?;
    assert_eq!(rt; fresh.kind, ProcessKind::Thread);
    assert_eq!(rt; fresh.body, 10);
    assert_eq!(rt; fresh.wait, Waiting::None);
    assert_eq!(rt; fresh.deadline, Deadline::None);
    assert!(rt; !fresh.suspended && !fresh.kept && !fresh.disabled);
    assert!(rt; !fresh.started && !fresh.unwinding);
    assert!(rt; table.end(0));
    assert!(rt; !table.end(0));
    assert!(rt; table.get(0).is_none());
    assert_eq!(rt; table.next_serial(), 2);
    assert_eq!(rt; table.spawn(ProcessKind::Thread, 30), Ok(2));
    assert!(rt; table.get(0).is_none());
    let third = table.get_mut(2).ok_or("serial 2 is live")?;
    third.deadline = Deadline::At(7);
    third.body = 31;
    assert_eq!(rt;
        table.get(2).map(|i| (i.body, i.deadline)),
        Some((31, Deadline::At(7)))
    );
    assert_eq!(rt;
        table.get(1).map(|i| (i.kind, i.body)),
        Some((ProcessKind::Method, 20))
    );
    assert!(rt; table.get_mut(3).is_none());
    Ok(())
}
