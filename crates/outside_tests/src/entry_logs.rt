//! A few entries of a few keys.

use entry_log::{EntryLog, EntrySet};
use indexmap::IndexSet;
use least_set::Log;
use std::alloc::AllocError;
use std::test::Fail;

#[test]
fn keeps_each_entry_once(rt: HostRuntime) -> Result<(), Fail> {
    let mut log = EntryLog::new(rt.alloc());
    assert!(rt; log.insert(7u32, 3)?);
    assert!(rt; log.insert(9, 3)?);
    assert!(rt; !log.insert(7, 3)?);
    assert!(rt; log.insert(7, 200)?);
    assert_eq!(rt; log.len(), 3);
    assert!(rt; log.insert_near(1, 64)?);
    assert!(rt; !log.insert(7, 200)?);
    assert!(rt; log.contains(&9, 64));
    assert!(rt; !log.contains(&9, 200));
    assert!(rt; !log.contains(&8, 3));
    assert_eq!(rt; log.get(2), Some((&7, 200)));
    assert_eq!(rt; log.get(3), Some((&9, 64)));
    assert_eq!(rt; log.get(4), None);
    Ok(())
}

#[test]
fn has_what_was_inserted(rt: HostRuntime) -> Result<(), Fail> {
    let mut set = EntrySet::new(rt.alloc());
    assert!(rt; set.insert(7u32, 3)?);
    assert!(rt; set.insert(9, 200)?);
    assert!(rt; !set.insert(7, 3)?);
    assert!(rt; set.contains(&9, 200));
    assert!(rt; !set.contains(&7, 200));
    assert!(rt; !set.contains(&8, 3));
    Ok(())
}

/// What a log answers to two inserts of one entry, and its number of entries behind them.
fn inserted_twice<L: Log<(u32, u32)>>(log: &mut L) -> Result<(bool, bool, usize), AllocError> {
    let first = log.insert((7, 3))?;
    let second = log.insert((7, 3))?;
    Ok((first, second, log.len()))
}

#[test]
fn answers_as_an_index_set(rt: HostRuntime) -> Result<(), Fail> {
    let mut set: IndexSet<(u32, u32)> = IndexSet::new(rt.alloc());
    let mut log: EntryLog<u32> = EntryLog::new(rt.alloc());
    assert_eq!(rt; inserted_twice(&mut set)?, (true, false, 1));
    assert_eq!(rt; inserted_twice(&mut log)?, (true, false, 1));
    Ok(())
}
