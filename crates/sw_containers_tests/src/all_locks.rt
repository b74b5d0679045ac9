use crate::locks::keeper;
use crate::steps::{is_told, place, time};
use std::alloc::Global;
use std::test::Fail;
use sw_container_locks::ContLocks;
use sw_container_steps::{ContChange, Parcel};
use sw_hashpath::Place;
use sw_keeper::{Keeper, MemKeeper};
use sw_listing::Query;
use sw_outside::NoMemory;
use sw_peer::Link;

/// So many locks over keepers in memory.
fn locks(alloc: Global, count: usize) -> Result<ContLocks<MemKeeper>, NoMemory> {
    let mut keepers = Vec::new(alloc);
    for _ in 0..count {
        keepers.push(keeper(alloc, &[])?)?;
    }
    ContLocks::open(alloc, keepers).map_err(|_| NoMemory)
}

/// Creates the container at a lock: how many entries the line of that tells, where it was answered as new.
fn created<K: Keeper + Drop>(
    alloc: Global,
    locks: &mut ContLocks<K>,
    lock: usize,
    place: &Place,
) -> Option<usize> {
    if !locks.is_open(lock) {
        return None;
    }
    let change = ContChange::Create { time: time(1) };
    let (answer, line) = locks.change(alloc, lock, Link::Local, 0, place, &change);
    is_told(&answer, "New", 1).then_some(line.entered().len())
}

/// The put time of the container at a lock, in units; none where it was never created.
fn put_time<K: Keeper + Drop>(
    alloc: Global,
    locks: &mut ContLocks<K>,
    lock: usize,
    place: &Place,
) -> Option<u64> {
    if !locks.is_open(lock) {
        return None;
    }
    let (times, _) = locks.times(alloc, lock, Link::Sent, 0, place);
    let (put_time, _) = times.ok()??;
    Some(put_time.units())
}

/// The front at a lock, where the container is there.
fn front<K: Keeper + Drop>(
    alloc: Global,
    locks: &mut ContLocks<K>,
    lock: usize,
    place: &Place,
) -> Option<u64> {
    if !locks.is_open(lock) {
        return None;
    }
    let (info, _) = locks.info(alloc, lock, Link::Sent, 0, place);
    Some(info.ok()?.front)
}

/// How many entries the listing at a lock has, where the container is there.
fn listed<K: Keeper + Drop>(
    alloc: Global,
    locks: &mut ContLocks<K>,
    lock: usize,
    place: &Place,
    query: &Query,
) -> Option<usize> {
    if !locks.is_open(lock) {
        return None;
    }
    let (listing, _) = locks.list(alloc, lock, Link::Sent, 0, place, query);
    Some(listing.ok()?.as_slice().len())
}

/// How many rows go to device 1 from a lock, and the greatest number given out, where the container is there.
fn parceled<K: Keeper + Drop>(
    alloc: Global,
    locks: &mut ContLocks<K>,
    lock: usize,
    place: &Place,
) -> Option<(usize, u64)> {
    if !locks.is_open(lock) {
        return None;
    }
    let (parcel, _) = locks.sync_rows(alloc, lock, Link::Sent, 0, place, 1);
    let Parcel { rows, top } = parcel.ok()?;
    Some((rows.as_slice().len(), top))
}

/// Lifts the second lock, and sets it down again: how many keepers were given.
fn restarted<K: Keeper + Drop>(alloc: Global, locks: &mut ContLocks<K>) -> Option<usize> {
    if !locks.is_open(1) {
        return None;
    }
    let Ok(keepers) = locks.lift(alloc, 1, 2) else {
        return None;
    };
    let count = keepers.len();
    locks.set_down(alloc, 1, keepers);
    Some(count)
}

#[test]
fn a_restarted_lock_keeps_its_containers_and_no_entries(rt: HostRuntime) -> Result<(), Fail> {
    let alloc = rt.alloc();
    let place = place(alloc, b"a")?;
    let query = Query::read(alloc, b"")?;
    let mut locks = locks(alloc, 2)?;
    assert_eq!(rt; created(alloc, &mut locks, 1, &place), Some(1));
    assert_eq!(rt; front(alloc, &mut locks, 1, &place), Some(1));
    assert_eq!(rt; front(alloc, &mut locks, 0, &place), None);
    assert_eq!(rt; restarted(alloc, &mut locks), Some(1));
    assert_eq!(rt; front(alloc, &mut locks, 1, &place), Some(0));
    assert_eq!(rt; put_time(alloc, &mut locks, 1, &place), Some(1));
    assert_eq!(rt; listed(alloc, &mut locks, 1, &place, &query), Some(0));
    assert_eq!(rt; parceled(alloc, &mut locks, 1, &place), Some((0, 0)));
    assert_eq!(rt; created(alloc, &mut locks, 2, &place), None);
    assert_eq!(rt; locks.stop().len(), 2);
    Ok(())
}
