use crate::locks::keeper;
use crate::making::{are_named, row};
use crate::steps::{place, time, told};
use std::alloc::Global;
use std::test::Fail;
use sw_container_db::ContDir;
use sw_container_steps::ContAnswer;
use sw_hashpath::Place;
use sw_keeper::{Keeper, MemKeeper};
use sw_outside::NoMemory;
use sw_sync::Points;

/// A step at a container.
enum Step {
    /// Merges a row of this name.
    Row(&'static str),
    /// Sets the sync point of a device.
    Sync(u8, u64),
}

/// Steps one after the other at a container that was created, each with the front after it. Then what a parcel for device 1 has: the names of its
/// rows, and the greatest number given out.
const STEPS: [(Step, u64, &[&str], u64); 8] = [
    (Step::Row("c"), 2, &["c"], 1),
    (Step::Row("b"), 3, &["c", "b"], 2),
    (Step::Row("a"), 4, &["c", "b", "a"], 3),
    (Step::Sync(2, 3), 5, &["c", "b", "a"], 3),
    (Step::Sync(1, 2), 6, &["a"], 3),
    (Step::Sync(1, 3), 7, &[], 3),
    (Step::Sync(1, 1), 7, &[], 3),
    (Step::Row("d"), 8, &["d"], 4),
];

/// How many rows go to device 1, and the front.
type Told = Option<(usize, u64)>;

/// Calls of the keeper that fail: which one, and whether it is made all the same. Then what the sync point of device 1 is answered at a container with
/// one row, what is told twice after it, and what is told once the keeper is opened again; none where a call fails. The calls are the load and the
/// commit of the creation (0 and 1), the commit of the row (2) and that of the sync point (3); behind one that failed come the loads that settle it.
const RUNS: [(&[(u64, bool)], &str, u64, Told, Told, Told); 5] = [
    (&[], "Done", 3, Some((0, 3)), Some((0, 3)), Some((0, 0))),
    (
        &[(3, true)],
        "Failed",
        0,
        Some((0, 3)),
        Some((0, 3)),
        Some((0, 0)),
    ),
    (
        &[(3, false)],
        "Failed",
        0,
        Some((1, 2)),
        Some((1, 2)),
        Some((1, 0)),
    ),
    (
        &[(3, true), (4, false)],
        "Failed",
        0,
        None,
        Some((0, 3)),
        Some((0, 0)),
    ),
    (
        &[(3, false), (4, false)],
        "Failed",
        0,
        None,
        Some((1, 2)),
        Some((1, 0)),
    ),
];

/// Numbers that are raised one after the other: the range, the device and the number. Then whether it rose, and the greatest numbers of the ranges 0 and 1.
const RAISES: [(u32, u8, u64, bool, u64, u64); 8] = [
    (0, 0, 0, true, 0, 0),
    (0, 0, 0, false, 0, 0),
    (0, 255, 7, true, 7, 0),
    (0, 1, 5, true, 7, 0),
    (1, 0, 9, true, 7, 9),
    (0, 0, 6, true, 7, 9),
    (0, 255, 6, false, 7, 9),
    (0, 0, 8, true, 8, 9),
];

fn make<K: Keeper + Drop>(
    alloc: Global,
    containers: &mut ContDir<K>,
    place: &Place,
    step: &Step,
) -> Result<ContAnswer, NoMemory> {
    Ok(match step {
        Step::Row(name) => {
            let row = row(alloc, name, 500_000, 3, false)?;
            containers.merge_row(alloc, place, row)
        }
        Step::Sync(device, rowid) => containers.set_sync(alloc, place, *device, *rowid),
    })
}

/// Whether a parcel for device 1 has rows of these names, and this greatest number.
fn sends<K: Keeper + Drop>(
    alloc: Global,
    containers: &mut ContDir<K>,
    place: &Place,
    names: &[&str],
    top: u64,
) -> bool {
    containers.sync_rows(alloc, place, 1).is_ok_and(|parcel| parcel.top == top
        && are_named(parcel.rows.as_slice(), names))
}

/// A lock with a container that has one row. The keeper's calls fail so.
fn with_a_row(
    alloc: Global,
    place: &Place,
    failing: &[(u64, bool)],
) -> Result<ContDir<MemKeeper>, NoMemory> {
    let mut containers = ContDir::start(alloc, keeper(alloc, failing)?, 10);
    let _ = containers.create(alloc, place, time(1));
    let _ = make(alloc, &mut containers, place, &Step::Row("o"))?;
    Ok(containers)
}

fn told_of<K: Keeper + Drop>(alloc: Global, containers: &mut ContDir<K>, place: &Place) -> Told {
    let parcel = containers.sync_rows(alloc, place, 1).ok()?;
    let info = containers.info(alloc, place).ok()?;
    Some((parcel.rows.as_slice().len(), info.front))
}

#[test]
fn rows_above_a_sync_point_are_sent(rt: HostRuntime) -> Result<(), Fail> {
    let alloc = rt.alloc();
    let place = place(alloc, b"a")?;
    let mut containers = ContDir::start(alloc, keeper(alloc, &[])?, 10);
    assert!(rt; containers.sync_rows(alloc, &place, 1).is_err());
    assert_eq!(rt;
        told(&containers.create(alloc, &place, time(1))),
        ("New", 1)
    );
    for (step, front, names, top) in &STEPS {
        let answer = make(alloc, &mut containers, &place, step)?;
        assert_eq!(rt; told(&answer), ("Done", *front));
        assert!(rt; sends(alloc, &mut containers, &place, names, *top));
    }
    Ok(())
}

#[test]
fn a_sync_point_whose_commit_failed_is_looked_for(rt: HostRuntime) -> Result<(), Fail> {
    let alloc = rt.alloc();
    let place = place(alloc, b"a")?;
    for (failing, name, number, first, second, again) in &RUNS {
        let mut containers = with_a_row(alloc, &place, failing)?;
        let answer = containers.set_sync(alloc, &place, 1, 1);
        assert_eq!(rt; told(&answer), (*name, *number));
        assert_eq!(rt; told_of(alloc, &mut containers, &place), *first);
        assert_eq!(rt; told_of(alloc, &mut containers, &place), *second);
        let mut anew = ContDir::start(alloc, containers.into_keeper(), 10);
        assert_eq!(rt; told_of(alloc, &mut anew, &place), *again);
    }
    Ok(())
}

#[test]
fn the_greatest_point_of_a_range_is_found(rt: HostRuntime) -> Result<(), Fail> {
    let mut points = Points::new(rt.alloc());
    for (range, device, rowid, rises, first, second) in RAISES {
        let rose = points.raise(range, device, rowid)?;
        assert_eq!(rt;
            (rose, points.greatest(0), points.greatest(1)),
            (rises, first, second)
        );
    }
    Ok(())
}
