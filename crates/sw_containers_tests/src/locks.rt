use crate::making::row;
use crate::steps::{is_told, place, time, told};
use std::alloc::Global;
use std::test::Fail;
use sw_container_db::ContDir;
use sw_hashpath::Place;
use sw_keeper::{Keeper, MemKeeper};
use sw_listing::Query;
use sw_outside::{FailingCall, NoMemory};

/// What is told of a container: how many rows are live, and the front.
type Told = Option<(u64, u64)>;

/// Calls of the keeper that fail: which one, and whether it is made all the same. Then what a creation and the merging of a
/// row are answered, what is told twice after these, and what is told of it once it is opened again; none where the container
/// is absent, or a call fails. The calls are the load and the commit of the creation (0 and 1), the commit of the row over the
/// tables that stay loaded (2), and the load once it is opened again (3); behind a commit that failed come the loads that settle it.
const RUNS: [(&[(u64, bool)], &str, u64, &str, u64, Told, Told, Told); 11] = [
    (
        &[],
        "New",
        1,
        "Done",
        2,
        Some((1, 2)),
        Some((1, 2)),
        Some((1, 0)),
    ),
    (&[(0, false)], "Failed", 0, "Absent", 0, None, None, None),
    (&[(0, true)], "Failed", 0, "Absent", 0, None, None, None),
    (&[(1, false)], "Failed", 0, "Absent", 0, None, None, None),
    (
        &[(1, true)],
        "Failed",
        0,
        "Done",
        2,
        Some((1, 2)),
        Some((1, 2)),
        Some((1, 0)),
    ),
    (
        &[(2, false)],
        "New",
        1,
        "Failed",
        0,
        Some((0, 1)),
        Some((0, 1)),
        Some((0, 0)),
    ),
    (
        &[(3, false)],
        "New",
        1,
        "Done",
        2,
        Some((1, 2)),
        Some((1, 2)),
        None,
    ),
    (
        &[(2, true)],
        "New",
        1,
        "Failed",
        0,
        Some((1, 2)),
        Some((1, 2)),
        Some((1, 0)),
    ),
    (
        &[(2, true), (3, false)],
        "New",
        1,
        "Failed",
        0,
        None,
        Some((1, 2)),
        Some((1, 0)),
    ),
    (
        &[(1, true), (2, false)],
        "Failed",
        0,
        "Failed",
        0,
        Some((0, 1)),
        Some((0, 1)),
        Some((0, 0)),
    ),
    (
        &[(2, false), (3, false)],
        "New",
        1,
        "Failed",
        0,
        None,
        Some((0, 1)),
        Some((0, 0)),
    ),
];

pub(crate) fn keeper(alloc: Global, failing: &[(u64, bool)]) -> Result<MemKeeper, NoMemory> {
    let mut calls = Vec::new(alloc);
    for (call, made) in failing {
        calls.push(FailingCall {
            call: *call,
            made: *made,
        })?;
    }
    Ok(MemKeeper::new(alloc, calls))
}

fn told_of<K: Keeper + Drop>(alloc: Global, containers: &mut ContDir<K>, place: &Place) -> Told {
    let info = containers.info(alloc, place).ok()?;
    Some((info.count, info.front))
}

#[test]
fn a_failed_call_leaves_what_it_made(rt: HostRuntime) -> Result<(), Fail> {
    let alloc = rt.alloc();
    let place = place(alloc, b"a")?;
    for (failing, created, front, merged, after, first, second, again) in &RUNS {
        let mut containers = ContDir::start(alloc, keeper(alloc, failing)?, 10);
        assert!(rt; is_told(&containers.create(alloc, &place, time(1)), created, *front));
        let row = row(alloc, "o", 500_000, 3, false)?;
        assert!(rt; is_told(&containers.merge_row(alloc, &place, row), merged, *after));
        assert_eq!(rt; told_of(alloc, &mut containers, &place), *first);
        assert_eq!(rt; told_of(alloc, &mut containers, &place), *second);
        let mut anew = ContDir::start(alloc, containers.into_keeper(), 10);
        assert_eq!(rt; told_of(alloc, &mut anew, &place), *again);
    }
    Ok(())
}

#[test]
fn a_full_journal_takes_no_entry(rt: HostRuntime) -> Result<(), Fail> {
    let alloc = rt.alloc();
    let place = place(alloc, b"a")?;
    let mut containers = ContDir::start(alloc, keeper(alloc, &[])?, 1);
    assert!(rt;
        containers
            .names(alloc)
            .is_ok_and(|places| places.is_empty())
    );
    let query = Query::read(alloc, b"")?;
    assert!(rt; containers.list(alloc, &place, &query).is_err());
    assert_eq!(rt;
        told(&containers.create(alloc, &place, time(1))),
        ("New", 1)
    );
    let row = row(alloc, "o", 500_000, 3, false)?;
    assert_eq!(rt;
        told(&containers.merge_row(alloc, &place, row)),
        ("JournalFull", 0)
    );
    assert_eq!(rt;
        told(&containers.create(alloc, &place, time(1))),
        ("There", 1)
    );
    assert_eq!(rt;
        told(&containers.remove(alloc, &place, time(1))),
        ("Stale", 1)
    );
    assert_eq!(rt;
        told(&containers.remove(alloc, &place, time(2))),
        ("JournalFull", 0)
    );
    assert!(rt;
        containers
            .list(alloc, &place, &query)
            .is_ok_and(|entries| entries.as_slice().is_empty())
    );
    assert!(rt;
        containers
            .names(alloc)
            .is_ok_and(|places| places.len() == 1)
    );
    Ok(())
}
