use crate::locks::keeper;
use crate::making::{are_named, row};
use crate::shard_ranges::three_ranges;
use crate::steps::{place, time, told};
use std::alloc::Global;
use std::test::Fail;
use sw_container_db::ContDir;
use sw_container_steps::{ContAnswer, DeviceList, RowList, Sharding};
use sw_hashpath::Place;
use sw_keeper::{Keeper, MemKeeper};
use sw_listing::{Query, to_text};
use sw_outside::NoMemory;

/// A step at a container.
#[derive(Clone, Copy, Debug)]
enum Step {
    Remove,
    /// One row of this name at this time.
    Row(&'static str, u64),
    /// Rows of these names at this time.
    Rows(&'static [&'static str], u64),
    /// Sets three ranges, whose upper bounds are `b`, `d` and none.
    SetRanges,
    /// A point: its range, its device, and its number.
    Ack(u32, u8, u64),
    /// Closes the range of this index, whose shard has the devices 0 and 1.
    Close(u32),
    EmptyOut,
}

/// What is told of a container: how many rows are live, the listing of their names, how many ranges are closed, their states, and whether the rows were
/// taken away.
struct Told {
    count: u64,
    listed: &'static [u8],
    closed: u32,
    states: [u8; 3],
    emptied: bool,
}

/// A range, a number, the names of the rows that are read of the range above it, and the greatest number given out.
type Above = (u32, u64, &'static [&'static str], u64);

/// Steps one after the other at a container that was created: each with the name of its answer and the number in it. Then what is told of the
/// container, and rows that are read of it.
type Stage = (&'static [(Step, &'static str, u64)], Told, &'static [Above]);

const STAGES: [Stage; 4] = [
    (
        &[
            (Step::Rows(&["a", "b", "c", "d", "e"], 1), "Done", 6),
            (Step::SetRanges, "Done", 7),
            (Step::SetRanges, "HasRanges", 0),
            (Step::Remove, "HasRanges", 0),
        ],
        Told {
            count: 5,
            listed: b"a\nb\nc\nd\ne\n",
            closed: 0,
            states: [20, 20, 20],
            emptied: false,
        },
        &[
            (0, 0, &["a", "b"], 5),
            (1, 0, &["c", "d"], 5),
            (2, 4, &["e"], 5),
            (2, 5, &[], 5),
            (3, 0, &[], 5),
        ],
    ),
    (
        &[
            (Step::Close(0), "NotAcked", 0),
            (Step::Ack(0, 0, 5), "Done", 8),
            (Step::Close(0), "NotAcked", 1),
            (Step::Ack(0, 1, 5), "Done", 9),
            (Step::Row("aa", 1), "Done", 10),
            (Step::Close(0), "Later", 6),
        ],
        Told {
            count: 6,
            listed: b"a\naa\nb\nc\nd\ne\n",
            closed: 0,
            states: [20, 20, 20],
            emptied: false,
        },
        &[(0, 5, &["aa"], 6), (0, 6, &[], 6), (1, 5, &[], 6)],
    ),
    (
        &[
            (Step::Ack(0, 0, 6), "Done", 11),
            (Step::Close(0), "NotAcked", 1),
            (Step::Ack(0, 1, 6), "Done", 12),
            (Step::Close(0), "Done", 13),
            (Step::Close(0), "Done", 13),
            (Step::Close(2), "StillOpen", 1),
            (Step::Close(3), "StillOpen", 1),
            (Step::Ack(0, 0, 5), "Done", 13),
            (Step::Ack(1, 0, 0), "Done", 14),
            (Step::Ack(1, 0, 0), "Done", 14),
            (Step::EmptyOut, "StillOpen", 1),
            (Step::Row("a", 2), "Redirect", 0),
            (Step::Row("b", 2), "Redirect", 0),
            (Step::Rows(&["c", "a"], 2), "Redirect", 0),
        ],
        Told {
            count: 3,
            listed: b"c\nd\ne\n",
            closed: 1,
            states: [30, 20, 20],
            emptied: false,
        },
        &[(0, 0, &["a", "b", "aa"], 6), (1, 0, &["c", "d"], 6)],
    ),
    (
        &[
            (Step::Row("c", 2), "Done", 15),
            (Step::Ack(1, 0, 7), "Done", 16),
            (Step::Ack(1, 1, 7), "Done", 17),
            (Step::Close(1), "Done", 18),
            (Step::Row("c", 3), "Redirect", 1),
            (Step::EmptyOut, "StillOpen", 2),
            (Step::Ack(2, 0, 7), "Done", 19),
            (Step::Ack(2, 1, 7), "Done", 20),
            (Step::Close(2), "Done", 21),
            (Step::Close(3), "StillOpen", 3),
            (Step::EmptyOut, "Done", 22),
            (Step::EmptyOut, "Done", 22),
            (Step::Rows(&["f", "a"], 4), "Redirect", 2),
            (Step::Row("a", 4), "Redirect", 0),
        ],
        Told {
            count: 0,
            listed: b"",
            closed: 3,
            states: [40, 40, 40],
            emptied: true,
        },
        &[(0, 0, &[], 7), (1, 0, &[], 7), (2, 0, &[], 7)],
    ),
];

/// Steps, and what each is answered at a container that isn't split.
const UNSPLIT: [(Step, &str, u64); 4] = [
    (Step::Ack(0, 0, 1), "NoRanges", 0),
    (Step::Close(0), "NoRanges", 0),
    (Step::EmptyOut, "NoRanges", 0),
    (Step::SetRanges, "Done", 2),
];

/// Steps that split a container of the rows `a`, `c` and `e`. Each enters one entry, in one commit.
const SPLIT: [Step; 11] = [
    Step::SetRanges,
    Step::Ack(0, 0, 3),
    Step::Ack(0, 1, 3),
    Step::Close(0),
    Step::Ack(1, 0, 3),
    Step::Ack(1, 1, 3),
    Step::Close(1),
    Step::Ack(2, 0, 3),
    Step::Ack(2, 1, 3),
    Step::Close(2),
    Step::EmptyOut,
];

/// How far a container is split: whether it has ranges, the number that is kept of range 0 and device 0, how many ranges are closed, and whether the rows
/// were taken away.
type Split = (bool, Option<u64>, u32, bool);

/// How many of these steps are made before the one whose commit fails, and how far the container is split without it, and with it.
const DOUBTS: [(u64, Split, Split); 5] = [
    (0, (false, None, 0, false), (true, None, 0, false)),
    (1, (true, None, 0, false), (true, Some(3), 0, false)),
    (3, (true, Some(3), 0, false), (true, Some(3), 1, false)),
    (9, (true, Some(3), 2, false), (true, Some(3), 3, false)),
    (10, (true, Some(3), 3, false), (true, Some(3), 3, true)),
];

fn rows_at(alloc: Global, names: &[&str], units: u64) -> Result<RowList, NoMemory> {
    let mut rows = Vec::new(alloc);
    for name in names {
        rows.push(row(alloc, name, units, 3, false)?)?;
    }
    Ok(RowList::from(rows))
}

fn devices(alloc: Global) -> Result<DeviceList, NoMemory> {
    Ok(DeviceList::from(vec![in alloc; 0, 1]?))
}

fn make<K: Keeper + Drop>(
    alloc: Global,
    containers: &mut ContDir<K>,
    place: &Place,
    step: Step,
) -> Result<ContAnswer, Fail> {
    Ok(match step {
        Step::Remove => containers.remove(alloc, place, time(9)),
        Step::Row(name, units) => {
            let row = row(alloc, name, units, 3, false)?;
            containers.merge_row(alloc, place, row)
        }
        Step::Rows(names, units) => {
            let rows = rows_at(alloc, names, units)?;
            containers.merge_rows(alloc, place, rows)
        }
        Step::SetRanges => {
            let ranges = three_ranges(alloc, place)?;
            containers.set_ranges(alloc, place, ranges)
        }
        Step::Ack(range, device, rowid) => containers.ack(alloc, place, range, device, rowid),
        Step::Close(range) => {
            let devices = devices(alloc)?;
            containers.close_range(alloc, place, range, devices)
        }
        Step::EmptyOut => containers.empty_out(alloc, place),
    })
}

fn are_in(sharding: &Sharding, states: [u8; 3]) -> bool {
    match &sharding.ranges {
        Some(ranges) => ranges.as_slice().iter().map(|range| range.state).eq(states),
        None => false,
    }
}

/// Whether this text is the listing.
fn lists<K: Keeper + Drop>(
    alloc: Global,
    containers: &mut ContDir<K>,
    place: &Place,
    query: &Query,
    text: &[u8],
) -> Result<bool, NoMemory> {
    let Ok(listed) = containers.list(alloc, place, query) else {
        return Ok(false);
    };
    Ok(to_text(alloc, &listed)?.as_slice() == text)
}

/// Whether this is told, but for the listing.
fn tells<K: Keeper + Drop>(
    alloc: Global,
    containers: &mut ContDir<K>,
    place: &Place,
    told: &Told,
) -> bool {
    let counted = containers.info(alloc, place).is_ok_and(|info| info.count == told.count
        && info.bytes == told.count.saturating_mul(3));
    let split = containers.sharding(alloc, place).is_ok_and(|sharding| sharding.cursor
        == told.closed
        && sharding.emptied == told.emptied
        && are_in(&sharding, told.states));
    counted && split
}

/// Whether these rows are read.
fn gives<K: Keeper + Drop>(
    alloc: Global,
    containers: &mut ContDir<K>,
    place: &Place,
    (range, point, names, top): Above,
) -> bool {
    containers.rows_above(alloc, place, range, point).is_ok_and(|parcel| parcel.top == top
        && are_named(parcel.rows.as_slice(), names))
}

#[test]
fn a_container_is_split_range_by_range(rt: HostRuntime) -> Result<(), Fail> {
    let alloc = rt.alloc();
    let place = place(alloc, b"a")?;
    let query = Query::read(alloc, b"")?;
    let mut containers = ContDir::start(alloc, keeper(alloc, &[])?, 100);
    let _ = containers.create(alloc, &place, time(1));
    for (steps, shown, reads) in &STAGES {
        for (step, name, number) in *steps {
            let answer = make(alloc, &mut containers, &place, *step)?;
            assert_eq!(rt; told(&answer), (*name, *number), "{step:?}");
        }
        assert!(rt; tells(alloc, &mut containers, &place, shown));
        assert!(rt; lists(alloc, &mut containers, &place, &query, shown.listed)?);
        for above in *reads {
            assert!(rt; gives(alloc, &mut containers, &place, *above));
        }
    }
    Ok(())
}

/// The name of what a read of a range is answered, where it has no rows to give.
fn told_above<K: Keeper + Drop>(
    alloc: Global,
    containers: &mut ContDir<K>,
    place: &Place,
) -> Option<&'static str> {
    let answer = containers.rows_above(alloc, place, 0, 0).err()?;
    Some(told(&answer).0)
}

/// Whether the container has ranges; none where it is absent.
fn is_split<K: Keeper + Drop>(
    alloc: Global,
    containers: &mut ContDir<K>,
    place: &Place,
) -> Option<bool> {
    let sharding = containers.sharding(alloc, place).ok()?;
    Some(sharding.ranges.is_some())
}

#[test]
fn what_is_absent_or_not_split_is_told(rt: HostRuntime) -> Result<(), Fail> {
    let alloc = rt.alloc();
    let place = place(alloc, b"a")?;
    let mut containers = ContDir::start(alloc, keeper(alloc, &[])?, 10);
    assert_eq!(rt; told_above(alloc, &mut containers, &place), Some("Absent"));
    assert_eq!(rt; is_split(alloc, &mut containers, &place), None);
    for (step, _, _) in UNSPLIT {
        let answer = make(alloc, &mut containers, &place, step)?;
        assert_eq!(rt; told(&answer), ("Absent", 0), "{step:?}");
    }
    let _ = containers.create(alloc, &place, time(1));
    assert_eq!(rt;
        told_above(alloc, &mut containers, &place),
        Some("NoRanges")
    );
    assert_eq!(rt; is_split(alloc, &mut containers, &place), Some(false));
    for (step, name, number) in UNSPLIT {
        let answer = make(alloc, &mut containers, &place, step)?;
        assert_eq!(rt; told(&answer), (name, number), "{step:?}");
    }
    Ok(())
}

/// How far the container is split, and the front; none where a call fails.
fn told_of<K: Keeper + Drop>(
    alloc: Global,
    containers: &mut ContDir<K>,
    place: &Place,
) -> Option<(Split, u64)> {
    let sharding = containers.sharding(alloc, place).ok()?;
    let info = containers.info(alloc, place).ok()?;
    let point = sharding.points.get(0, 0);
    Some((
        (
            sharding.ranges.is_some(),
            point,
            sharding.cursor,
            sharding.emptied,
        ),
        info.front,
    ))
}

/// A lock with a container of three rows, at which so many of the steps that split it were made. The last of them fails in its commit, and is made all the
/// same or not. The keeper's calls are the load and the commit of the creation (0 and 1), the commit of the rows (2), and then one commit a step.
fn in_doubt(
    alloc: Global,
    place: &Place,
    before: u64,
    made: bool,
) -> Result<ContDir<MemKeeper>, Fail> {
    let mut containers = ContDir::start(
        alloc,
        keeper(alloc, &[(before.saturating_add(3), made)])?,
        100,
    );
    let _ = containers.create(alloc, place, time(1));
    let _ = make(
        alloc,
        &mut containers,
        place,
        Step::Rows(&["a", "c", "e"], 1),
    )?;
    for step in SPLIT.iter().take((before as usize).saturating_add(1)) {
        let _ = make(alloc, &mut containers, place, *step)?;
    }
    Ok(containers)
}

#[test]
fn a_range_step_whose_commit_failed_is_looked_for(rt: HostRuntime) -> Result<(), Fail> {
    let alloc = rt.alloc();
    let place = place(alloc, b"a")?;
    for (before, without, with) in DOUBTS {
        for (made, split, front) in [
            (false, without, before.saturating_add(4)),
            (true, with, before.saturating_add(5)),
        ] {
            let mut containers = in_doubt(alloc, &place, before, made)?;
            let told = told_of(alloc, &mut containers, &place);
            assert_eq!(rt; told, Some((split, front)), "{before} {made}");
            let mut anew = ContDir::start(alloc, containers.into_keeper(), 10);
            let told = told_of(alloc, &mut anew, &place);
            assert_eq!(rt; told, Some((split, 0)), "{before} {made}");
        }
    }
    Ok(())
}
