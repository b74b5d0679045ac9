use crate::making::row;
use std::alloc::Global;
use std::test::Fail;
use sw_container_steps::{
    ContAnswer, ContChange, Decision, RowList, batch_of, decide, has_numbers, info_of, is_present,
    laws, made_answer, times_of,
};
use sw_hashpath::Place;
use sw_keeper::Tables;
use sw_outside::{Bytes, NoMemory};
use sw_timestamp::Timestamp;

/// The MD5 of `o-0000000005.00000` as a number.
const HASH_OF_O: u128 = 259439173132690071545091498314637949431;

/// A step at one container, at so many units of 10 microseconds.
enum Step {
    Create(u64),
    Remove(u64),
    /// One row: its name, its time, and whether it is deleted.
    Row(&'static str, u64, bool),
    /// Two rows of a name at two times, both live.
    Rows(&'static str, u64, u64),
    /// A sync point: its device, and its number.
    Sync(u8, u64),
}

/// Steps one after the other at a container of a hidden account: each with the name of its answer and the number in it, then
/// the greatest number of a row, and how many rows are live; none where the container is absent.
const STEPS: [(Step, &str, u64, u64, Option<u64>); 21] = [
    (Step::Remove(1), "Absent", 0, 0, None),
    (Step::Sync(1, 1), "Absent", 0, 0, None),
    (Step::Row("o", 500_000, true), "Absent", 0, 0, None),
    (Step::Row("o", 500_000, false), "Done", 2, 1, Some(1)),
    (Step::Row("o", 500_000, true), "Done", 3, 2, Some(0)),
    (Step::Row("o", 500_000, false), "Done", 3, 2, Some(0)),
    (Step::Create(500_000), "There", 3, 2, Some(0)),
    (Step::Create(500_001), "There", 4, 2, Some(0)),
    (Step::Remove(500_001), "Stale", 500_001, 2, Some(0)),
    (Step::Rows("p", 1, 2), "Done", 6, 4, Some(1)),
    (Step::Remove(500_002), "NotEmpty", 1, 4, Some(1)),
    (Step::Row("p", 2, true), "Done", 7, 5, Some(0)),
    (Step::Remove(500_002), "Done", 8, 5, None),
    (Step::Create(500_001), "Stale", 500_002, 5, None),
    (Step::Rows("q", 2, 1), "Done", 10, 6, Some(1)),
    (Step::Row("q", 3, true), "Done", 11, 7, Some(0)),
    (Step::Create(500_002), "There", 11, 7, Some(0)),
    (Step::Sync(1, 7), "Done", 12, 7, Some(0)),
    (Step::Sync(1, 7), "Done", 12, 7, Some(0)),
    (Step::Sync(1, 6), "Done", 12, 7, Some(0)),
    (Step::Sync(2, 0), "Done", 13, 7, Some(0)),
];

pub fn time(units: u64) -> Timestamp {
    Timestamp::from_units(units).unwrap_or(Timestamp::from_units(0).unwrap())
}

pub fn place(alloc: Global, account: &[u8]) -> Result<Place, NoMemory> {
    Ok(Place {
        account: Bytes::copy(alloc, account)?,
        container: Bytes::copy(alloc, b"c")?,
        hash: [0; 16],
    })
}

fn change_of(alloc: Global, step: &Step) -> Result<ContChange, NoMemory> {
    Ok(match step {
        Step::Create(units) => ContChange::Create { time: time(*units) },
        Step::Remove(units) => ContChange::Remove { time: time(*units) },
        Step::Row(name, units, deleted) => ContChange::MergeRow {
            row: row(alloc, name, *units, 3, *deleted)?,
        },
        Step::Rows(name, first, second) => {
            let first = row(alloc, name, *first, 3, false)?;
            let second = row(alloc, name, *second, 3, false)?;
            ContChange::MergeRows {
                rows: RowList::from(vec![in alloc; first, second]?),
            }
        }
        Step::Sync(device, rowid) => ContChange::SetSync {
            device: *device,
            rowid: *rowid,
        },
    })
}

/// Makes a step over tables, whose journal has so many entries: its answer, and the tables after it.
fn make(
    alloc: Global,
    tables: Option<Tables>,
    place: &Place,
    change: &ContChange,
    front: u64,
) -> Result<(ContAnswer, Option<Tables>), NoMemory> {
    let entries = match decide(alloc, &tables, place, change)? {
        Decision::Refused(answer) => return Ok((answer, tables)),
        Decision::Makes(entries) => entries,
    };
    if !has_numbers(&tables, entries.as_slice()) {
        return Ok((ContAnswer::JournalFull, tables));
    }
    let after = front.saturating_add(entries.as_slice().len() as u64);
    let answer = made_answer(is_present(&tables), change, after);
    Ok((answer, batch_of(alloc, tables, entries.as_slice())?.tables))
}

/// The digit that the container of a place ends with, or 10.
fn last_digit(place: &Place) -> u64 {
    match place.container.as_slice() {
        [.., digit @ b'0'..=b'9'] => u64::from(*digit - b'0'),
        _ => 10,
    }
}

/// The name of an answer, and the number in it, or 0. That of a shard is the digit that its container ends with: the index of its range.
pub fn told(answer: &ContAnswer) -> (&'static str, u64) {
    match answer {
        ContAnswer::New(front) => ("New", *front),
        ContAnswer::There(front) => ("There", *front),
        ContAnswer::Done(front) => ("Done", *front),
        ContAnswer::Absent => ("Absent", 0),
        ContAnswer::Stale(time) => ("Stale", time.units()),
        ContAnswer::NotEmpty(count) => ("NotEmpty", *count),
        ContAnswer::HasRanges => ("HasRanges", 0),
        ContAnswer::NoRanges => ("NoRanges", 0),
        ContAnswer::Redirect(shard) => ("Redirect", last_digit(shard)),
        ContAnswer::StillOpen(range) => ("StillOpen", u64::from(*range)),
        ContAnswer::Later(rowid) => ("Later", *rowid),
        ContAnswer::NotAcked(device) => ("NotAcked", u64::from(*device)),
        ContAnswer::JournalFull => ("JournalFull", 0),
        ContAnswer::Failed => ("Failed", 0),
        ContAnswer::NoMemory => ("NoMemory", 0),
    }
}

/// Whether this is the name of the answer, and the number in it.
pub fn is_told(answer: &ContAnswer, name: &str, number: u64) -> bool {
    told(answer) == (name, number)
}

/// The front after an answer.
fn front_after(answer: &ContAnswer, before: u64) -> u64 {
    match answer {
        ContAnswer::New(front) | ContAnswer::There(front) | ContAnswer::Done(front) => *front,
        _ => before,
    }
}

#[test]
fn each_step_is_answered_by_what_stands(rt: HostRuntime) -> Result<(), Fail> {
    let alloc = rt.alloc();
    let place = place(alloc, b".hidden")?;
    let mut tables = None;
    let mut front = 0;
    for (step, name, number, top, live) in &STEPS {
        let change = change_of(alloc, step)?;
        let (answer, after) = make(alloc, tables, &place, &change, front)?;
        assert_eq!(rt; told(&answer), (*name, *number));
        front = front_after(&answer, front);
        let count = info_of(alloc, &after, front)?.ok().map(|info| info.count);
        assert_eq!(rt; count, *live);
        let greatest = after.as_ref().map_or(0, |tables| tables.rows.top());
        assert_eq!(rt; greatest, *top);
        tables = after;
    }
    Ok(())
}

#[test]
fn a_container_is_created_and_tells_its_rows(rt: HostRuntime) -> Result<(), Fail> {
    let alloc = rt.alloc();
    let place = place(alloc, b"a")?;
    let row = change_of(alloc, &Step::Row("o", 500_000, false))?;
    let (refused, none) = make(alloc, None, &place, &row, 0)?;
    assert_eq!(rt; told(&refused), ("Absent", 0));
    assert!(rt; times_of(&none).is_none());
    let create = change_of(alloc, &Step::Create(1))?;
    let (created, empty) = make(alloc, none, &place, &create, 0)?;
    assert_eq!(rt; told(&created), ("New", 1));
    let (done, tables) = make(alloc, empty, &place, &row, 1)?;
    assert_eq!(rt; told(&done), ("Done", 2));
    let told = info_of(alloc, &tables, 2)?
        .ok()
        .map(|info| (info.count, info.bytes, info.hash, info.front));
    assert_eq!(rt; told, Some((1, 3, HASH_OF_O, 2)));
    laws::created_is_there();
    laws::removed_is_absent();
    laws::rows_are_merged();
    laws::row_is_merged();
    laws::entries_are_of_the_place();
    laws::steps_hold();
    laws::entries_are_seen();
    Ok(())
}
