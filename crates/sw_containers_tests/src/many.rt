use crate::locks::keeper;
use crate::making::row;
use crate::steps::{place, time, told};
use std::alloc::Global;
use std::test::Fail;
use sw_container_db::ContDir;
use sw_container_steps::RowList;
use sw_hashpath::Place;
use sw_keeper::Keeper;
use sw_listing::{Query, to_text};
use sw_listing_json::to_json;
use sw_outside::NoMemory;

/// More rows than a hundred, in one batch.
const MANY: u64 = 150;

/// Rows of so many names, of one byte each.
pub(crate) fn rows_of(alloc: Global, count: u64) -> Result<RowList, NoMemory> {
    let mut rows = Vec::new(alloc);
    for number in 0..count {
        let name = format!(in alloc; "n{number}")?;
        rows.push(row(alloc, &name, 1, 1, false)?)?;
    }
    Ok(RowList::from(rows))
}

/// How many times this byte stands among these.
fn count_of(bytes: &[u8], byte: u8) -> u64 {
    bytes.iter().filter(|other| **other == byte).count() as u64
}

/// Whether so many rows are listed, as text and as JSON, and so many go to a device that has none.
fn has_so_many<K: Keeper + Drop>(
    alloc: Global,
    containers: &mut ContDir<K>,
    place: &Place,
    query: &Query,
) -> Result<bool, NoMemory> {
    let Ok(listed) = containers.list(alloc, place, query) else {
        return Ok(false);
    };
    let lines = count_of(to_text(alloc, &listed)?.as_slice(), b'\n');
    let objects = count_of(to_json(alloc, &listed)?.as_slice(), b'{');
    let sent = containers.sync_rows(alloc, place, 1).is_ok_and(|parcel| parcel
        .rows
        .as_slice()
        .len() as u64
        == MANY
        && parcel.top == MANY);
    let told = containers
        .info(alloc, place)
        .is_ok_and(|info| info.count == MANY && info.bytes == MANY);
    Ok(lines == MANY && objects == MANY && sent && told)
}

#[test]
fn many_rows_are_merged_at_once_kept_and_listed(rt: HostRuntime) -> Result<(), Fail> {
    let alloc = rt.alloc();
    let place = place(alloc, b"a")?;
    let query = Query::read(alloc, b"")?;
    let mut containers = ContDir::start(alloc, keeper(alloc, &[])?, 1000);
    let _ = containers.create(alloc, &place, time(1));
    let rows = rows_of(alloc, MANY)?;
    assert_eq!(rt;
        told(&containers.merge_rows(alloc, &place, rows)),
        ("Done", MANY + 1)
    );
    assert!(rt; has_so_many(alloc, &mut containers, &place, &query)?);
    let mut anew = ContDir::start(alloc, containers.into_keeper(), 1000);
    assert!(rt; has_so_many(alloc, &mut anew, &place, &query)?);
    Ok(())
}
