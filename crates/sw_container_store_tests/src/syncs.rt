use crate::folders::{creation, database_path, end_folder, fresh_folder, place, tables_text};
use crate::host::{Host, Opens};
use sqlite::Connection;
use std::alloc::Global;
use std::test::Fail;
use sw_keeper::{Batch, Change, Keeper};
use sw_outside::NoMemory;

/// Sync points of two devices, one of which is set again.
fn points(alloc: Global) -> Result<Batch, NoMemory> {
    Ok(Batch::from(vec![in alloc; point(255, 7), point(3, 1), point(3, 9)]?))
}

fn point(device: u8, rowid: u64) -> Change {
    Change::SetSync { device, rowid }
}

/// What the tables are with those points and the row of [`creation`].
const WITH_POINTS: &str =
    "5 0 1\n1 6f 5 3 746578742f706c61696e 07070707070707070707070707070707 false\nsync 3 9\nsync 255 7";

/// Creates a container, by a keeper of its own.
pub(crate) fn create<O: Opens>(alloc: Global, host: &O, root: &str) -> Result<(), Fail> {
    let place = place(alloc, "c")?;
    let mut store = host.open(root)?;
    store.commit(alloc, &place, &creation(alloc, "o", 5)?)?;
    Ok(())
}

/// What the tables of that container are, as a later keeper finds them, where the one before it has put the points in.
fn text_with_points<O: Opens>(alloc: Global, host: &O, root: &str) -> Result<String, Fail> {
    let place = place(alloc, "c")?;
    let mut store = host.open(root)?;
    store.commit(alloc, &place, &points(alloc)?)?;
    drop(store);
    let mut store = host.open(root)?;
    let tables = store.load(alloc, &place)?;
    tables_text(alloc, &tables)
}

#[test]
fn a_later_start_finds_the_sync_points(rt: HostRuntime) -> Result<(), Fail> {
    let root = fresh_folder(&rt, "points")?;
    let host = Host { rt: &rt };
    create(rt.alloc(), &host, &root)?;
    assert_eq!(rt;
        text_with_points(rt.alloc(), &host, &root)?.as_str(),
        WITH_POINTS
    );
    end_folder(&rt, &root)
}

/// Changes the database of that container, which no keeper has open.
pub(crate) fn change(rt: &HostRuntime, root: &str, statements: &str) -> Result<(), Fail> {
    let place = place(rt.alloc(), "c")?;
    let path = database_path(rt.alloc(), root, &place)?;
    let mut connection = Connection::open(rt, path.as_str())?;
    connection.execute_batch(statements)?;
    connection.close()?;
    Ok(())
}

#[test]
fn a_database_from_before_there_were_sync_points_takes_them(rt: HostRuntime) -> Result<(), Fail> {
    let root = fresh_folder(&rt, "format")?;
    let host = Host { rt: &rt };
    create(rt.alloc(), &host, &root)?;
    change(
        &rt,
        &root,
        "BEGIN; DROP TABLE outgoing_sync; DROP TABLE shard_range; DROP TABLE shard_sync; DROP TABLE sharding; UPDATE format SET version = 1; COMMIT",
    )?;
    assert_eq!(rt;
        text_with_points(rt.alloc(), &host, &root)?.as_str(),
        WITH_POINTS
    );
    end_folder(&rt, &root)
}

/// Whether the tables are told, where the database has one sync point, whose range, device and number these are.
fn is_told_with<O: Opens>(
    rt: &HostRuntime,
    host: &O,
    root: &str,
    values: &str,
) -> Result<bool, Fail> {
    let alloc = rt.alloc();
    let statements = format!(in alloc;
        "DELETE FROM outgoing_sync; INSERT INTO outgoing_sync VALUES ({values})"
    )?;
    change(rt, root, &statements)?;
    let place = place(alloc, "c")?;
    let mut store = host.open(root)?;
    Ok(store.load(alloc, &place).is_ok())
}

#[test]
fn a_sync_point_that_none_is_damages_its_database(rt: HostRuntime) -> Result<(), Fail> {
    let root = fresh_folder(&rt, "damaged")?;
    let host = Host { rt: &rt };
    create(rt.alloc(), &host, &root)?;
    let cases = [
        ("0, 255, 0", true),
        ("1, 3, 5", false),
        ("0, 256, 5", false),
        ("0, 3, -1", false),
    ];
    for (values, is_told) in cases {
        assert_eq!(rt; is_told_with(&rt, &host, &root, values)?, is_told);
    }
    end_folder(&rt, &root)
}
