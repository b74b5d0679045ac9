ghost use Rattle.std.specs.Prelude.{◌≡◌, false};

use crate::folders::{end_folder, fresh_folder, place, row, tables_text, time};
use crate::host::{Host, Opens};
use std::alloc::Global;
use std::test::Fail;
use sw_keeper::{Batch, Change, Keeper};
use sw_outside::NoMemory;

/// A row's name, its time in units of 10 microseconds, its size, its content type, whether it is deleted, and its number.
type Kind<'a> = (&'a str, u64, u64, &'a str, bool, u64);

/// Rows of each kind: a name that is empty, of several bytes a character, with a line feed; the least and the greatest time and size; no content
/// type; deleted ones; and numbers with a gap between them, up to the greatest of a database.
const KINDS: [Kind; 5] = [
    ("", 0, 0, "", false, 1),
    (
        "ä",
        999_999_999_999_999,
        9_223_372_036_854_775_807,
        "ß",
        false,
        2,
    ),
    ("a\nb", 1, 0, "a/b", true, 3),
    ("'); --", 100_000, 1, "a/b", false, 1_000),
    ("z", 5, 3, "", true, 9_223_372_036_854_775_807),
];

/// What the tables are that have them: the times of the container, the greatest number, and the rows.
const TEXT: &str = "0 999999999999999 9223372036854775807\
    \n1  0 0  07070707070707070707070707070707 false\
    \n2 c3a4 999999999999999 9223372036854775807 c39f 07070707070707070707070707070707 false\
    \n3 610a62 1 0 612f62 07070707070707070707070707070707 true\
    \n1000 27293b202d2d 100000 1 612f62 07070707070707070707070707070707 false\
    \n9223372036854775807 7a 5 3  07070707070707070707070707070707 true\
    \nsync 0 0\
    \nsync 255 9223372036854775807";

/// A batch that creates a container that was deleted, with these rows and two sync points.
fn all_kinds(alloc: Global) -> Result<Batch, NoMemory> {
    let mut changes = Vec::new(alloc);
    changes.push(Change::Times {
        put_time: time(0),
        delete_time: Some(time(999_999_999_999_999)),
    })?;
    for (name, units, size, content_type, deleted, rowid) in KINDS {
        let row = row(alloc, name, units, size, content_type, deleted)?;
        changes.push(Change::PutRow(row, rowid))?;
    }
    for (device, rowid) in [(255, 9_223_372_036_854_775_807), (0, 0)] {
        changes.push(Change::SetSync { device, rowid })?;
    }
    Ok(Batch::from(changes))
}

/// What the tables of a container are as a later keeper finds them, where this batch was made.
fn text_after<O: Opens>(
    alloc: Global,
    host: &O,
    root: &str,
    batch: &Batch,
) -> Result<String, Fail> {
    let place = place(alloc, "c")?;
    let mut store = host.open(root)?;
    store.commit(alloc, &place, batch)?;
    drop(store);
    let mut store = host.open(root)?;
    let tables = store.load(alloc, &place)?;
    tables_text(alloc, &tables)
}

#[test]
fn rows_of_each_kind_are_found_as_they_were_put(rt: HostRuntime) -> Result<(), Fail> {
    let root = fresh_folder(&rt, "kinds")?;
    let host = Host { rt: &rt };
    let batch = all_kinds(rt.alloc())?;
    assert_eq!(rt;
        text_after(rt.alloc(), &host, &root, &batch)?.as_str(),
        TEXT
    );
    end_folder(&rt, &root)
}

/// How many rows a container gets at once, and how many it has then: rows are read by the thousand.
const MORE: [(u64, usize); 4] = [(999, 999), (1, 1_000), (1, 1_001), (1_000, 2_001)];

/// A batch that puts so many rows behind this number.
fn more(alloc: Global, after: u64, count: u64) -> Result<Batch, Fail> {
    let mut changes = Vec::new(alloc);
    changes.push(Change::Times {
        put_time: time(5),
        delete_time: None,
    })?;
    for number in after..after.saturating_add(count) {
        let row = row(alloc, &format!(in alloc; "{number}")?, 5, 3, "", false)?;
        changes.push(Change::PutRow(row, number.saturating_add(1)))?;
    }
    Ok(Batch::from(changes))
}

/// How many rows a keeper finds, and the greatest number given out, where so many more were put behind these.
fn counts_after<O: Opens>(
    alloc: Global,
    host: &O,
    root: &str,
    after: u64,
    count: u64,
) -> Result<(usize, u64), Fail> {
    let place = place(alloc, "c")?;
    let mut store = host.open(root)?;
    store.commit(alloc, &place, &more(alloc, after, count)?)?;
    match store.load(alloc, &place)? {
        Some(tables) => Ok((tables.rows.len(), tables.rows.top())),
        None => Ok((0, 0)),
    }
}

#[test]
fn all_rows_are_read_where_they_are_whole_pages_or_not(rt: HostRuntime) -> Result<(), Fail> {
    let root = fresh_folder(&rt, "pages")?;
    let mut after = 0u64;
    for (count, wanted) in MORE {
        let counts = counts_after(rt.alloc(), &Host { rt: &rt }, &root, after, count)?;
        after = after.saturating_add(count);
        assert_eq!(rt; counts, (wanted, after));
    }
    end_folder(&rt, &root)
}
