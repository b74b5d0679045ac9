ghost use Rattle.std.specs.Prelude.{◌≡◌, false};

use crate::folders::{creation, database_path, end_folder, fresh_folder, place, tables_text};
use crate::host::{Host, Opens};
use std::alloc::Global;
use std::fs;
use std::test::Fail;
use sw_keeper::{Batch, Change, Keeper};

/// How many containers there are: more than may be open.
const MANY: usize = 20;

fn create_all<K: Keeper>(alloc: Global, store: &mut K) -> Result<(), Fail>
    requires { K.tells store.old ≡ false }
{
    for number in 0..MANY {
        let place = place(alloc, &format!(in alloc; "c{number}")?)?;
        store.commit(alloc, &place, &creation(alloc, "o", 5)?)?;
    }
    Ok(())
}

/// How many of the containers have the row that was put.
fn count_of<K: Keeper>(alloc: Global, store: &mut K) -> Result<usize, Fail> {
    let mut count = 0usize;
    for number in 0..MANY {
        let place = place(alloc, &format!(in alloc; "c{number}")?)?;
        let tables = store.load(alloc, &place)?;
        if tables.is_some_and(|tables| tables.rows.number_of(b"o") == Some(1)) {
            count = count.saturating_add(1);
        }
    }
    Ok(count)
}

/// How many files this process has open.
fn open_files(rt: &HostRuntime) -> Result<usize, Fail> {
    Ok(fs::read_dir(rt, "/proc/self/fd")?.count())
}

/// How many files are open after so many containers were created, after their tables were read and after all were named; and how many tables were found.
fn open_after<O: Opens>(rt: &HostRuntime, host: &O, root: &str) -> Result<[usize; 4], Fail> {
    let alloc = rt.alloc();
    let before = open_files(rt)?;
    let mut store = host.open(root)?;
    create_all(alloc, &mut store)?;
    let created = open_files(rt)?.saturating_sub(before);
    let found = count_of(alloc, &mut store)?;
    let read = open_files(rt)?.saturating_sub(before);
    let names = store.names(alloc)?.len();
    Ok([created, read, found, names])
}

// A database is two files: that of its name, and its log.
#[test]
fn at_most_sixteen_databases_are_open(rt: HostRuntime) -> Result<(), Fail> {
    let root = fresh_folder(&rt, "many")?;
    assert_eq!(rt;
        open_after(&rt, &Host { rt: &rt }, &root)?,
        [32, 32, MANY, MANY]
    );
    end_folder(&rt, &root)
}

/// Whether there is a database at its path: before its container is read, after that, and after it was created.
fn is_there_after<O: Opens>(rt: &HostRuntime, host: &O, root: &str) -> Result<[bool; 3], Fail> {
    let alloc = rt.alloc();
    let place = place(alloc, "c")?;
    let path = database_path(alloc, root, &place)?;
    let before = fs::exists(rt, path.as_str())?;
    let mut store = host.open(root)?;
    let found = store.load(alloc, &place)?.is_some();
    let read = fs::exists(rt, path.as_str())?;
    store.commit(alloc, &place, &creation(alloc, "o", 5)?)?;
    Ok([before, found || read, fs::exists(rt, path.as_str())?])
}

#[test]
fn a_container_has_its_database_where_swift_has_it(rt: HostRuntime) -> Result<(), Fail> {
    let root = fresh_folder(&rt, "where")?;
    let there = is_there_after(&rt, &Host { rt: &rt }, &root)?;
    assert_eq!(rt; there, [false, false, true]);
    end_folder(&rt, &root)
}

/// What the tables are, as a later keeper finds them, whose one row was taken away.
fn text_after_cut<O: Opens>(alloc: Global, host: &O, root: &str) -> Result<String, Fail> {
    let place = place(alloc, "c")?;
    let mut store = host.open(root)?;
    store.commit(alloc, &place, &creation(alloc, "o", 5)?)?;
    let cut = Batch::from(vec![in alloc; Change::CutRow(1)]?);
    store.commit(alloc, &place, &cut)?;
    drop(store);
    let mut store = host.open(root)?;
    let tables = store.load(alloc, &place)?;
    tables_text(alloc, &tables)
}

#[test]
fn a_number_is_given_out_once_also_over_a_later_start(rt: HostRuntime) -> Result<(), Fail> {
    let root = fresh_folder(&rt, "number")?;
    let text = text_after_cut(rt.alloc(), &Host { rt: &rt }, &root)?;
    assert_eq!(rt; text.as_str(), "5 0 1");
    end_folder(&rt, &root)
}
