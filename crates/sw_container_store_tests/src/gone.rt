ghost use Rattle.std.specs.Prelude.{◌≡◌, false};

use crate::folders::{creation, database_path, end_folder, fresh_folder, place};
use crate::host::{Host, Opens};
use std::alloc::Global;
use std::fs;
use std::test::Fail;
use sw_hashpath::Place;
use sw_keeper::{Batch, Keeper, KeeperError};

/// How a call ends.
type End = Result<(), KeeperError>;

/// A call of a keeper that has failed.
const FAILED: End = Err(KeeperError::Failed);

/// How a container is created, and created again while this folder is moved away; and whether it is found once that is back.
fn answers_over_a_move<O: Opens>(
    rt: &HostRuntime,
    host: &O,
    root: &str,
    folder: &str,
) -> Result<(End, End, bool), Fail> {
    let alloc = rt.alloc();
    let place = place(alloc, "c")?;
    let batch = creation(alloc, "o", 5)?;
    let away = format!(in alloc; "{root}-away")?;
    let mut store = host.open(root)?;
    let before = store.commit(alloc, &place, &batch);
    fs::rename(rt, folder, away.as_str())?;
    let meanwhile = store.commit(alloc, &place, &batch);
    fs::rename(rt, away.as_str(), folder)?;
    let tables = store.load(alloc, &place)?;
    Ok((before, meanwhile, tables.is_some()))
}

#[test]
fn nothing_is_put_while_the_folder_of_the_lock_is_away(rt: HostRuntime) -> Result<(), Fail> {
    let root = fresh_folder(&rt, "lock")?;
    let answers = answers_over_a_move(&rt, &Host { rt: &rt }, &root, &root)?;
    assert_eq!(rt; answers, (Ok(()), FAILED, true));
    end_folder(&rt, &root)
}

#[test]
fn nothing_is_put_while_the_databases_are_away(rt: HostRuntime) -> Result<(), Fail> {
    let root = fresh_folder(&rt, "away")?;
    let folder = format!(in rt.alloc(); "{root}/containers")?;
    let answers = answers_over_a_move(&rt, &Host { rt: &rt }, &root, &folder)?;
    assert_eq!(rt; answers, (Ok(()), FAILED, true));
    end_folder(&rt, &root)
}

/// How a keeper answers that has no database open: a load, a commit, and the names of all.
fn answers_of<K: Keeper>(
    alloc: Global,
    store: &mut K,
    place: &Place,
    batch: &Batch,
) -> (Result<bool, KeeperError>, End, Result<usize, KeeperError>)
    requires { K.tells store.old ≡ false }
    ensures { K.tells store.new ≡ false }
{
    let loaded = store.load(alloc, place).map(|tables| tables.is_some());
    let made = store.commit(alloc, place, batch);
    let names = store.names(alloc).map(|names| names.len());
    (loaded, made, names)
}

/// How a keeper answers so while the folder of its lock is moved away, and whether that one is made anew; and how once it is back.
fn is_unknown_while_away<O: Opens>(rt: &HostRuntime, host: &O, root: &str) -> Result<bool, Fail> {
    let alloc = rt.alloc();
    let place = place(alloc, "c")?;
    let batch = creation(alloc, "o", 5)?;
    let away = format!(in alloc; "{root}-away")?;
    let mut store = host.open(root)?;
    fs::rename(rt, root, away.as_str())?;
    let failed = Err(KeeperError::Failed);
    let unknown = answers_of(alloc, &mut store, &place, &batch)
        == (failed, FAILED, failed.map(|_| 0));
    let made = fs::exists(rt, root)?;
    fs::rename(rt, away.as_str(), root)?;
    let known = answers_of(alloc, &mut store, &place, &batch) == (Ok(false), Ok(()), Ok(1));
    Ok(unknown && !made && known)
}

#[test]
fn nothing_is_known_while_the_folder_of_the_lock_is_away(rt: HostRuntime) -> Result<(), Fail> {
    let root = fresh_folder(&rt, "unknown")?;
    assert!(rt; is_unknown_while_away(&rt, &Host { rt: &rt }, &root)?);
    end_folder(&rt, &root)
}

/// What is no database.
const JUNK: [u8; 4096] = [b'x'; 4096];

/// Whether a keeper over a database that is none fails, and leaves it as it is.
fn fails_at_what_is_none<O: Opens>(rt: &HostRuntime, host: &O, root: &str) -> Result<bool, Fail> {
    let alloc = rt.alloc();
    let place = place(alloc, "c")?;
    let batch = creation(alloc, "o", 5)?;
    let path = database_path(alloc, root, &place)?;
    let (folder, _) = path.as_str().rsplit_once('/').ok_or("no folder")?;
    fs::create_dir_all(rt, folder)?;
    fs::write(rt, path.as_str(), &JUNK)?;
    let mut store = host.open(root)?;
    let failed = Err(KeeperError::Failed);
    let answers = answers_of(alloc, &mut store, &place, &batch);
    let found = fs::read(rt, path.as_str())?;
    Ok(answers == (failed, FAILED, failed.map(|_| 0)) && found.as_slice() == JUNK.as_slice())
}

#[test]
fn a_file_that_is_no_database_is_not_used(rt: HostRuntime) -> Result<(), Fail> {
    let root = fresh_folder(&rt, "none")?;
    assert!(rt; fails_at_what_is_none(&rt, &Host { rt: &rt }, &root)?);
    end_folder(&rt, &root)
}

/// How a container is created, and created again behind the removal of its database; whether it is found then; and how it is created anew.
fn answers_over_a_removal<O: Opens>(
    rt: &HostRuntime,
    host: &O,
    root: &str,
) -> Result<(End, End, bool, End), Fail> {
    let alloc = rt.alloc();
    let place = place(alloc, "c")?;
    let batch = creation(alloc, "o", 5)?;
    let folder = format!(in alloc; "{root}/containers")?;
    let mut store = host.open(root)?;
    let before = store.commit(alloc, &place, &batch);
    fs::remove_dir_all(rt, folder.as_str())?;
    let behind = store.commit(alloc, &place, &batch);
    let tables = store.load(alloc, &place)?;
    let anew = store.commit(alloc, &place, &batch);
    Ok((before, behind, tables.is_some(), anew))
}

#[test]
fn a_database_that_was_removed_is_made_anew(rt: HostRuntime) -> Result<(), Fail> {
    let root = fresh_folder(&rt, "removed")?;
    let answers = answers_over_a_removal(&rt, &Host { rt: &rt }, &root)?;
    assert_eq!(rt; answers, (Ok(()), FAILED, false, Ok(())));
    end_folder(&rt, &root)
}
