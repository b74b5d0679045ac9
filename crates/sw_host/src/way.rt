//! How a node makes folders below one of its own, as a volume does. Of each of them this is kept true at every moment, so also after a kill: a folder in which
//! anything stands was synced into the one above it before its first entry was made. So an entry is on the disk once its own folder was synced, and a folder is
//! synced into the one above it where it was just made, or where nothing stands in it yet: then a kill may have come between.
use crate::host::Host;
use crate::notes::Notes;
use crate::paths::above;
use std::io;
use std::rt::Files;

/// Makes the folders that are missing on the way to `folder`, which lies below `root`.
pub fn make_way<R: Files, N: Notes>(
    host: &Host<'_, R, N>,
    root: &str,
    folder: &str,
) -> io::Result<()> {
    let there = there_of(host, root, folder)?;
    for end in there.saturating_add(1)..folder.len() {
        if let Some(folder) = folder_before(folder, end) {
            make_folder(host, folder)?;
        }
    }
    if there < folder.len() {
        make_folder(host, folder)?;
    }
    Ok(())
}

/// How much of the way is there, in bytes of its path: `root` at least. The last folder of it may take an entry.
fn there_of<R: Files, N: Notes>(
    host: &Host<'_, R, N>,
    root: &str,
    folder: &str,
) -> io::Result<usize> {
    let mut way = folder;
    for _ in 0..folder.len() {
        if way.len() <= root.len() {
            break;
        }
        match host.is_filled(way)? {
            Some(true) => break,
            Some(false) => {
                host.sync_folder(above(way))?;
                break;
            }
            None => way = above(way),
        }
    }
    Ok(way.len())
}

/// The folder whose path ends before `end`, where a slash stands there.
fn folder_before(path: &str, end: usize) -> Option<&str> {
    match path.split_at_checked(end) {
        Some((folder, rest)) if rest.starts_with('/') => Some(folder),
        _ => None,
    }
}

/// Makes a folder, and syncs the one above it.
fn make_folder<R: Files, N: Notes>(host: &Host<'_, R, N>, path: &str) -> io::Result<()> {
    host.make_folder(path)?;
    host.sync_folder(above(path))
}
