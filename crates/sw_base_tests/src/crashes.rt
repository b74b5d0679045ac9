//! What a crash leaves of a disk in memory, at its worst and at its best: a double, which no contract reaches.

use std::alloc::{AllocError, Global};
use sw_disk::Change;

/// A file, and whether its bytes were synced.
#[derive(Clone, Copy)]
struct Kept<'a> {
    bytes: &'a [u8],
    synced: bool,
}

/// What stands at a name of a folder, and what stood there when that was synced.
#[derive(Clone, Copy)]
struct Name<'a> {
    dir: &'a [u8],
    file: &'a [u8],
    now: Option<Kept<'a>>,
    was: Option<Kept<'a>>,
}

/// A folder, and whether the one above it was synced since it was made.
#[derive(Clone, Copy)]
struct Folder<'a> {
    dir: &'a [u8],
    synced: bool,
}

/// The names and folders that changes made.
#[derive(Drop)]
struct Seen<'a> {
    names: Vec<Name<'a>>,
    folders: Vec<Folder<'a>>,
}

/// A file that is left.
#[derive(Clone, Copy)]
pub(crate) struct LeftFile<'a> {
    pub dir: &'a [u8],
    pub file: &'a [u8],
    pub bytes: &'a [u8],
}

/// What a crash leaves of names that weren't synced.
#[derive(Clone, Copy)]
pub(crate) enum Left {
    /// What stood there when their folder was synced.
    Synced,
    /// What stands there.
    Made,
}

fn above(dir: &[u8]) -> &[u8] {
    match dir.iter().rposition(|byte| *byte == b'/') {
        Some(at) => &dir[..at],
        None => b"",
    }
}

fn set<'a>(
    names: &mut Vec<Name<'a>>,
    dir: &'a [u8],
    file: &'a [u8],
    now: Option<Kept<'a>>,
) -> Result<(), AllocError> {
    for name in names.iter_mut() {
        if name.dir == dir && name.file == file {
            name.now = now;
            return Ok(());
        }
    }
    names.push(Name {
        dir,
        file,
        now,
        was: None,
    })?;
    Ok(())
}

fn stands<'a>(names: &[Name<'a>], dir: &[u8], file: &[u8]) -> Option<Kept<'a>> {
    for name in names {
        if name.dir == dir && name.file == file {
            return name.now;
        }
    }
    None
}

fn sync_names(names: &mut [Name], folders: &mut [Folder], dir: &[u8]) {
    for name in names.iter_mut() {
        if name.dir == dir {
            name.was = name.now;
        }
    }
    for folder in folders.iter_mut() {
        if above(folder.dir) == dir {
            folder.synced = true;
        }
    }
}

fn is_there(folders: &[Folder], dir: &[u8]) -> bool {
    for folder in folders {
        if folder.dir == dir {
            return true;
        }
    }
    false
}

fn see<'a>(seen: &mut Seen<'a>, change: &'a Change) -> Result<(), AllocError> {
    match change {
        Change::Created { dir, file, bytes } => {
            let bytes = bytes.as_slice();
            let synced = false;
            set(
                &mut seen.names,
                dir.as_slice(),
                file.as_slice(),
                Some(Kept { bytes, synced }),
            )
        }
        Change::FileSynced { dir, file } => {
            match stands(&seen.names, dir.as_slice(), file.as_slice()) {
                Some(Kept { bytes, .. }) => {
                    let synced = true;
                    set(
                        &mut seen.names,
                        dir.as_slice(),
                        file.as_slice(),
                        Some(Kept { bytes, synced }),
                    )
                }
                None => Ok(()),
            }
        }
        Change::FolderSynced { dir } => {
            sync_names(&mut seen.names, &mut seen.folders, dir.as_slice());
            Ok(())
        }
        Change::Moved {
            from_dir,
            from_file,
            dir,
            file,
        } => {
            let moved = stands(&seen.names, from_dir.as_slice(), from_file.as_slice());
            set(
                &mut seen.names,
                from_dir.as_slice(),
                from_file.as_slice(),
                None,
            )?;
            set(&mut seen.names, dir.as_slice(), file.as_slice(), moved)
        }
        Change::Made { dir } => {
            let dir = dir.as_slice();
            if !is_there(&seen.folders, dir) {
                seen.folders.push(Folder { dir, synced: false })?;
            }
            Ok(())
        }
        Change::Removed { dir, file } => {
            set(&mut seen.names, dir.as_slice(), file.as_slice(), None)
        }
    }
}

/// The folders of these that are left, each with all above it.
fn folders_left<'a>(
    alloc: Global,
    folders: &[Folder<'a>],
    left: Left,
) -> Result<Vec<Folder<'a>>, AllocError> {
    let mut there: Vec<Folder<'a>> = Vec::new(alloc);
    for folder in folders {
        let way = above(folder.dir);
        let stands = folder.synced || matches!(left, Left::Made);
        if stands && (way.is_empty() || is_there(&there, way)) {
            there.push(*folder)?;
        }
    }
    Ok(there)
}

/// What is left at a name.
fn left_at<'a>(name: &Name<'a>, left: Left) -> Option<Kept<'a>> {
    match left {
        Left::Made => name.now,
        Left::Synced => name.was,
    }
}

/// The files of these that are in folders which are left, and not in the one for writing.
fn files_left<'a>(
    alloc: Global,
    names: &[Name<'a>],
    there: &[Folder<'a>],
    left: Left,
) -> Result<Vec<LeftFile<'a>>, AllocError> {
    let mut files = Vec::new(alloc);
    for name in names {
        if let Some(kept) = left_at(name, left) {
            if is_there(there, name.dir) && name.dir != b"tmp".as_slice() {
                files.push(LeftFile {
                    dir: name.dir,
                    file: name.file,
                    bytes: if kept.synced { kept.bytes } else { b"" },
                })?;
            }
        }
    }
    Ok(files)
}

/// The names and folders that these changes made.
fn seen_of<'a>(alloc: Global, changes: &'a [Change]) -> Result<Seen<'a>, AllocError> {
    let mut seen = Seen {
        names: Vec::new(alloc),
        folders: Vec::new(alloc),
    };
    for change in changes {
        see(&mut seen, change)?;
    }
    Ok(seen)
}

/// What a crash leaves of the files of a disk on which these changes were made: of one that wasn't synced no byte.
pub(crate) fn crashed<'a>(
    alloc: Global,
    changes: &'a [Change],
    left: Left,
) -> Result<Vec<LeftFile<'a>>, AllocError> {
    let seen = seen_of(alloc, changes)?;
    let there = folders_left(alloc, &seen.folders, left)?;
    files_left(alloc, &seen.names, &there, left)
}
