use std::alloc::AllocError;
use std::fs::DirEntry;
use std::io::ErrorKind;
use std::rt::Files;
use std::{fs, io};
use sw_outside::{Bytes, BytesList};
use sw_volume::Listing;

/// The files and the folders that stand in a folder. A name that isn't UTF-8 is passed over.
pub(crate) fn listed<R: Files + AllocGlobal>(rt: &R, folder: &str) -> io::Result<Listing> {
    let mut files = Vec::new(rt.alloc());
    let mut folders = Vec::new(rt.alloc());
    for entry in fs::read_dir(&rt, folder)? {
        add(&mut files, &mut folders, entry)?;
    }
    Ok(Listing {
        files: in_order(files)?,
        folders: in_order(folders)?,
    })
}

/// The entry of a folder, unless its name isn't UTF-8.
fn with_text<R: Files + Drop>(entry: io::Result<DirEntry<R>>) -> io::Result<Option<DirEntry<R>>> {
    match entry {
        Ok(entry) => Ok(Some(entry)),
        Err(error) if error.kind() == ErrorKind::InvalidFilename => Ok(None),
        Err(error) => Err(error),
    }
}

/// Adds the name of an entry to those of the files or of the folders. One that is neither, and one whose name isn't UTF-8, is passed over.
fn add<R: Files + Drop>(
    files: &mut Vec<String>,
    folders: &mut Vec<String>,
    entry: io::Result<DirEntry<R>>,
) -> io::Result<()> {
    let Some(entry) = with_text(entry)? else {
        return Ok(());
    };
    let kind = entry.file_type()?;
    let name = String::from_str(files.allocator().clone()?, entry.file_name())?;
    if kind.is_file() {
        files.push(name).map_err(AllocError::from)?;
    } else if kind.is_dir() {
        folders.push(name).map_err(AllocError::from)?;
    }
    Ok(())
}

/// The names in byte order.
fn in_order(names: Vec<String>) -> Result<BytesList, AllocError> {
    let mut names = names;
    names.sort_unstable();
    let mut list = Vec::with_capacity(names.allocator().clone()?, names.len())?;
    for name in names {
        list.push(Bytes::from(name.into_bytes()))
            .map_err(AllocError::from)?;
    }
    Ok(BytesList::from(list))
}
