use crate::host_stores::root_of;
use crate::layout::Layout;
use std::alloc::Global;
use std::fs::{File, OpenFile, OpenOptions, TryLockError};
use std::io::{ErrorKind, Write};
use std::rt::Files;
use std::{fs, io};
use sw_host::{Host, HostCall, Notes, above, below};

/// The file whose lock the one process has that may touch the folder. The host ends the lock with the process, however that ends.
const LOCK: &str = "lock";

/// The file that tells for which ring the folder was made.
const LAYOUT: &str = "layout";

/// Its name while the folder is made: with this one and without the other, nothing was kept in the folder yet.
const DRAFT: &str = "layout.new";

/// Makes this process the owner of a node's folder, as long as the lock that is given isn't let go, before anything else in it is touched. A folder that is
/// missing or empty is made for this layout, with a folder for each lock; in any other one it has to be the layout that stands there.
pub(crate) fn claim<R: Files<File = File> + AllocGlobal, N: Notes>(
    host: &Host<'_, R, N>,
    base: &str,
    owner: u32,
    layout: &Layout,
) -> io::Result<File> {
    host.make_missing(base)?;
    let lock = own(host, base, owner)?;
    let path = below(base, LAYOUT)?;
    if host.is_there(&path)? {
        compare(host, &path, layout)?;
    } else {
        make(host, base, &path, layout)?;
    }
    host.sync_with_above(base)?;
    Ok(lock)
}

/// Takes the lock, and writes the number of this process into its file.
fn own<R: Files<File = File>, N: Notes>(
    host: &Host<'_, R, N>,
    base: &str,
    owner: u32,
) -> io::Result<File> {
    let path = below(base, LOCK)?;
    let mut options = OpenOptions::new();
    options.read(true).write(true).create(true).truncate(false);
    let opened = options.open(host.rt, path.as_str());
    let mut lock = host.noted(HostCall::Create, &path, opened)?;
    let locked = try_lock(&lock);
    host.noted(HostCall::Lock, &path, locked)?;
    let written = write_owner(&mut lock, owner);
    host.noted(HostCall::Write, &path, written)?;
    Ok(lock)
}

fn try_lock(lock: &File) -> io::Result<()> {
    match lock.try_lock() {
        Ok(()) => Ok(()),
        Err(TryLockError::Error(error)) => Err(error),
        Err(TryLockError::WouldBlock) => Err(io::Error::new(
            ErrorKind::WouldBlock,
            "another process has this folder",
        )),
    }
}

fn write_owner(lock: &mut File, owner: u32) -> io::Result<()> {
    lock.set_len(0)?;
    let mut digits = itoa::Buffer::new();
    lock.write_all(digits.format(owner).as_bytes())?;
    lock.write_all(b"\n")
}

/// Whether the layout that stands there is this one.
fn compare<R: Files + AllocGlobal, N: Notes>(
    host: &Host<'_, R, N>,
    path: &str,
    layout: &Layout,
) -> io::Result<()> {
    let read = fs::read(host.rt, path);
    let found = host.noted(HostCall::Read, path, read)?;
    if found == layout.text {
        return Ok(());
    }
    let other = io::Error::new(
        ErrorKind::InvalidData,
        "it was made for a ring that keeps things elsewhere",
    );
    host.noted(HostCall::Check, path, Err(other))
}

/// Makes a folder in which nothing was kept yet: the layout gets its name last.
fn make<R: Files + AllocGlobal, N: Notes>(
    host: &Host<'_, R, N>,
    base: &str,
    path: &str,
    layout: &Layout,
) -> io::Result<()> {
    let draft = below(base, DRAFT)?;
    if !host.is_there(&draft)? {
        let empty = is_empty(host.rt, base);
        host.noted(HostCall::Check, base, empty)?;
    }
    host.write_whole(&draft, &layout.text)?;
    host.sync_folder(base)?;
    for device in 0..layout.devices {
        make_locks(host, base, device, layout.stripes)?;
    }
    host.sync_folder(base)?;
    host.rename(&draft, path)
}

/// An error where anything stands in the folder but the lock.
fn is_empty<R: Files + AllocGlobal>(rt: &R, base: &str) -> io::Result<()> {
    for entry in fs::read_dir(&rt, base)? {
        if entry?.file_name() != LOCK {
            return Err(io::Error::new(
                ErrorKind::DirectoryNotEmpty,
                "it isn't empty, and it has no layout",
            ));
        }
    }
    Ok(())
}

/// Makes the folders of all locks of a device.
fn make_locks<R: Files + AllocGlobal, N: Notes>(
    host: &Host<'_, R, N>,
    base: &str,
    device: u8,
    stripes: u8,
) -> io::Result<()> {
    for stripe in 0..stripes {
        make_lock(host, base, device, stripe)?;
    }
    Ok(())
}

fn make_lock<R: Files + AllocGlobal, N: Notes>(
    host: &Host<'_, R, N>,
    base: &str,
    device: u8,
    stripe: u8,
) -> io::Result<()> {
    let alloc: Global = host.rt.alloc();
    let Ok(root) = root_of(alloc, base, device, stripe) else {
        return Err(io::Error::from(ErrorKind::OutOfMemory));
    };
    host.make_missing(above(&root))?;
    host.make_missing(&root)?;
    host.sync_folder(above(&root))
}
