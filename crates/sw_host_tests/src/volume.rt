use crate::folders::{end_folder, fresh_folder, is_empty};
use std::alloc::Global;
use std::fs;
use std::test::Fail;
use sw_outside::{Bytes, NoMemory, StoreError};
use sw_store::{HostVolume, NoNotes};
use sw_volume::{Listing, Volume, VolumeError};

/// A call of a volume, with what a listing or a reading tells.
#[derive(Clone, Copy)]
pub(crate) enum Call<'a> {
    Put(&'a [u8], &'a [u8], &'a [u8]),
    Unlink(&'a [u8], &'a [u8]),
    Read(&'a [u8], &'a [u8], Option<&'a [u8]>),
    List(&'a [u8], &'a [&'a [u8]], &'a [&'a [u8]]),
}

use Call::{List, Put, Read, Unlink};

pub(crate) const HASH: &[u8] = b"objects/0/a83/06fbf0b514e5199dfc4e00f42eb5ea83";

pub(crate) const DATA: &[u8] = b"0000000005.00000.data";

const TOMBSTONE: &[u8] = b"0000000005.00000.ts";

/// Calls in their order, none of which fails.
pub(crate) const CALLS: [Call; 15] = [
    List(b"objects", &[], &[]),
    Read(HASH, DATA, None),
    Unlink(HASH, DATA),
    Put(HASH, TOMBSTONE, b""),
    Put(HASH, DATA, b"data"),
    Put(b"objects/0/59e/x", b"f", b"x"),
    Put(b"objects/0/a83-old/y", b"f", b"y"),
    Put(b"objects/0", b"power", b"2"),
    List(b"objects/0", &[b"power"], &[b"59e", b"a83", b"a83-old"]),
    List(HASH, &[DATA, TOMBSTONE], &[]),
    Put(HASH, DATA, b"more data"),
    Read(HASH, DATA, Some(b"more data")),
    Read(HASH, TOMBSTONE, Some(b"")),
    Unlink(HASH, TOMBSTONE),
    Unlink(HASH, TOMBSTONE),
];

/// What a volume finds that is opened after these.
pub(crate) const CALLS_LATER: [Call; 5] = [
    List(b"objects", &[], &[b"0"]),
    List(HASH, &[DATA], &[]),
    Read(HASH, DATA, Some(b"more data")),
    Read(HASH, TOMBSTONE, None),
    Read(b"objects/0", b"power", Some(b"2")),
];

/// Calls that fail: their paths aren't those of a volume's files, or something else stands there.
const REFUSED: [Call; 12] = [
    Put(b"", b"f", b""),
    Put(b"/objects", b"f", b""),
    Put(b"objects/", b"f", b""),
    Put(b"objects//0", b"f", b""),
    Put(b"objects/./0", b"f", b""),
    Put(b"objects/../..", b"f", b""),
    Put(b"tmp", b"f", b""),
    Put(b"objects\xff", b"f", b""),
    Put(b"objects", b"..", b""),
    Read(b"objects", b"0/power", None),
    Unlink(b"objects", b"0"),
    List(b"objects/0/power", &[], &[]),
];

/// Whether the call tells what it is to tell, where it doesn't fail.
pub(crate) fn is_as_told<V: Volume>(
    alloc: Global,
    volume: &mut V,
    call: Call,
) -> Result<bool, VolumeError> {
    match call {
        Put(dir, file, bytes) => {
            volume.put(alloc, dir, file, bytes)?;
            Ok(true)
        }
        Unlink(dir, file) => {
            volume.unlink(dir, file)?;
            Ok(true)
        }
        Read(dir, file, wanted) => Ok(is_some_of(&volume.read(alloc, dir, file)?, wanted)),
        List(dir, files, folders) => Ok(has_names(&volume.list(alloc, dir)?, files, folders)),
    }
}

fn has_names(listing: &Listing, files: &[&[u8]], folders: &[&[u8]]) -> bool {
    are_these(listing.files.as_slice(), files) && are_these(listing.folders.as_slice(), folders)
}

/// Whether the byte strings are these, in their order.
fn are_these(found: &[Bytes], wanted: &[&[u8]]) -> bool {
    found.len() == wanted.len() && found.iter().zip(wanted).all(|(f, w)| f.as_slice() == *w)
}

/// Whether these bytes were found, or none.
pub(crate) fn is_some_of(found: &Option<Bytes>, wanted: Option<&[u8]>) -> bool {
    match (found, wanted) {
        (Some(bytes), Some(wanted)) => bytes.as_slice() == wanted,
        (None, None) => true,
        _ => false,
    }
}

/// The number of the first call that answers otherwise.
pub(crate) fn first_other<V: Volume>(
    alloc: Global,
    volume: &mut V,
    calls: &[Call],
    wanted: Result<bool, VolumeError>,
) -> Option<usize> {
    for (number, call) in calls.iter().enumerate() {
        if is_as_told(alloc, volume, *call) != wanted {
            return Some(number);
        }
    }
    None
}

/// The number of the process that has the volumes.
pub(crate) const OWNER: u32 = 4711;

/// The number of the first call that answers otherwise, in a volume that is opened for these.
fn first_other_in(
    rt: &HostRuntime,
    root: &str,
    calls: &[Call],
    wanted: Result<bool, VolumeError>,
) -> Result<Option<usize>, StoreError> {
    let alloc = rt.alloc();
    let root = String::from_str(alloc, root).map_err(NoMemory::from)?;
    let mut volume = HostVolume::open(rt, &NoNotes, root, OWNER)?;
    Ok(first_other(alloc, &mut volume, calls, wanted))
}

#[test]
fn files_are_found_by_a_volume_that_is_opened_later(rt: HostRuntime) -> Result<(), Fail> {
    let base = fresh_folder(&rt, "later")?;
    let root = format!(in rt.alloc(); "{base}/0/03")?;
    let left = format!(in rt.alloc(); "{root}/tmp")?;
    let file = format!(in rt.alloc(); "{left}/put-7")?;
    assert!(rt; fs::create_dir_all(&rt, root.as_str()).is_ok());
    assert!(rt; first_other_in(&rt, &root, &CALLS, Ok(true)) == Ok(None));
    assert!(rt; is_empty(&rt, &left));
    assert!(rt; fs::write(&rt, file.as_str(), "half a fi").is_ok());
    assert!(rt; first_other_in(&rt, &root, &CALLS_LATER, Ok(true)) == Ok(None));
    assert!(rt; is_empty(&rt, &left));
    end_folder(&rt, &base)
}

#[test]
fn paths_that_are_none_of_a_volume_fail(rt: HostRuntime) -> Result<(), Fail> {
    let base = fresh_folder(&rt, "refused")?;
    assert!(rt; fs::create_dir(&rt, base.as_str()).is_ok());
    assert!(rt; first_other_in(&rt, &base, &CALLS, Ok(true)) == Ok(None));
    let failed = Err(VolumeError::Failed);
    assert!(rt; first_other_in(&rt, &base, &REFUSED, failed) == Ok(None));
    assert!(rt; first_other_in(&rt, &base, &CALLS_LATER, Ok(true)) == Ok(None));
    end_folder(&rt, &base)
}

/// Calls that find nothing, or write: over a folder that is gone none of them is answered.
const ANYWHERE: [Call; 4] = [
    List(b"objects", &[], &[]),
    Read(b"objects/0", b"power", None),
    Unlink(b"objects/0", b"power"),
    Put(b"objects/0", b"power", b"3"),
];

#[test]
fn a_volume_whose_folder_is_gone_fails_until_it_is_back(rt: HostRuntime) -> Result<(), Fail> {
    let alloc = rt.alloc();
    let root = fresh_folder(&rt, "gone")?;
    let elsewhere = format!(in alloc; "{root}-elsewhere")?;
    assert!(rt; fs::create_dir(&rt, root.as_str()).is_ok());
    let mut volume = HostVolume::open(&rt, &NoNotes, root.clone()?, OWNER)?;
    assert!(rt; first_other(alloc, &mut volume, &CALLS, Ok(true)).is_none());
    assert!(rt; fs::rename(&rt, root.as_str(), elsewhere.as_str()).is_ok());
    let failed = Err(VolumeError::Failed);
    assert!(rt; first_other(alloc, &mut volume, &ANYWHERE, failed).is_none());
    assert!(rt; fs::rename(&rt, elsewhere.as_str(), root.as_str()).is_ok());
    assert!(rt; first_other(alloc, &mut volume, &CALLS_LATER, Ok(true)).is_none());
    end_folder(&rt, &root)
}
