use crate::fixtures::{are_these, is_some_of};
use std::alloc::{AllocError, Global};
use sw_outside::FailingCall;
use sw_volume::{Listing, MemVolume, SoundVolume, Volume, VolumeError};

/// A call of a volume, with what a listing or a reading tells.
enum Call<'a> {
    Put(&'a [u8], &'a [u8], &'a [u8]),
    Unlink(&'a [u8], &'a [u8]),
    Read(&'a [u8], &'a [u8], Option<&'a [u8]>),
    List(&'a [u8], &'a [&'a [u8]], &'a [&'a [u8]]),
}

use Call::{List, Put, Read, Unlink};

const HASH: &[u8] = b"objects/0/a83/06fbf0b514e5199dfc4e00f42eb5ea83";

const DATA: &[u8] = b"0000000005.00000.data";

const TOMBSTONE: &[u8] = b"0000000005.00000.ts";

/// Calls in their order, none of which fails: files in a hash directory, in its suffix, in folders beside that and in one
/// whose name goes on behind it; and files whose folder, name or bytes are empty.
static CALLS: [Call; 27] = [
    List(b"objects", &[], &[]),
    Put(HASH, DATA, b"data"),
    Put(HASH, TOMBSTONE, b""),
    Put(b"objects/0/59e/x", b"f", b"x"),
    Put(b"objects/0/a83", b"hashes", b"h"),
    Put(b"objects/0/a83-old/y", b"f", b"y"),
    Put(b"objects/0", b"power", b"2"),
    List(b"objects/0", &[b"power"], &[b"59e", b"a83", b"a83-old"]),
    List(HASH, &[DATA, TOMBSTONE], &[]),
    List(b"", &[], &[]),
    List(b"objects/0/a8", &[], &[]),
    Put(HASH, DATA, b"more data"),
    Read(HASH, DATA, Some(b"more data")),
    Read(HASH, TOMBSTONE, Some(b"")),
    Unlink(HASH, TOMBSTONE),
    Unlink(HASH, TOMBSTONE),
    Read(HASH, TOMBSTONE, None),
    List(HASH, &[DATA], &[]),
    Put(b"", b"f", b"x"),
    Put(b"d", b"", b""),
    Read(b"", b"f", Some(b"x")),
    Read(b"d", b"", Some(b"")),
    List(b"", &[b"f"], &[]),
    List(b"d", &[b""], &[]),
    Unlink(b"", b"f"),
    Unlink(b"d", b""),
    Read(b"d", b"", None),
];

/// Whether the call tells what it is to tell, where it doesn't fail.
fn is_as_told<V: Volume>(alloc: Global, volume: &mut V, call: &Call) -> Result<bool, VolumeError> {
    match call {
        Put(dir, file, bytes) => {
            volume.put(alloc, dir, file, bytes)?;
            Ok(true)
        }
        Unlink(dir, file) => {
            volume.unlink(dir, file)?;
            Ok(true)
        }
        Read(dir, file, wanted) => Ok(is_some_of(&volume.read(alloc, dir, file)?, *wanted)),
        List(dir, files, folders) => Ok(has_names(&volume.list(alloc, dir)?, files, folders)),
    }
}

fn has_names(listing: &Listing, files: &[&[u8]], folders: &[&[u8]]) -> bool {
    are_these(listing.files.as_slice(), files) && are_these(listing.folders.as_slice(), folders)
}

/// The number of the first call that answers otherwise, or fails.
fn first_other<V: Volume>(alloc: Global, volume: &mut V, calls: &[Call]) -> Option<usize> {
    for (number, call) in calls.iter().enumerate() {
        if is_as_told(alloc, volume, call) != Ok(true) {
            return Some(number);
        }
    }
    None
}

#[test]
fn files_and_folders_are_listed_read_and_taken_away(rt: HostRuntime) {
    let alloc = rt.alloc();
    assert_eq!(rt;
        first_other(alloc, &mut SoundVolume::new(alloc), &CALLS),
        None
    );
    let mut volume = MemVolume::new(alloc, Vec::new(alloc));
    assert_eq!(rt; first_other(alloc, &mut volume, &CALLS), None);
}

/// Calls in their order, and whether each of them fails, and if so with its change made.
static FAILURES: [(Call, Option<bool>); 16] = [
    (Put(b"d", b"f", b"1"), Some(false)),
    (Read(b"d", b"f", None), None),
    (Put(b"d", b"f", b"2"), Some(true)),
    (Read(b"d", b"f", Some(b"2")), None),
    (Put(b"d", b"f", b"3"), Some(false)),
    (Read(b"d", b"f", Some(b"2")), None),
    (Unlink(b"d", b"f"), Some(false)),
    (List(b"d", &[b"f"], &[]), None),
    (Unlink(b"d", b"f"), Some(true)),
    (Read(b"d", b"f", None), None),
    (List(b"d", &[], &[]), Some(false)),
    (Read(b"d", b"f", None), Some(true)),
    (Put(b"", b"", b""), Some(false)),
    (Read(b"", b"", None), None),
    (Put(b"", b"", b""), Some(true)),
    (Read(b"", b"", Some(b"")), None),
];

/// The calls of these that fail, by their numbers.
fn plan(alloc: Global, calls: &[(Call, Option<bool>)]) -> Result<Vec<FailingCall>, AllocError> {
    let mut failing = Vec::new(alloc);
    for (number, (_, fails)) in calls.iter().enumerate() {
        if let Some(made) = *fails {
            let call = number as u64;
            failing.push(FailingCall { call, made })?;
        }
    }
    Ok(failing)
}

/// The number of the first call that answers otherwise, over a volume that fails as it is planned to.
fn first_other_of_failing(alloc: Global) -> Result<Option<usize>, AllocError> {
    let mut volume = MemVolume::new(alloc, plan(alloc, &FAILURES)?);
    for (number, (call, fails)) in FAILURES.iter().enumerate() {
        let wanted = match fails {
            Some(_) => Err(VolumeError::Failed),
            None => Ok(true),
        };
        if is_as_told(alloc, &mut volume, call) != wanted {
            return Ok(Some(number));
        }
    }
    Ok(None)
}

#[test]
fn calls_fail_where_they_are_planned_to_and_make_their_changes_as_planned(rt: HostRuntime) {
    assert_eq!(rt; first_other_of_failing(rt.alloc()), Ok(None));
}

/// Whether the copy of the listing of a folder has these names.
fn is_copied<V: Volume>(
    alloc: Global,
    volume: &mut V,
    dir: &[u8],
    files: &[&[u8]],
    folders: &[&[u8]],
) -> Result<bool, VolumeError> {
    let listing = volume.list(alloc, dir)?;
    Ok(has_names(&listing.copy(alloc)?, files, folders))
}

fn listings_are_copied<V: Volume>(alloc: Global, volume: &mut V) -> Result<bool, VolumeError> {
    let all: [&[u8]; 3] = [b"59e", b"a83", b"a83-old"];
    Ok(
        first_other(alloc, volume, &CALLS).is_none()
            && is_copied(alloc, volume, b"objects/0", &[b"power"], &all)?
            && is_copied(alloc, volume, b"nothing", &[], &[])?,
    )
}

#[test]
fn a_listing_and_its_copy_have_the_same_names(rt: HostRuntime) {
    let alloc = rt.alloc();
    assert!(rt; listings_are_copied(alloc, &mut SoundVolume::new(alloc)) == Ok(true));
}
