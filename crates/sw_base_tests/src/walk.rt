use crate::fixtures::are_these;
use std::alloc::{AllocError, Global};
use sw_hashdir::paths_below;
use sw_outside::FailingCall;
use sw_volume::{MemVolume, SoundVolume, Volume, VolumeError};

/// Files by directory and name: one at each level, two of one path, and two that aren't below `objects` or are too far below it.
const FILES: [(&[u8], &[u8]); 8] = [
    (b"objects", b"ring"),
    (b"objects/0", b"power"),
    (b"objects/0", b"a83/hashes"),
    (b"objects/0/a83", b"hashes"),
    (b"objects/0/a83/06f", b"5.data"),
    (b"objects/0-old/59e/x", b"f"),
    (b"objects/0/a83/06f/below", b"f"),
    (b"objects-old/0", b"f"),
];

/// Their paths, as they are listed.
const PATHS: [&[u8]; 5] = [
    b"objects/0-old/59e/x/f",
    b"objects/0/a83/06f/5.data",
    b"objects/0/a83/hashes",
    b"objects/0/power",
    b"objects/ring",
];

/// Puts the files, and says whether their paths are listed.
fn are_listed<V: Volume>(alloc: Global, volume: &mut V) -> Result<bool, VolumeError> {
    for (dir, file) in FILES {
        volume.put(alloc, dir, file, b"")?;
    }
    let paths = paths_below(alloc, volume)?;
    Ok(are_these(paths.as_slice(), &PATHS))
}

/// The number of the call that fails, and what is answered. There are eight puts, and then seven listings.
const ANSWERS: [(u64, Result<bool, VolumeError>); 4] = [
    (8, Err(VolumeError::Failed)),
    (14, Err(VolumeError::Failed)),
    (15, Ok(true)),
    (99, Ok(true)),
];

/// Whether a volume of which this call fails answers so.
fn answers(
    alloc: Global,
    call: u64,
    wanted: Result<bool, VolumeError>,
) -> Result<bool, AllocError> {
    let failing = Vec::from_slice(alloc, &[FailingCall { call, made: false }])?;
    let mut volume = MemVolume::new(alloc, failing);
    Ok(are_listed(alloc, &mut volume) == wanted)
}

#[test]
fn each_path_below_objects_is_listed_once_or_a_listing_fails(rt: HostRuntime) {
    let alloc = rt.alloc();
    assert!(rt; are_listed(alloc, &mut SoundVolume::new(alloc)) == Ok(true));
    for (call, wanted) in ANSWERS {
        assert!(rt; answers(alloc, call, wanted) == Ok(true));
    }
}
