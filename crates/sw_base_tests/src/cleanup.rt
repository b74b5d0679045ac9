use crate::fixtures::{Named, are_these, names_of};
use std::alloc::Global;
use sw_cleanup::{cleanup, laws, names_of_writes, obsolete, unlink_each};
use sw_diskfile::{FileName, Picked, read_name};
use sw_outside::{FailingCall, NoMemory};
use sw_timestamp::Tag;
use sw_volume::{MemVolume, SoundVolume, Volume, VolumeError};

const HASH: &[u8] = b"objects/0/a83/06fbf0b514e5199dfc4e00f42eb5ea83";

const OTHER: &[u8] = b"objects/0/a83/16fbf0b514e5199dfc4e00f42eb5ea83";

const DATA_4: &[u8] = b"0000000004.00000.data";

const META_4: &[u8] = b"0000000004.00000.meta";

const TS_4: &[u8] = b"0000000004.00000.ts";

const DATA_5: &[u8] = b"0000000005.00000.data";

const META_5: &[u8] = b"0000000005.00000.meta";

const TS_5: &[u8] = b"0000000005.00000.ts";

const META_9: &[u8] = b"0000000009.00000.meta";

const TS_9: &[u8] = b"0000000009.00000.ts";

/// Files that aren't named as a write's, in byte order: no time, eleven digits, capitals, six decimals, no digits.
const FOREIGN: [&[u8]; 5] = [
    b".data",
    b"00000000005.00000.data",
    b"0000000005.00000.DATA",
    b"0000000005.000000.data",
    b"x.data",
];

/// The files of a directory, and those that are left when it was cleaned up, both in byte order.
const CASES: [(&[&[u8]], &[&[u8]]); 12] = [
    (&[], &[]),
    (&FOREIGN, &FOREIGN),
    (&[DATA_4, DATA_5], &[DATA_5]),
    (&[TS_4, TS_5], &[TS_5]),
    (&[META_4, META_5, META_9], &[META_9]),
    (&[DATA_5, META_5], &[DATA_5]),
    (&[DATA_5, META_5, TS_5], &[TS_5]),
    (&[META_4, TS_4, DATA_5, META_9], &[DATA_5, META_9]),
    (&[DATA_4, META_5, TS_9], &[TS_9]),
    (&[DATA_4, TS_5, META_9], &[TS_5, META_9]),
    (&[META_5], &[META_5]),
    (&[DATA_4, META_4, TS_4, META_5, META_9], &[TS_4, META_9]),
];

fn put_all<V: Volume>(
    alloc: Global,
    volume: &mut V,
    dir: &[u8],
    files: &[&[u8]],
) -> Result<(), VolumeError> {
    for file in files {
        volume.put(alloc, dir, file, file)?;
    }
    Ok(())
}

/// Whether these files stand in the directory, and no others.
fn has_files<V: Volume>(alloc: Global, volume: &mut V, dir: &[u8], wanted: &[&[u8]]) -> bool {
    match volume.list(alloc, dir) {
        Ok(listing) => are_these(listing.files.as_slice(), wanted),
        Err(_) => false,
    }
}

/// Whether cleaning up a directory with these files leaves those, and another directory as it was, and picks the same again.
fn leaves<V: Volume>(
    alloc: Global,
    volume: &mut V,
    files: &[&[u8]],
    left: &[&[u8]],
) -> Result<bool, VolumeError> {
    put_all(alloc, volume, HASH, files)?;
    put_all(alloc, volume, OTHER, files)?;
    let picked = cleanup(alloc, volume, HASH)?;
    let again = cleanup(alloc, volume, HASH)?;
    Ok(
        picked == again
            && has_files(alloc, volume, HASH, left)
            && has_files(alloc, volume, OTHER, files),
    )
}

#[test]
fn obsolete_files_go_and_all_others_stay(rt: HostRuntime) {
    let alloc = rt.alloc();
    for (files, left) in CASES {
        assert!(rt; leaves(alloc, &mut SoundVolume::new(alloc), files, left) == Ok(true));
    }
}

/// The number of the call that fails, whether its change is made, and the files that are left then. The three puts are
/// followed by the listing, by the unlink of the earlier data, and by that of the tombstone.
const FAILURES: [(u64, bool, &[&[u8]]); 7] = [
    (3, false, &[DATA_4, TS_4, DATA_5]),
    (3, true, &[DATA_4, TS_4, DATA_5]),
    (4, false, &[DATA_4, DATA_5]),
    (4, true, &[DATA_5]),
    (5, false, &[TS_4, DATA_5]),
    (5, true, &[DATA_5]),
    (99, false, &[DATA_5]),
];

/// Earlier data, a tombstone of its time and later data, in a volume of which one call fails.
fn failing_volume(alloc: Global, call: u64, made: bool) -> Result<MemVolume, VolumeError> {
    let failing = vec![in alloc; FailingCall { call, made }]?;
    let mut volume = MemVolume::new(alloc, failing);
    put_all(alloc, &mut volume, HASH, &[DATA_4, TS_4, DATA_5])?;
    Ok(volume)
}

/// What cleaning up answers where this call of the volume fails.
fn answer_of(call: u64) -> Result<Picked, VolumeError> {
    if call == 3 {
        return Err(VolumeError::Failed);
    }
    Ok(Picked {
        base: read_name(DATA_5).ok(),
        meta: None,
    })
}

/// Whether cleaning up answers so, and leaves these files, where this call of the volume fails.
fn cleans_up(alloc: Global, call: u64, made: bool, left: &[&[u8]]) -> Result<bool, VolumeError> {
    let mut volume = failing_volume(alloc, call, made)?;
    let answer = cleanup(alloc, &mut volume, HASH);
    Ok(answer == answer_of(call) && has_files(alloc, &mut volume, HASH, left))
}

#[test]
fn a_failed_listing_is_told_and_a_failed_unlink_stops_nothing(rt: HostRuntime) {
    for (call, made, left) in FAILURES {
        assert!(rt; cleans_up(rt.alloc(), call, made, left) == Ok(true));
    }
}

/// The number of the call that fails, whether its change is made, and the files that are left when two of three are
/// unlinked, the later data first.
const UNLINKS: [(u64, bool, &[&[u8]]); 5] = [
    (3, false, &[DATA_4, DATA_5]),
    (3, true, &[DATA_4]),
    (4, false, &[DATA_4, TS_4]),
    (4, true, &[DATA_4]),
    (9, false, &[DATA_4]),
];

/// Whether these files are left of the two, where this call of the volume fails.
fn unlinks(alloc: Global, call: u64, made: bool, left: &[&[u8]]) -> Result<bool, VolumeError> {
    let files = names_of(alloc, &[(500_000, Tag::Put), (400_000, Tag::Del)])?;
    let mut volume = failing_volume(alloc, call, made)?;
    unlink_each(&mut volume, HASH, &files);
    Ok(has_files(alloc, &mut volume, HASH, left))
}

#[test]
fn files_are_unlinked_one_by_one_in_the_order_given(rt: HostRuntime) {
    for (call, made, left) in UNLINKS {
        assert!(rt; unlinks(rt.alloc(), call, made, left) == Ok(true));
    }
}

/// Files of writes among others, as a volume lists them.
fn listed<V: Volume>(alloc: Global, volume: &mut V) -> Result<Vec<FileName>, VolumeError> {
    put_all(alloc, volume, HASH, &FOREIGN)?;
    put_all(alloc, volume, HASH, &[META_9, TS_4, DATA_4])?;
    let listing = volume.list(alloc, HASH)?;
    Ok(names_of_writes(alloc, listing.files.as_slice())?)
}

/// Whether these names are told of them.
fn are_told(alloc: Global, wanted: &[Named]) -> Result<bool, VolumeError> {
    let wanted = names_of(alloc, wanted)?;
    let found = listed(alloc, &mut SoundVolume::new(alloc))?;
    Ok(found.as_slice() == wanted.as_slice())
}

#[test]
fn names_of_writes_are_told_in_the_order_of_the_listing(rt: HostRuntime) {
    let wanted = [
        (400_000, Tag::Put),
        (400_000, Tag::Del),
        (900_000, Tag::Meta),
    ];
    assert!(rt; are_told(rt.alloc(), &wanted) == Ok(true));
}

/// Names in no order, and those of them that are obsolete.
const NAMES: [Named; 5] = [
    (5, Tag::Put),
    (9, Tag::Meta),
    (5, Tag::Del),
    (4, Tag::Meta),
    (4, Tag::Del),
];

const OBSOLETE: [Named; 3] = [(5, Tag::Put), (4, Tag::Meta), (4, Tag::Del)];

/// Whether these of the names are obsolete.
fn are_obsolete(alloc: Global, names: &[Named], wanted: &[Named]) -> Result<bool, NoMemory> {
    let names = names_of(alloc, names)?;
    let wanted = names_of(alloc, wanted)?;
    Ok(obsolete(alloc, &names)?.as_slice() == wanted.as_slice())
}

#[test]
fn obsolete_files_are_named_in_the_order_of_the_list(rt: HostRuntime) {
    assert!(rt; are_obsolete(rt.alloc(), &NAMES, &OBSOLETE) == Ok(true));
    laws::obsolete_is_not_picked();
    laws::pick_is_state();
    laws::obsolete_add_nothing();
    laws::stands_for_one();
    laws::listed_stands();
    laws::put_joins();
    laws::cleaning_keeps();
    laws::left_is_picked();
    laws::no_fault_none_left();
    laws::faults_are_failures();
}
