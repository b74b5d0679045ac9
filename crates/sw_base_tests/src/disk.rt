ghost use Rattle.std.specs.Prelude.{IfOk, IfErr};
ghost use Rattle.sw_disk.specs.Keeping.{IsInOrder, IsOrdered};

use crate::crashes::{Left, LeftFile, crashed};
use crate::fixtures::{are_these, is_some_of};
use std::alloc::{AllocError, Global};
use sw_disk::laws::a_start_may_follow;
use sw_disk::{Change, Disk, DiskVolume, MemDisk};
use sw_outside::{Bytes, FailingCall};
use sw_volume::{Volume, VolumeError};

/// A put or an unlink.
enum Set<'a> {
    Put(&'a [u8], &'a [u8], &'a [u8]),
    Unlink(&'a [u8], &'a [u8]),
}

use Set::{Put, Unlink};

const HASH: &[u8] = b"objects/0/a83/06fbf0b514e5199dfc4e00f42eb5ea83";

const OTHER: &[u8] = b"objects/0/a83/16fbf0b514e5199dfc4e00f42eb5ea83";

const DATA: &[u8] = b"0000000005.00000.data";

/// A file in folders that are all new, another over it, and one in a folder that alone is new; the first is taken away, and once more.
static SETS: [Set; 5] = [
    Put(HASH, DATA, b"one"),
    Put(HASH, DATA, b"two"),
    Put(OTHER, DATA, b"other"),
    Unlink(HASH, DATA),
    Unlink(HASH, DATA),
];

/// More calls than a disk is asked for in all of them.
const CALLS: u64 = 60;

/// The calls of a disk that fail: this one, with its change made or not, and where the disk is gone from then on each later one.
#[derive(Clone, Copy)]
struct Plan {
    call: u64,
    made: bool,
    gone: bool,
}

/// The ways of each failure: with the change made or not, with the disk gone from then on or not, and what the crash leaves.
const WAYS: [(bool, bool, Left); 8] = [
    (false, false, Left::Synced),
    (false, false, Left::Made),
    (false, true, Left::Synced),
    (false, true, Left::Made),
    (true, false, Left::Synced),
    (true, false, Left::Made),
    (true, true, Left::Synced),
    (true, true, Left::Made),
];

fn failing(alloc: Global, plan: Plan) -> Result<Vec<FailingCall>, AllocError> {
    let mut failing = Vec::new(alloc);
    for call in plan.call..CALLS {
        if call == plan.call || plan.gone {
            let made = plan.made && call == plan.call;
            failing.push(FailingCall { call, made })?;
        }
    }
    Ok(failing)
}

/// Whether it was answered.
fn is_answered(alloc: Global, volume: &mut DiskVolume<MemDisk>, set: &Set) -> bool
    ensures { IsInOrder (⟦<MemDisk as Disk>⟧.now volume.old.disk) → IsInOrder (⟦<MemDisk as Disk>⟧.now volume.new.disk) }
{
    match set {
        Put(dir, file, bytes) => volume.put(alloc, dir, file, bytes).is_ok(),
        Unlink(dir, file) => volume.unlink(dir, file).is_ok(),
    }
}

/// Whether each of them was answered.
fn answers(alloc: Global, volume: &mut DiskVolume<MemDisk>) -> Result<Vec<bool>, AllocError>
    ensures { IsInOrder (⟦<MemDisk as Disk>⟧.now volume.old.disk) → IsInOrder (⟦<MemDisk as Disk>⟧.now volume.new.disk) }
{
    let mut answers = Vec::new(alloc);
    for set in &SETS {
        answers.push(is_answered(alloc, volume, set))?;
    }
    Ok(answers)
}

/// Whether this is what it sets at a path: none where it sets another.
fn sets(set: &Set, at: &[u8], found: &Option<Bytes>) -> Option<bool> {
    match set {
        Put(dir, _, bytes) if *dir == at => Some(is_some_of(found, Some(bytes))),
        Unlink(dir, _) if *dir == at => Some(found.is_none()),
        _ => None,
    }
}

/// Whether this may be found at a path: the last that was answered there, or one that was tried since.
fn may_be(found: &Option<Bytes>, answers: &[bool], dir: &[u8]) -> bool {
    let mut may = found.is_none();
    for (set, answered) in SETS.iter().zip(answers) {
        if let Some(is) = sets(set, dir, found) {
            may = is || may && !*answered;
        }
    }
    may
}

/// Whether at each path stands what may stand there.
fn is_kept(
    alloc: Global,
    volume: &mut DiskVolume<MemDisk>,
    answers: &[bool],
) -> Result<bool, VolumeError> {
    for dir in [HASH, OTHER] {
        let found = volume.read(alloc, dir, DATA)?;
        if !may_be(&found, answers, dir) {
            return Ok(false);
        }
    }
    Ok(true)
}

/// A disk with these files on it.
fn with_files(alloc: Global, files: &[LeftFile]) -> Result<MemDisk, VolumeError>
    ensures { IfOk result (λ d. IsOrdered (⟦<MemDisk as Disk>⟧.now d)) }
{
    a_start_may_follow();
    match DiskVolume::open(alloc, MemDisk::new(alloc, Vec::new(alloc)), 1) {
        Ok(mut volume) => {
            for file in files {
                volume.put(alloc, file.dir, file.file, file.bytes)?;
            }
            Ok(volume.disk)
        }
        Err((error, _)) => Err(error),
    }
}

/// Whether after a start over this disk at each path stands what may stand there.
fn is_kept_after(alloc: Global, disk: MemDisk, answers: &[bool]) -> Result<bool, VolumeError>
    requires { IsOrdered (⟦<MemDisk as Disk>⟧.now disk) }
{
    match DiskVolume::open(alloc, disk, 2) {
        Ok(mut volume) => is_kept(alloc, &mut volume, answers),
        Err((error, _)) => Err(error),
    }
}

/// Whether the data alone is listed at the other path.
fn lists_other(alloc: Global, volume: &mut DiskVolume<MemDisk>) -> Result<bool, VolumeError> {
    let listing = volume.list(alloc, OTHER)?;
    Ok(are_these(listing.files.as_slice(), &[DATA]))
}

/// Whether after a start over this disk that stands at each path, and is listed, which may stand there.
fn is_listed_after(alloc: Global, disk: MemDisk, answers: &[bool]) -> Result<bool, VolumeError>
    requires { IsOrdered (⟦<MemDisk as Disk>⟧.now disk) }
{
    match DiskVolume::open(alloc, disk, 2) {
        Ok(mut volume) => {
            Ok(lists_other(alloc, &mut volume)? && is_kept(alloc, &mut volume, answers)?)
        }
        Err((error, _)) => Err(error),
    }
}

/// What was done of the sets on a disk that fails as planned, and the disk after it.
fn tried(alloc: Global, failing: Vec<FailingCall>) -> Result<(Vec<bool>, MemDisk), VolumeError>
    ensures { IfOk result (λ r. IsOrdered (⟦<MemDisk as Disk>⟧.now r.1)) }
{
    a_start_may_follow();
    match DiskVolume::open(alloc, MemDisk::new(alloc, failing), 1) {
        Ok(mut volume) => {
            let answers = answers(alloc, &mut volume)?;
            Ok((answers, volume.disk))
        }
        Err((_, disk)) => Ok((Vec::new(alloc), disk)),
    }
}

/// Whether what was acknowledged is there after a crash, as the plan has it, and a start.
fn outlives(alloc: Global, plan: Plan, left: Left) -> Result<bool, VolumeError> {
    let (answers, disk) = tried(alloc, failing(alloc, plan)?)?;
    let files = crashed(alloc, disk.changes(), left)?;
    let disk = with_files(alloc, &files)?;
    is_kept_after(alloc, disk, &answers)
}

/// The first call whose failure loses what was acknowledged, and the number of its way.
fn first_lost(alloc: Global) -> Result<Option<(u64, usize)>, VolumeError> {
    for call in 0..CALLS {
        for (way, (made, gone, left)) in WAYS.iter().enumerate() {
            let plan = Plan {
                call,
                made: *made,
                gone: *gone,
            };
            if !outlives(alloc, plan, *left)? {
                return Ok(Some((call, way)));
            }
        }
    }
    Ok(None)
}

#[test]
fn what_was_acknowledged_is_there_after_a_crash_and_a_start(rt: HostRuntime) {
    assert_eq!(rt; first_lost(rt.alloc()), Ok(None));
}

/// Whether these are the names under which files were written before they were moved to their places.
fn are_written_as(changes: &[Change], names: &[&[u8]]) -> bool {
    let mut left = names;
    let mut same = true;
    for change in changes {
        if let Change::Created { dir, file, .. } = change {
            match left {
                [name, rest @ ..] => {
                    same = same && dir.as_slice() == b"tmp".as_slice() && file.as_slice() == *name;
                    left = rest;
                }
                _ => return false,
            }
        }
    }
    same && left.is_empty()
}

/// Whether each was answered, and written as it is to be, and stands after a start.
fn all_are_answered(alloc: Global) -> Result<bool, VolumeError> {
    let (answers, disk) = tried(alloc, Vec::new(alloc))?;
    let written = are_written_as(disk.changes(), &[b"put-1-0", b"put-1-1", b"put-1-2"]);
    let listed = is_listed_after(alloc, disk, &answers)?;
    Ok(written && listed && answers.as_slice() == [true; 5].as_slice())
}

#[test]
fn each_put_and_unlink_is_answered_where_no_call_fails(rt: HostRuntime) {
    assert!(rt; all_are_answered(rt.alloc()) == Ok(true));
}
