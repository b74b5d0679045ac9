use crate::folders::is_empty;
use crate::stage::Stage;
use crate::volume::{Call, DATA, HASH, OWNER, first_other, is_as_told, is_some_of};
use crate::watched::Failing;
use Call::{List, Put, Read, Unlink};
use std::fs;
use std::io::ErrorKind;
use std::test::Fail;
use sw_outside::{NoMemory, StoreError};
use sw_store::{HostVolume, NoNotes};
use sw_volume::{Volume, VolumeError};

/// Other objects: in the same suffix, in the same partition, in another partition.
const BESIDE: &[u8] = b"objects/0/a83/16fbf0b514e5199dfc4e00f42eb5ea83";

const IN_PARTITION: &[u8] = b"objects/0/59e/06fbf0b514e5199dfc4e00f42eb5e59e";

const ELSEWHERE: &[u8] = b"objects/3/59e/f6fbf0b514e5199dfc4e00f42eb5e59e";

const TIME: &[u8] = b"0000000006.00000.data";

/// Calls, and the steps of the host that they take: a file is synced before it is moved to its place, and its folder after that; each folder is synced
/// into the one above it before anything is made in it. The first object of a lock takes six syncs, one in a new partition five, in a new suffix four,
/// beside others of its suffix three, and one over another two. An unlink syncs its folder, also where nothing stands, as long as the folder is there.
///
/// Behind them stands how many steps are asked for, those that only look too: a sync opens what it syncs; on the way to a file each folder is looked at, from
/// the last one up to one in which something stands; and an unlink that finds no file looks for the volume's own folder, and then at the file's.
const STEPS: [(Call, &[u8], u64); 12] = [
    (Put(HASH, DATA, b"old"), b"cwsmsmsmsmsrs", 23),
    (Put(ELSEWHERE, DATA, b"new partition"), b"cwsmsmsmsrs", 20),
    (Put(IN_PARTITION, DATA, b"new suffix"), b"cwsmsmsrs", 16),
    (Put(BESIDE, DATA, b""), b"csmsrs", 11),
    (Put(HASH, TIME, b"new"), b"cwsrs", 8),
    (Put(HASH, TIME, b"newer"), b"cwsrs", 8),
    (Read(HASH, TIME, Some(b"newer")), b"", 1),
    (Read(BESIDE, TIME, None), b"", 2),
    (List(HASH, &[DATA, TIME], &[]), b"", 1),
    (Unlink(HASH, DATA), b"us", 3),
    (Unlink(HASH, DATA), b"s", 5),
    (Unlink(b"objects/5/59e", DATA), b"", 3),
];

#[test]
fn each_call_takes_so_many_syncs(rt: HostRuntime) -> Result<(), Fail> {
    let stage = Stage::new(rt, "steps")?;
    let steps = stage.steps();
    let mut volume = stage.volume()?;
    for (call, wanted, asked) in STEPS {
        steps.begin(Failing::None);
        assert!(rt; is_as_told(rt.alloc(), &mut volume, call) == Ok(true));
        assert!(rt; steps.are(wanted));
        assert!(rt; steps.asked() == asked);
    }
    stage.end()
}

/// Calls each of which needs the host, over a volume that has some files, and how each answers where the host has no memory.
const NEEDING: [(Call, VolumeError); 6] = [
    (Put(HASH, DATA, b"data"), VolumeError::Failed),
    (Put(HASH, TIME, b"later"), VolumeError::Failed),
    (Put(ELSEWHERE, DATA, b"data"), VolumeError::Failed),
    (Unlink(HASH, TIME), VolumeError::Failed),
    (Read(HASH, DATA, Some(b"data")), VolumeError::NoMemory),
    (List(HASH, &[DATA], &[]), VolumeError::NoMemory),
];

/// Whether each call fails exactly where a step of it does, with this error of the host: with that of its own, or as any other.
fn each_fails_with_its_steps(stage: &Stage, kind: ErrorKind) -> Result<bool, StoreError> {
    let alloc = stage.host.1;
    let steps = stage.steps();
    let mut volume = stage.volume()?;
    let mut same = true;
    for (call, without_memory) in NEEDING {
        let error = if kind == ErrorKind::OutOfMemory {
            without_memory
        } else {
            VolumeError::Failed
        };
        for number in 0..24 {
            steps.begin(Failing::One(number, kind));
            let told = is_as_told(alloc, &mut volume, call);
            same = same
                && told
                    == if steps.has_failed() {
                        Err(error)
                    } else {
                        Ok(true)
                    };
        }
        steps.begin(Failing::None);
    }
    Ok(same)
}

#[test]
fn no_error_of_the_host_is_passed_over(rt: HostRuntime) -> Result<(), Fail> {
    let stage = Stage::new(rt, "errors")?;
    for kind in [ErrorKind::StorageFull, ErrorKind::OutOfMemory] {
        assert!(rt; each_fails_with_its_steps(&stage, kind) == Ok(true));
    }
    stage.end()
}

/// How an open answers whose step of this number finds no memory: it looks for the folder and syncs it into the one above it; makes the folder for writing and
/// syncs it; lists that one, and takes the one file away that is left in it. Where a disk changes or syncs something, want of memory of the host is a failure.
const OPENING: [StoreError; 8] = [
    StoreError::NoMemory,
    StoreError::NoMemory,
    StoreError::NoMemory,
    StoreError::Failed,
    StoreError::Failed,
    StoreError::Failed,
    StoreError::NoMemory,
    StoreError::Failed,
];

/// Why the volume isn't opened where this step fails, if it isn't.
fn opening(stage: &Stage, failing: Failing) -> Result<Option<StoreError>, NoMemory> {
    let root = String::from_str(stage.host.1, stage.root())?;
    stage.steps().begin(failing);
    Ok(HostVolume::open(&stage.host, &NoNotes, root, OWNER).err())
}

#[test]
fn a_volume_is_opened_only_where_no_step_of_that_fails(rt: HostRuntime) -> Result<(), Fail> {
    let stage = Stage::new(rt, "opening")?;
    let left = stage.path("tmp")?;
    let file = stage.path("tmp/put-7")?;
    assert!(rt; fs::create_dir(&rt, left.as_str()).is_ok());
    assert!(rt; stage.writes(&file, "half a fi"));
    for (number, without_memory) in OPENING.iter().enumerate() {
        let other = Failing::One(number as u64, ErrorKind::PermissionDenied);
        assert!(rt; opening(&stage, other) == Ok(Some(StoreError::Failed)));
        let memory = Failing::One(number as u64, ErrorKind::OutOfMemory);
        assert!(rt; opening(&stage, memory) == Ok(Some(*without_memory)));
    }
    assert!(rt; opening(&stage, Failing::None) == Ok(None));
    assert!(rt; stage.steps().asked() == 8);
    assert!(rt; is_empty(&rt, &left));
    stage.end()
}

/// What stands at a path of a volume that is opened for it, if these bytes or those do.
fn stands(
    rt: &HostRuntime,
    root: &str,
    was: Option<&[u8]>,
    put: Option<&[u8]>,
) -> Result<bool, StoreError> {
    let alloc = rt.alloc();
    let root = String::from_str(alloc, root).map_err(NoMemory::from)?;
    let mut volume = HostVolume::open(rt, &NoNotes, root, OWNER)?;
    match volume.read(alloc, HASH, DATA) {
        Ok(found) => Ok(is_some_of(&found, was) || is_some_of(&found, put)),
        Err(_) => Ok(false),
    }
}

#[test]
fn a_put_that_fails_or_is_cut_leaves_the_old_file_or_the_new_one(
    rt: HostRuntime,
) -> Result<(), Fail> {
    let alloc = rt.alloc();
    let stage = Stage::new(rt, "failing")?;
    let left = stage.path("tmp")?;
    let (steps, root) = (stage.steps(), stage.root());
    let mut volume = stage.volume()?;
    let puts: [(Option<&[u8]>, &[u8]); 2] = [(None, b"old"), (Some(b"old"), b"new")];
    for (was, bytes) in puts {
        let put = Put(HASH, DATA, bytes);
        for number in 0..24 {
            steps.begin(Failing::From(number));
            let _ = is_as_told(alloc, &mut volume, put);
            assert!(rt; stands(&rt, root, was, Some(bytes)) == Ok(true));
            steps.begin(Failing::One(number, ErrorKind::StorageFull));
            let _ = is_as_told(alloc, &mut volume, put);
            assert!(rt; is_empty(&rt, &left));
            assert!(rt; stands(&rt, root, was, Some(bytes)) == Ok(true));
        }
        steps.begin(Failing::None);
        assert!(rt; is_as_told(alloc, &mut volume, put) == Ok(true));
    }
    stage.end()
}

/// What a later volume puts after a kill, and what stands of it after a loss of power.
const PUT_LATER: [Call; 2] = [Put(HASH, TIME, b"later"), Put(BESIDE, TIME, b"later")];

const STAND_LATER: [Call; 2] = [
    Read(HASH, TIME, Some(b"later")),
    Read(BESIDE, TIME, Some(b"later")),
];

/// Puts a file, with a kill before the step of this number.
fn put_with_a_kill(stage: &Stage, number: u64) -> Result<(), StoreError> {
    let mut killed = stage.volume()?;
    stage.steps().begin(Failing::From(number));
    let _ = killed.put(stage.host.1, HASH, DATA, b"killed");
    stage.steps().begin(Failing::None);
    Ok(())
}

/// After such a put a later volume puts two files, and the power is lost once these puts are answered: whether they stand.
fn stand_after_a_kill(rt: &HostRuntime, stage: &Stage, number: u64) -> Result<bool, StoreError> {
    let alloc = rt.alloc();
    put_with_a_kill(stage, number)?;
    let mut later = stage.volume()?;
    let put = first_other(alloc, &mut later, &PUT_LATER, Ok(true));
    stage.steps().lose_power(rt);
    let stands = first_other(alloc, &mut later, &STAND_LATER, Ok(true));
    Ok(put.is_none() && stands.is_none())
}

#[test]
fn what_is_put_over_what_a_kill_left_outlives_a_loss_of_power(rt: HostRuntime) -> Result<(), Fail> {
    let stage = Stage::new(rt, "power")?;
    for number in 0..32 {
        assert!(rt; stand_after_a_kill(&rt, &stage, number) == Ok(true));
        assert!(rt; stage.begin_anew().is_ok());
    }
    stage.end()
}
