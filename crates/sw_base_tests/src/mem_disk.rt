use std::alloc::{AllocError, Global};
use sw_disk::{Disk, MemDisk};
use sw_outside::FailingCall;

/// A call of a disk.
enum Call {
    MakeFolder,
    Create,
    SyncFile,
    SyncFolder,
    Rename,
    Look,
    List,
    Read,
    Unlink,
}

/// Calls in their order, none of which fails on a disk with nothing on it, and whether each makes a change.
static CALLS: [(Call, bool); 9] = [
    (Call::MakeFolder, true),
    (Call::Create, true),
    (Call::SyncFile, true),
    (Call::SyncFolder, true),
    (Call::Rename, true),
    (Call::Look, false),
    (Call::List, false),
    (Call::Read, false),
    (Call::Unlink, true),
];

/// Whether the call is answered.
fn is_answered(alloc: Global, disk: &mut MemDisk, call: &Call) -> bool {
    match call {
        Call::MakeFolder => disk.make_folder(b"d").is_ok(),
        Call::Create => disk.create(b"d", b"f", b"bytes").is_ok(),
        Call::SyncFile => disk.sync_file(b"d", b"f").is_ok(),
        Call::SyncFolder => disk.sync_folder(b"d").is_ok(),
        Call::Rename => disk.rename(b"d", b"f", b"d", b"g").is_ok(),
        Call::Look => disk.look(b"d").is_ok(),
        Call::List => disk.list(alloc, b"d").is_ok(),
        Call::Read => disk.read(alloc, b"d", b"g").is_ok(),
        Call::Unlink => disk.unlink(b"d", b"g").is_ok(),
    }
}

/// How many changes were wanted of the calls up to this one, which alone fails, with its change made or not. None where one is answered otherwise.
fn changes_up_to(alloc: Global, disk: &mut MemDisk, at: usize, made: bool) -> Option<usize> {
    let mut wanted = 0usize;
    for (number, (call, changes)) in CALLS.iter().enumerate() {
        if number > at {
            break;
        }
        if is_answered(alloc, disk, call) != (number < at) {
            return None;
        }
        if *changes && (number < at || made) {
            wanted = wanted.saturating_add(1);
        }
    }
    Some(wanted)
}

/// Whether the calls before this one are answered, it fails, and a further one is answered; and whether what was changed is what these made.
fn goes_as_planned(alloc: Global, at: usize, made: bool) -> Result<bool, AllocError> {
    let call = at as u64;
    let mut disk = MemDisk::new(
        alloc,
        Vec::from_slice(alloc, &[FailingCall { call, made }])?,
    );
    let wanted = changes_up_to(alloc, &mut disk, at, made);
    let is_planned = wanted == Some(disk.changes().len());
    Ok(is_planned && is_answered(alloc, &mut disk, &Call::MakeFolder))
}

#[test]
fn a_disk_in_memory_fails_where_it_is_planned_to(rt: HostRuntime) {
    for at in 0..CALLS.len() {
        for made in [false, true] {
            assert!(rt;
                goes_as_planned(rt.alloc(), at, made) == Ok(true),
                "{at} {made}"
            );
        }
    }
}
