ghost use Rattle.std.specs.Prelude.{◌≡◌, ℕ, false, IfOk};
ghost use Rattle.sw_stores.specs.Shelf.{is_out};

use crate::case::{FilesOf, Lock, LockCall, Script};
use std::alloc::Global;
use sw_control::files_text;
use sw_hashdir::{Paths, add_paths_below};
use sw_keeper::MemKeeper;
use sw_outside::{Bytes, FailingCall, NoMemory};
use sw_stores::{PartShelf, Slot};
use sw_volume::{MemVolume, Volume, VolumeError};

/// What a lock of a run stands over.
pub type Part = (MemVolume, MemKeeper);

/// The volumes and keepers with which a run begins: those of the locks that the script names. All others begin empty when they are started.
pub fn parts(alloc: Global, script: &Script) -> Result<PartShelf<Part>, NoMemory>
    ensures { IfOk result (λ shelf. (d s : ℕ) → is_out shelf d s ≡ false) }
{
    let mut shelf = PartShelf::new(alloc);
    for lock in &script.locks {
        let part = (volume(alloc, script, *lock)?, keeper(alloc, script, *lock)?);
        shelf.place(lock.device, lock.stripe, part)?;
    }
    Ok(shelf)
}

/// The volume of a lock. Its files are put there first, and the calls that fail are counted from there on.
fn volume(alloc: Global, script: &Script, lock: Lock) -> Result<MemVolume, NoMemory> {
    let puts = script.standing.iter().filter(|file| file.lock == lock);
    let failing = failing_calls(alloc, &script.failing_calls, lock, puts.count() as u64)?;
    let mut volume = MemVolume::new(alloc, failing);
    for file in script.standing.iter().filter(|file| file.lock == lock) {
        let directory = file.directory.as_bytes();
        // None of these calls is one that fails.
        let put = volume.put(
            alloc,
            directory,
            file.name.as_bytes(),
            file.bytes.as_slice(),
        );
        put.map_err(|_| NoMemory)?;
    }
    Ok(volume)
}

/// The keeper of a lock, which holds nothing.
fn keeper(alloc: Global, script: &Script, lock: Lock) -> Result<MemKeeper, NoMemory> {
    let failing = failing_calls(alloc, &script.failing_keeper_calls, lock, 0)?;
    Ok(MemKeeper::new(alloc, failing))
}

/// The calls of a lock that fail, where so many were made before the first that is counted.
fn failing_calls(
    alloc: Global,
    planned: &[LockCall],
    lock: Lock,
    before: u64,
) -> Result<Vec<FailingCall>, NoMemory> {
    let mut calls = Vec::new(alloc);
    for call in planned.iter().filter(|call| call.lock == lock) {
        let FailingCall { call, made } = call.failing;
        calls.push(FailingCall {
            call: call.saturating_add(before),
            made,
        })?;
    }
    Ok(calls)
}

/// The texts of the files that are left of the devices whose files are wanted, in that order.
pub fn files_left(
    alloc: Global,
    wanted: &[FilesOf],
    slots: &mut Vec<Slot<Part>>,
) -> Result<Vec<Bytes>, NoMemory> {
    let mut left = Vec::new(alloc);
    for files in wanted {
        left.push(files_of(alloc, slots, files.device)?)?;
    }
    Ok(left)
}

/// The text of the files of a device. Their listing is a call of each volume, which is to be none that fails.
fn files_of(alloc: Global, slots: &mut Vec<Slot<Part>>, device: u8) -> Result<Bytes, NoMemory> {
    let mut paths = Paths::new(alloc);
    for slot in slots.iter_mut().filter(|slot| slot.device == device) {
        match add_files(alloc, slot, &mut paths) {
            Ok(()) => {}
            Err(VolumeError::Failed) => return Ok(Bytes::copy(alloc, b"a listing failed")?),
            Err(VolumeError::NoMemory) => return Err(NoMemory),
        }
    }
    files_text(alloc, &paths.into_list(alloc)?)
}

/// Adds the paths of the files of the volume that stands in a slot.
fn add_files(alloc: Global, slot: &mut Slot<Part>, paths: &mut Paths) -> Result<(), VolumeError> {
    match &mut slot.part {
        Some((volume, _)) => add_paths_below(alloc, volume, paths),
        None => Ok(()),
    }
}
