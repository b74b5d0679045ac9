ghost use Rattle.std.specs.Prelude.{◌≡◌, ◌≤◌, ◌⊎◌, ⊤, ℕ, List, [], true, false, Some, None, Err, IsSome, IsErr, IfOk, IfErr, OnOk, OnErr};
ghost use Rattle.sw_outside.specs.Faults as outside;
ghost use Rattle.sw_outside.specs.Counts.{raised};
ghost use Rattle.sw_disk.specs.Keeping.{kept, IsDurable, IsInOrder, IsOrdered, Rests, Turns, writing};
ghost use Rattle.sw_disk.specs.Moments.{Passes};
ghost use Rattle.sw_disk.specs.Places.{IsDirectory, IsPlace};
ghost use Rattle.sw_disk.specs.Standings.{IsSubfolder};
ghost use Rattle.sw_volume.specs.Tree.{contents};
ghost use Rattle.sw_volume.specs.Volume.{HasCause, IsFileIn, IsFolderIn, IsSame, ListsAll, MaySet, OnFailed, OnNoMemory, Sets};

use crate::disk::Disk;
use crate::names::written_name;
use crate::opening::prepare;
use crate::places::{is_directory, is_place};
use crate::writing::{WRITING, put_whole, take_away};
use std::alloc::Global;
use sw_outside::{Bytes, Failed};
use sw_volume::{Listing, Volume, VolumeError};

/// A volume over a disk. It tells nothing of what it holds, since it lists folders that stay when their last file is gone; its own clauses tell, where the disk
/// does.
///
/// A file that was put stands there whole after each crash from then on, and one that was being put is there whole or not at all; one that was taken away is
/// gone after each, and one that was being taken away is there whole or gone. That holds of a disk in order, as one is that was opened, and each call keeps it
/// so. A path is refused where it isn't one of a volume: the call fails, and nothing is asked of the disk.
#[derive(Drop)]
pub struct DiskVolume<D: Disk + Drop> {
    pub disk: D,
    pub owner: u32,
    pub calls: u64,
    pub faults: u64,
    pub lists: u64,
}

impl<D: Disk + Drop> DiskVolume<D> {
    /// The volume over a disk as an earlier one left it, maybe cut off by a crash, for the process of this number. What was being written then is taken away.
    /// With an error the disk is given back. It fails where a call on the disk did, and nowhere else.
    pub fn open(alloc: Global, disk: D, owner: u32) -> Result<DiskVolume<D>, (VolumeError, D)>
        requires { D.tells disk ≡ true → IsOrdered (D.now disk) }
        ensures untouched { IfOk result (λ v. (v.calls ≡ 0) × (v.faults ≡ 0) × (v.lists ≡ 0)) }
        ensures ready { IfOk result (λ v. D.tells disk ≡ true → IsInOrder (D.now v.disk)) }
        ensures empty { IfOk result (λ v. D.tells disk ≡ true → (file : List ℕ) → (D.now v.disk).files writing file ≡ None) }
        ensures placed { IfOk result (λ v. D.place v.disk ≡ D.place disk) }
        ensures time { IfOk result (λ v. D.tells disk ≡ true → Passes (Rests IsOrdered) (D.now disk) (D.past disk) (D.now v.disk) (D.past v.disk)) }
        ensures sound { IfOk result (λ v. D.faults v.disk ≡ D.faults disk) }
        ensures failed { IfErr result (λ e. HasCause {T = ⊤} (D.faults disk) (D.faults e.1) (Err e.0)) }
        ensures told { IfOk result (λ v. D.tells v.disk ≡ D.tells disk) }
        ensures time_err { IfErr result (λ e. D.tells disk ≡ true → Passes (Rests IsOrdered) (D.now disk) (D.past disk) (D.now e.1) (D.past e.1)) }
        ensures owner { IfOk result (λ v. v.owner ≡ owner) }
    {
        let mut disk = disk;
        match prepare(alloc, &mut disk) {
            Ok(()) => Ok(DiskVolume {
                disk,
                owner,
                calls: 0,
                faults: 0,
                lists: 0,
            }),
            Err(error) => Err((error, disk)),
        }
    }
}

impl<D: Disk + Drop> DiskVolume<D> {
    /// Counts a failure.
    fn fail(&mut self) -> Failed
        ensures disk { self.new.disk ≡ self.old.disk }
        ensures faults { self.new.faults ≡ raised self.old.faults }
        ensures calls { self.new.calls ≡ self.old.calls }
        ensures lists { self.new.lists ≡ self.old.lists }
        ensures later { self.old.faults ≤ self.new.faults }
        ensures risen { outside.HasRisen self.old.faults self.new.faults }
    {
        self.faults = self.faults.saturating_add(1);
        Failed
    }

    /// Counts a failure of the disk, where that is its answer.
    fn told<T>(&mut self, answer: Result<T, VolumeError>) -> Result<T, VolumeError>
        ensures answer { result ≡ answer }
        ensures disk { self.new.disk ≡ self.old.disk }
        ensures cause { HasCause self.old.faults self.new.faults result }
        ensures calls { self.new.calls ≡ self.old.calls }
        ensures lists { self.new.lists ≡ self.old.lists }
    {
        if let Err(VolumeError::Failed) = &answer {
            self.faults = self.faults.saturating_add(1);
        }
        answer
    }
}

impl<D: Disk + Drop> Volume for DiskVolume<D> {
    ghost tells = { λ _. false };

    ghost holds = { λ _. [] };

    ghost faults = { λ v. v.faults };

    ghost calls = { λ v. v.calls };

    ghost lists = { λ v. v.lists };

    fn list(&mut self, alloc: Global, dir: &[u8]) -> Result<Listing, VolumeError>
        ensures files { IfOk result (λ l. false ≡ true → ListsAll l.files (IsFileIn (contents []) dir.now)) }
        ensures folders { IfOk result (λ l. false ≡ true → ListsAll l.folders (IsFolderIn (contents []) dir.now)) }
        ensures same { false ≡ true → IsSame (contents []) (contents []) }
        ensures told { false ≡ false }
        ensures cause { HasCause self.old.faults self.new.faults result }
        ensures calls { self.new.calls ≡ raised self.old.calls }
        ensures lists { self.new.lists ≡ raised self.old.lists }
        ensures kept_files { IfOk result (λ l. D.tells self.old.disk ≡ true → ListsAll l.files (IsFileIn (kept (D.now self.old.disk)) dir.now)) }
        ensures kept_folders { IfOk result (λ l. D.tells self.old.disk ≡ true → ListsAll l.folders (IsSubfolder (D.now self.old.disk) dir.now)) }
        ensures time { D.tells self.old.disk ≡ true →
            Passes (Rests IsInOrder) (D.now self.old.disk) (D.past self.old.disk) (D.now self.new.disk) (D.past self.new.disk) }
        ensures disk_told { D.tells self.new.disk ≡ D.tells self.old.disk }
        ensures place { OnOk result (IsDirectory dir.now) }
        ensures refused { OnFailed result ((¬ (IsDirectory dir.now)) ⊎ outside.HasRisen (D.faults self.old.disk) (D.faults self.new.disk)) }
        ensures asked { IsDirectory dir.now → HasCause (D.faults self.old.disk) (D.faults self.new.disk) result }
        ensures unasked { (¬ (IsDirectory dir.now)) → (result ≡ Err VolumeError.Failed) × (self.new.disk ≡ self.old.disk) }
    {
        self.calls = self.calls.saturating_add(1);
        self.lists = self.lists.saturating_add(1);
        if !is_directory(dir) {
            return Err(self.fail().into());
        }
        let listing = self.disk.list(alloc, dir);
        self.told(listing)
    }

    fn read(&mut self, alloc: Global, dir: &[u8], file: &[u8]) -> Result<Option<Bytes>, VolumeError>
        ensures value { IfOk result (λ found. false ≡ true → found ≡ contents [] dir.now file.now) }
        ensures starved { OnNoMemory result (false ≡ true → IsSome (contents [] dir.now file.now)) }
        ensures same { false ≡ true → IsSame (contents []) (contents []) }
        ensures told { false ≡ false }
        ensures cause { HasCause self.old.faults self.new.faults result }
        ensures calls { self.new.calls ≡ raised self.old.calls }
        ensures lists { self.new.lists ≡ self.old.lists }
        ensures kept_value { IfOk result (λ found. D.tells self.old.disk ≡ true → found ≡ kept (D.now self.old.disk) dir.now file.now) }
        ensures kept_starved { OnNoMemory result (D.tells self.old.disk ≡ true → IsSome (kept (D.now self.old.disk) dir.now file.now)) }
        ensures time { D.tells self.old.disk ≡ true →
            Passes (Rests IsInOrder) (D.now self.old.disk) (D.past self.old.disk) (D.now self.new.disk) (D.past self.new.disk) }
        ensures disk_told { D.tells self.new.disk ≡ D.tells self.old.disk }
        ensures place { OnOk result (IsPlace dir.now file.now) }
        ensures refused { OnFailed result ((¬ (IsPlace dir.now file.now)) ⊎ outside.HasRisen (D.faults self.old.disk) (D.faults self.new.disk)) }
        ensures asked { IsPlace dir.now file.now → HasCause (D.faults self.old.disk) (D.faults self.new.disk) result }
        ensures unasked { (¬ (IsPlace dir.now file.now)) → (result ≡ Err VolumeError.Failed) × (self.new.disk ≡ self.old.disk) }
    {
        self.calls = self.calls.saturating_add(1);
        if !is_place(dir, file) {
            return Err(self.fail().into());
        }
        let found = self.disk.read(alloc, dir, file);
        self.told(found)
    }

    // It takes no memory of its own, so that it never answers want of it.
    fn put(
        &mut self,
        _alloc: Global,
        dir: &[u8],
        file: &[u8],
        bytes: &[u8],
    ) -> Result<(), VolumeError>
        ensures ok { OnOk result (false ≡ true → Sets (contents []) (contents []) dir.now file.now (Some bytes.now)) }
        ensures failed { OnFailed result (false ≡ true → MaySet (contents []) (contents []) dir.now file.now (Some bytes.now)) }
        ensures no_memory { OnNoMemory result (false ≡ true → IsSame (contents []) (contents [])) }
        ensures told { false ≡ false }
        ensures cause { HasCause self.old.faults self.new.faults result }
        ensures calls { self.new.calls ≡ raised self.old.calls }
        ensures lists { self.new.lists ≡ self.old.lists }
        ensures set { OnOk result (D.tells self.old.disk ≡ true → IsInOrder (D.now self.old.disk) →
            Sets (kept (D.now self.old.disk)) (kept (D.now self.new.disk)) dir.now file.now (Some bytes.now)) }
        ensures durable { OnOk result (D.tells self.old.disk ≡ true → IsInOrder (D.now self.old.disk) →
            IsDurable (D.now self.new.disk) dir.now file.now (Some bytes.now)) }
        ensures time { D.tells self.old.disk ≡ true → IsInOrder (D.now self.old.disk) →
            Passes (Turns dir.now file.now (Some bytes.now)) (D.now self.old.disk) (D.past self.old.disk) (D.now self.new.disk) (D.past self.new.disk) }
        ensures disk_told { D.tells self.new.disk ≡ D.tells self.old.disk }
        ensures place { OnOk result (IsPlace dir.now file.now) }
        ensures refused { OnFailed result ((¬ (IsPlace dir.now file.now)) ⊎ outside.HasRisen (D.faults self.old.disk) (D.faults self.new.disk)) }
        ensures never_starved { OnNoMemory result ⊥ }
        ensures asked { OnOk result (D.faults self.new.disk ≡ D.faults self.old.disk) }
        ensures unasked { (¬ (IsPlace dir.now file.now)) → (result ≡ Err VolumeError.Failed) × (self.new.disk ≡ self.old.disk) }
        ensures cleaned { OnFailed result (IsPlace dir.now file.now → (D.faults self.new.disk ≡ raised (D.faults self.old.disk))
            ⊎ (D.faults self.new.disk ≡ raised (raised (D.faults self.old.disk)))) }
    {
        let number = self.calls;
        self.calls = number.saturating_add(1);
        if !is_place(dir, file) {
            return Err(self.fail().into());
        }
        let name = written_name(self.owner, number);
        let name = name.as_str().as_bytes();
        match put_whole(&mut self.disk, name, dir, file, bytes) {
            Ok(()) => Ok(()),
            Err(_) => {
                let _ = self.disk.unlink(WRITING, name);
                Err(self.fail().into())
            }
        }
    }

    fn unlink(&mut self, dir: &[u8], file: &[u8]) -> Result<(), Failed>
        ensures ok { OnOk result (false ≡ true → Sets (contents []) (contents []) dir.now file.now None) }
        ensures failed { OnErr result (false ≡ true → MaySet (contents []) (contents []) dir.now file.now None) }
        ensures told { false ≡ false }
        ensures cause { outside.HasCause self.old.faults self.new.faults result }
        ensures calls { self.new.calls ≡ raised self.old.calls }
        ensures lists { self.new.lists ≡ self.old.lists }
        ensures set { OnOk result (D.tells self.old.disk ≡ true → Sets (kept (D.now self.old.disk)) (kept (D.now self.new.disk)) dir.now file.now None) }
        ensures durable { OnOk result (D.tells self.old.disk ≡ true → IsInOrder (D.now self.old.disk) →
            IsDurable (D.now self.new.disk) dir.now file.now None) }
        ensures durable_stood { OnOk result (D.tells self.old.disk ≡ true → IsSome (kept (D.now self.old.disk) dir.now file.now) →
            IsDurable (D.now self.new.disk) dir.now file.now None) }
        ensures time { D.tells self.old.disk ≡ true →
            Passes (Turns dir.now file.now None) (D.now self.old.disk) (D.past self.old.disk) (D.now self.new.disk) (D.past self.new.disk) }
        ensures disk_told { D.tells self.new.disk ≡ D.tells self.old.disk }
        ensures place { OnOk result (IsPlace dir.now file.now) }
        ensures refused { OnErr result ((¬ (IsPlace dir.now file.now)) ⊎ outside.HasRisen (D.faults self.old.disk) (D.faults self.new.disk)) }
        ensures asked { IsPlace dir.now file.now → outside.HasCause (D.faults self.old.disk) (D.faults self.new.disk) result }
        ensures unasked { (¬ (IsPlace dir.now file.now)) → IsErr result × (self.new.disk ≡ self.old.disk) }
    {
        self.calls = self.calls.saturating_add(1);
        if !is_place(dir, file) {
            return Err(self.fail());
        }
        match take_away(&mut self.disk, dir, file) {
            Ok(()) => Ok(()),
            Err(_) => Err(self.fail()),
        }
    }
}
