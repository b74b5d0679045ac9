ghost use Rattle.std.specs.Prelude.{◌≡◌, ℕ, List, Bool, true, false, None, IsSome, IfOk, OnOk, if◌then◌else◌};
ghost use Rattle.sw_outside.specs.Faults as outside;
ghost use Rattle.sw_disk.specs.Calls.{created, file_synced, folder_synced, moved, removed, made, MayBe, MayCreate};
ghost use Rattle.sw_disk.specs.Disk.{DiskState};
ghost use Rattle.sw_disk.specs.Moments.{Elapses};
ghost use Rattle.sw_disk.specs.Standings.{IsSubfolder, Stands, bytes_at};
ghost use Rattle.sw_volume.specs.Volume.{HasCause, ListsAll, OnNoMemory};

use std::alloc::Global;
use sw_outside::{Bytes, Failed};
use sw_volume::{Listing, VolumeError};

/// What is found of a folder.
#[derive(Clone, Copy, Debug, PartialEq, Eq)]
pub enum Standing {
    /// There is no such folder.
    Missing,
    /// It is there, and nothing stands in it.
    Empty,
    /// Something stands in it, a file or a folder.
    Filled,
}

/// What the volume of a node that serves asks of its host. A folder is known by its path below the disk's own folder, which has the empty path; a file by the
/// path of its folder and its name there, as those of a volume are.
///
/// A disk that tells what is there says so by `tells`; the clauses on its state hold of such a disk. One over a real folder tells nothing.
///
/// Any call may fail, and raises the count of faults by one then: it has done nothing, or all that it was to do.
pub trait Disk {
    /// Whether the disk tells its state.
    ghost tells: { Self → Bool };

    /// Its state now. It means something only where the disk tells it, as `past` does.
    ghost now: { Self → DiskState };

    /// Its states at the moments before, the last of them first: one before each call that changed anything.
    ghost past: { Self → List DiskState };

    /// Where it is, as the path of its own folder: no call changes it.
    ghost place: { Self → List ℕ };

    /// How many calls have failed. The count never falls, and stands still at 2^64 - 1.
    ghost faults: { Self → ℕ };

    /// Makes a file with these bytes, in place of one that stands there. Until it is synced a crash may leave any bytes of it, and until its folder is
    /// synced what stood there before. Where the call failed the file may be there, with any bytes.
    fn create(&mut self, dir: &[u8], file: &[u8], bytes: &[u8]) -> Result<(), Failed>
        ensures ok { OnOk result (tells self.old ≡ true → now self.new ≡ created (now self.old) dir.now file.now bytes.now) }
        ensures either { tells self.old ≡ true → MayCreate (now self.old) dir.now file.now (now self.new) }
        ensures time { tells self.old ≡ true → Elapses (now self.old) (past self.old) (now self.new) (past self.new) }
        ensures told { tells self.new ≡ tells self.old }
        ensures placed { place self.new ≡ place self.old }
        ensures cause { outside.HasCause (faults self.old) (faults self.new) result };

    /// Syncs the bytes of a file.
    fn sync_file(&mut self, dir: &[u8], file: &[u8]) -> Result<(), Failed>
        ensures ok { OnOk result (tells self.old ≡ true → now self.new ≡ file_synced (now self.old) dir.now file.now) }
        ensures either { tells self.old ≡ true → MayBe (now self.old) (file_synced (now self.old) dir.now file.now) (now self.new) }
        ensures time { tells self.old ≡ true → Elapses (now self.old) (past self.old) (now self.new) (past self.new) }
        ensures told { tells self.new ≡ tells self.old }
        ensures placed { place self.new ≡ place self.old }
        ensures cause { outside.HasCause (faults self.old) (faults self.new) result };

    /// Syncs a folder: the names of the files and folders that stand in it, and that others don't any more.
    fn sync_folder(&mut self, dir: &[u8]) -> Result<(), Failed>
        ensures ok { OnOk result (tells self.old ≡ true → now self.new ≡ folder_synced (now self.old) dir.now) }
        ensures either { tells self.old ≡ true → MayBe (now self.old) (folder_synced (now self.old) dir.now) (now self.new) }
        ensures time { tells self.old ≡ true → Elapses (now self.old) (past self.old) (now self.new) (past self.new) }
        ensures told { tells self.new ≡ tells self.old }
        ensures placed { place self.new ≡ place self.old }
        ensures cause { outside.HasCause (faults self.old) (faults self.new) result };

    /// Moves a file to another name, over what stands there, in one step.
    fn rename(
        &mut self,
        from_dir: &[u8],
        from_file: &[u8],
        dir: &[u8],
        file: &[u8],
    ) -> Result<(), Failed>
        ensures ok { OnOk result (tells self.old ≡ true → now self.new ≡ moved (now self.old) from_dir.now from_file.now dir.now file.now) }
        ensures either { tells self.old ≡ true → MayBe (now self.old) (moved (now self.old) from_dir.now from_file.now dir.now file.now) (now self.new) }
        ensures time { tells self.old ≡ true → Elapses (now self.old) (past self.old) (now self.new) (past self.new) }
        ensures told { tells self.new ≡ tells self.old }
        ensures placed { place self.new ≡ place self.old }
        ensures cause { outside.HasCause (faults self.old) (faults self.new) result };

    /// Makes a folder, where it isn't there yet. Until the one above it is synced a crash may leave nothing of it.
    fn make_folder(&mut self, dir: &[u8]) -> Result<(), Failed>
        ensures ok { OnOk result (tells self.old ≡ true → now self.new ≡ made (now self.old) dir.now) }
        ensures either { tells self.old ≡ true → MayBe (now self.old) (made (now self.old) dir.now) (now self.new) }
        ensures time { tells self.old ≡ true → Elapses (now self.old) (past self.old) (now self.new) (past self.new) }
        ensures told { tells self.new ≡ tells self.old }
        ensures placed { place self.new ≡ place self.old }
        ensures cause { outside.HasCause (faults self.old) (faults self.new) result };

    /// Looks whether a folder is there, and whether anything stands in it.
    fn look(&mut self, dir: &[u8]) -> Result<Standing, Failed>
        ensures found { IfOk result (λ standing. tells self.old ≡ true → Stands (now self.old) dir.now standing) }
        ensures same { tells self.old ≡ true → now self.new ≡ now self.old }
        ensures time { tells self.old ≡ true → Elapses (now self.old) (past self.old) (now self.new) (past self.new) }
        ensures told { tells self.new ≡ tells self.old }
        ensures placed { place self.new ≡ place self.old }
        ensures cause { outside.HasCause (faults self.old) (faults self.new) result };

    /// The files and the folders that stand in a folder: none of either where it isn't there.
    fn list(&mut self, alloc: Global, dir: &[u8]) -> Result<Listing, VolumeError>
        ensures files { IfOk result (λ l. tells self.old ≡ true → ListsAll l.files (λ name. IsSome (bytes_at (now self.old) dir.now name))) }
        ensures folders { IfOk result (λ l. tells self.old ≡ true → ListsAll l.folders (IsSubfolder (now self.old) dir.now)) }
        ensures same { tells self.old ≡ true → now self.new ≡ now self.old }
        ensures time { tells self.old ≡ true → Elapses (now self.old) (past self.old) (now self.new) (past self.new) }
        ensures told { tells self.new ≡ tells self.old }
        ensures placed { place self.new ≡ place self.old }
        ensures cause { HasCause (faults self.old) (faults self.new) result };

    /// The bytes of a file, or `None` where none stands there: that takes no memory.
    fn read(&mut self, alloc: Global, dir: &[u8], file: &[u8]) -> Result<Option<Bytes>, VolumeError>
        ensures value { IfOk result (λ found. tells self.old ≡ true → found ≡ bytes_at (now self.old) dir.now file.now) }
        ensures starved { OnNoMemory result (tells self.old ≡ true → IsSome (bytes_at (now self.old) dir.now file.now)) }
        ensures same { tells self.old ≡ true → now self.new ≡ now self.old }
        ensures time { tells self.old ≡ true → Elapses (now self.old) (past self.old) (now self.new) (past self.new) }
        ensures told { tells self.new ≡ tells self.old }
        ensures placed { place self.new ≡ place self.old }
        ensures cause { HasCause (faults self.old) (faults self.new) result };

    /// Takes a file away, and tells whether one stood there. Until its folder is synced a crash may bring it back.
    fn unlink(&mut self, dir: &[u8], file: &[u8]) -> Result<bool, Failed>
        ensures found { IfOk result (λ stood. tells self.old ≡ true → (stood ≡ true → IsSome (bytes_at (now self.old) dir.now file.now))
            × (stood ≡ false → bytes_at (now self.old) dir.now file.now ≡ None)) }
        ensures ok { IfOk result (λ stood. tells self.old ≡ true →
            now self.new ≡ (if stood then removed (now self.old) dir.now file.now else now self.old)) }
        ensures either { tells self.old ≡ true → MayBe (now self.old) (removed (now self.old) dir.now file.now) (now self.new) }
        ensures time { tells self.old ≡ true → Elapses (now self.old) (past self.old) (now self.new) (past self.new) }
        ensures told { tells self.new ≡ tells self.old }
        ensures placed { place self.new ≡ place self.old }
        ensures cause { outside.HasCause (faults self.old) (faults self.new) result };
}
