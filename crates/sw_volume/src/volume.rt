ghost use Rattle.std.specs.Prelude.{◌≡◌, ℕ, List, Bool, true, Some, None, IsSome, IfOk, OnOk, OnErr};
ghost use Rattle.sw_outside.specs.Faults as outside;
ghost use Rattle.sw_outside.specs.Counts.{raised};
ghost use Rattle.sw_volume.specs.Tree.{Folders, contents};
ghost use Rattle.sw_volume.specs.Volume.{IsSame, Sets, MaySet, ListsAll, IsFileIn, IsFolderIn, HasCause, OnFailed, OnNoMemory};

use crate::errors::VolumeError;
use std::alloc::Global;
use sw_outside::{Bytes, BytesList, Failed, NoMemory};

/// What stands in a directory: file names, and the names of the folders next below it. Both are in byte order, each
/// name once.
#[derive(Debug, Drop)]
pub struct Listing {
    pub files: BytesList,
    pub folders: BytesList,
}

impl Listing {
    /// An equal listing, or [`NoMemory`].
    pub fn copy(&self, alloc: Global) -> Result<Listing, NoMemory>
        ensures { IfOk result (λ copy. copy ≡ self.now) }
    {
        Ok(Listing {
            files: self.files.copy(alloc)?,
            folders: self.folders.copy(alloc)?,
        })
    }
}

/// Where a storage node keeps its files. A path is a directory, which is any byte string, and a file name in it. Slashes
/// cut a directory into folders: the folders of `dir` are the segments that follow `dir` and a slash. A directory is
/// there exactly while a file stands in it or below it.
///
/// A volume that tells its contents says so by `tells`; what the clauses say of contents holds of those. One over the
/// folders of a host tells nothing. There no folder has the name of a file beside it, and a folder may stay, and be listed,
/// when its last file is gone: callers put files only where no directory that they use is the path of a file, and look
/// into a folder that is listed.
///
/// Every call raises the count of calls by one. Every [`VolumeError::Failed`] and [`Failed`] raises the count of faults by
/// one, and nothing else does. After [`VolumeError::NoMemory`] nothing has changed but the count of calls, and after a
/// `list` that of listings.
pub trait Volume {
    /// Whether the volume tells what it holds.
    ghost tells: { Self → Bool };

    /// The files that it has, a finite map by directory and name: `contents` tells what stands at each path. It means something
    /// only where the volume tells it.
    ghost holds: { Self → Folders };

    /// How many calls have failed. The count never falls, and stands still at 2^64 - 1.
    ghost faults: { Self → ℕ };

    /// How many calls there were, failed ones too. The count stands still at 2^64 - 1.
    ghost calls: { Self → ℕ };

    /// How many of the calls were `list`. The count stands still at 2^64 - 1.
    ghost lists: { Self → ℕ };

    /// The files that stand in `dir` itself, and its folders in or below which a file stands: none of either where `dir`
    /// isn't there.
    fn list(&mut self, alloc: Global, dir: &[u8]) -> Result<Listing, VolumeError>
        ensures files { IfOk result (λ l. tells self.old ≡ true → ListsAll l.files (IsFileIn (contents (holds self.old)) dir.now)) }
        ensures folders { IfOk result (λ l. tells self.old ≡ true → ListsAll l.folders (IsFolderIn (contents (holds self.old)) dir.now)) }
        ensures same { tells self.old ≡ true → IsSame (contents (holds self.old)) (contents (holds self.new)) }
        ensures told { tells self.new ≡ tells self.old }
        ensures cause { HasCause (faults self.old) (faults self.new) result }
        ensures calls { calls self.new ≡ raised (calls self.old) }
        ensures lists { lists self.new ≡ raised (lists self.old) };

    /// What stands at the path, or `None` where no file does: that takes no memory.
    fn read(&mut self, alloc: Global, dir: &[u8], file: &[u8]) -> Result<Option<Bytes>, VolumeError>
        ensures value { IfOk result (λ found. tells self.old ≡ true → found ≡ contents (holds self.old) dir.now file.now) }
        ensures starved { OnNoMemory result (tells self.old ≡ true → IsSome (contents (holds self.old) dir.now file.now)) }
        ensures same { tells self.old ≡ true → IsSame (contents (holds self.old)) (contents (holds self.new)) }
        ensures told { tells self.new ≡ tells self.old }
        ensures cause { HasCause (faults self.old) (faults self.new) result }
        ensures calls { calls self.new ≡ raised (calls self.old) }
        ensures lists { lists self.new ≡ lists self.old };

    /// Makes these bytes what stands at the path, in place of what stood there. After [`VolumeError::Failed`] either
    /// that was done, whole, or nothing was.
    fn put(
        &mut self,
        alloc: Global,
        dir: &[u8],
        file: &[u8],
        bytes: &[u8],
    ) -> Result<(), VolumeError>
        ensures ok { OnOk result (tells self.old ≡ true → Sets (contents (holds self.old)) (contents (holds self.new)) dir.now file.now (Some bytes.now)) }
        ensures failed { OnFailed result (tells self.old ≡ true → MaySet (contents (holds self.old)) (contents (holds self.new)) dir.now file.now
            (Some bytes.now)) }
        ensures no_memory { OnNoMemory result (tells self.old ≡ true → IsSame (contents (holds self.old)) (contents (holds self.new))) }
        ensures told { tells self.new ≡ tells self.old }
        ensures cause { HasCause (faults self.old) (faults self.new) result }
        ensures calls { calls self.new ≡ raised (calls self.old) }
        ensures lists { lists self.new ≡ lists self.old };

    /// Takes the file away, where one stands at the path; else there is nothing to do, and that is no failure. After
    /// [`Failed`] the file was taken away, or nothing was done. It takes no memory.
    fn unlink(&mut self, dir: &[u8], file: &[u8]) -> Result<(), Failed>
        ensures ok { OnOk result (tells self.old ≡ true → Sets (contents (holds self.old)) (contents (holds self.new)) dir.now file.now None) }
        ensures failed { OnErr result (tells self.old ≡ true → MaySet (contents (holds self.old)) (contents (holds self.new)) dir.now file.now None) }
        ensures told { tells self.new ≡ tells self.old }
        ensures cause { outside.HasCause (faults self.old) (faults self.new) result }
        ensures calls { calls self.new ≡ raised (calls self.old) }
        ensures lists { lists self.new ≡ lists self.old };
}
