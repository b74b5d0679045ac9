ghost use Rattle.std.specs.Prelude.{◌≡◌, ◌↔◌, ◌⊎◌, ℕ, List, [], ◌∷◌, ◌++◌, true, false, None, IsTrue, IsSome, IfOk, OnOk, OnErr};
ghost use Rattle.sw_disk.specs.Changes.{run};
ghost use Rattle.sw_disk.specs.Disk.{HasFile, HasFolder};
ghost use Rattle.sw_disk.specs.Folders.{names_in};
ghost use Rattle.sw_disk.specs.Standings.{IsSubfolder, bytes_at};
ghost use Rattle.sw_disk.specs.declared.change.Change.TheVariants.{Created, FileSynced, FolderSynced, Made, Moved, Removed};
ghost use Rattle.sw_volume.specs.Tree.{contents};
ghost use Rattle.sw_volume.specs.Volume.{ListsAll};

use crate::change::Change;
use std::alloc::Global;
use sw_outside::{Bytes, BytesList, NoMemory};
use sw_volume::{SoundVolume, Volume};

/// The changes of a disk in memory that began with nothing, and the files that stand after them.
#[derive(Debug, Drop)]
pub(crate) struct DiskLog {
    pub alloc: Global,
    pub changes: Vec<Change>,
    pub files: SoundVolume,
    ghost told: { (dir file : List ℕ) → contents files.folders dir file ≡ bytes_at (run changes.items).now dir file },
}

impl DiskLog {
    /// No changes.
    pub fn new(alloc: Global) -> DiskLog
        ensures { result.changes.items ≡ [] }
    {
        DiskLog {
            alloc,
            changes: Vec::new(alloc),
            files: SoundVolume::new(alloc),
        }
    }

    /// A file is made with these bytes.
    pub fn create(&mut self, dir: &[u8], file: &[u8], bytes: &[u8]) -> Result<(), NoMemory>
        ensures ok { OnOk result (self.new.changes.items ≡ self.old.changes.items ++ Created dir.now file.now bytes.now ∷ []) }
        ensures err { OnErr result (self.new.changes.items ≡ self.old.changes.items) }
    {
        let change = Change::Created {
            dir: Bytes::copy(self.alloc, dir)?,
            file: Bytes::copy(self.alloc, file)?,
            bytes: Bytes::copy(self.alloc, bytes)?,
        };
        self.changes.push(change)?;
        match self.files.put(self.alloc, dir, file, bytes) {
            Ok(()) => Ok(()),
            Err(_) => {
                let _ = self.changes.pop();
                Err(NoMemory)
            }
        }
    }

    /// The bytes of a file are synced.
    pub fn sync_file(&mut self, dir: &[u8], file: &[u8]) -> Result<(), NoMemory>
        ensures ok { OnOk result (self.new.changes.items ≡ self.old.changes.items ++ FileSynced dir.now file.now ∷ []) }
        ensures err { OnErr result (self.new.changes.items ≡ self.old.changes.items) }
    {
        let change = Change::FileSynced {
            dir: Bytes::copy(self.alloc, dir)?,
            file: Bytes::copy(self.alloc, file)?,
        };
        self.changes.push(change)?;
        Ok(())
    }

    /// The names of a folder are synced.
    pub fn sync_folder(&mut self, dir: &[u8]) -> Result<(), NoMemory>
        ensures ok { OnOk result (self.new.changes.items ≡ self.old.changes.items ++ FolderSynced dir.now ∷ []) }
        ensures err { OnErr result (self.new.changes.items ≡ self.old.changes.items) }
    {
        let change = Change::FolderSynced {
            dir: Bytes::copy(self.alloc, dir)?,
        };
        self.changes.push(change)?;
        Ok(())
    }

    /// A folder is made.
    pub fn make_folder(&mut self, dir: &[u8]) -> Result<(), NoMemory>
        ensures ok { OnOk result (self.new.changes.items ≡ self.old.changes.items ++ Made dir.now ∷ []) }
        ensures err { OnErr result (self.new.changes.items ≡ self.old.changes.items) }
    {
        let change = Change::Made {
            dir: Bytes::copy(self.alloc, dir)?,
        };
        self.changes.push(change)?;
        Ok(())
    }

    /// A file is taken away, where one stands there: it takes no memory but for a change.
    pub fn remove(&mut self, dir: &[u8], file: &[u8]) -> Result<bool, NoMemory>
        ensures stood { IfOk result (λ stood. stood ≡ true → IsSome (bytes_at (run self.old.changes.items).now dir.now file.now)) }
        ensures removed { IfOk result (λ stood. stood ≡ true → self.new.changes.items ≡ self.old.changes.items ++ Removed dir.now file.now ∷ []) }
        ensures none { IfOk result (λ stood. stood ≡ false → bytes_at (run self.old.changes.items).now dir.now file.now ≡ None) }
        ensures same { IfOk result (λ stood. stood ≡ false → self.new.changes.items ≡ self.old.changes.items) }
        ensures err { OnErr result (self.new.changes.items ≡ self.old.changes.items) }
    {
        match self.read(dir, file)? {
            None => Ok(false),
            Some(_) => {
                self.take_away(dir, file)?;
                Ok(true)
            }
        }
    }

    fn take_away(&mut self, dir: &[u8], file: &[u8]) -> Result<(), NoMemory>
        ensures ok { OnOk result (self.new.changes.items ≡ self.old.changes.items ++ Removed dir.now file.now ∷ []) }
        ensures err { OnErr result (self.new.changes.items ≡ self.old.changes.items) }
    {
        let change = Change::Removed {
            dir: Bytes::copy(self.alloc, dir)?,
            file: Bytes::copy(self.alloc, file)?,
        };
        self.changes.push(change)?;
        let _ = self.files.unlink(dir, file);
        Ok(())
    }

    /// A file is moved to another name. Where none stands there, or that is its own name, it fails.
    pub fn rename(
        &mut self,
        from_dir: &[u8],
        from_file: &[u8],
        dir: &[u8],
        file: &[u8],
    ) -> Result<(), NoMemory>
        ensures ok { OnOk result (self.new.changes.items ≡ self.old.changes.items ++ Moved from_dir.now from_file.now dir.now file.now ∷ []) }
        ensures err { OnErr result (self.new.changes.items ≡ self.old.changes.items) }
    {
        if is_one_path(from_dir, from_file, dir, file) {
            return Err(NoMemory);
        }
        let Ok(Some(bytes)) = self.files.read(self.alloc, from_dir, from_file) else {
            return Err(NoMemory);
        };
        let change = Change::Moved {
            from_dir: Bytes::copy(self.alloc, from_dir)?,
            from_file: Bytes::copy(self.alloc, from_file)?,
            dir: Bytes::copy(self.alloc, dir)?,
            file: Bytes::copy(self.alloc, file)?,
        };
        self.changes.push(change)?;
        match self.files.put(self.alloc, dir, file, bytes.as_slice()) {
            Ok(()) => {
                let _ = self.files.unlink(from_dir, from_file);
                Ok(())
            }
            Err(_) => {
                let _ = self.changes.pop();
                Err(NoMemory)
            }
        }
    }

    /// Whether a folder is there.
    pub fn is_there(&self, dir: &[u8]) -> bool
        ensures { IsTrue result ↔ IsSome ((run self.now.changes.items).now.folders dir.now) }
    {
        for change in &self.changes {
            if change.makes(dir) {
                return true;
            }
        }
        false
    }

    /// Whether a folder is there in this one.
    pub fn has_folder_in(&self, dir: &[u8]) -> bool
        ensures { IsTrue result ↔ HasFolder (run self.now.changes.items).now dir.now }
    {
        for change in &self.changes {
            if change.makes_in(dir) {
                return true;
            }
        }
        false
    }

    /// Whether a file stands in a folder.
    pub fn has_file_in(&mut self, dir: &[u8]) -> Result<bool, NoMemory>
        ensures found { IfOk result (λ found. IsTrue found ↔ HasFile (run self.old.changes.items).now dir.now) }
        ensures same { self.new.changes.items ≡ self.old.changes.items }
    {
        let files = self.files_in(dir)?;
        Ok(!files.as_slice().is_empty())
    }

    /// The files that stand in a folder.
    pub fn files_in(&mut self, dir: &[u8]) -> Result<BytesList, NoMemory>
        ensures all { IfOk result (λ files. ListsAll files (λ name. IsSome (bytes_at (run self.old.changes.items).now dir.now name))) }
        ensures same { self.new.changes.items ≡ self.old.changes.items }
    {
        match self.files.list(self.alloc, dir) {
            Ok(listing) => Ok(listing.files),
            Err(_) => Err(NoMemory),
        }
    }

    /// The folders that stand in a folder, by their last names.
    pub fn folders_in(&self, alloc: Global, dir: &[u8]) -> Result<BytesList, NoMemory>
        ensures { IfOk result (λ folders. ListsAll folders (IsSubfolder (run self.now.changes.items).now dir.now)) }
    {
        let mut names = SoundVolume::new(alloc);
        for change in &self.changes {
            add_name(alloc, &mut names, change, dir)?;
        }
        match names.list(alloc, b"") {
            Ok(listing) => Ok(listing.files),
            Err(_) => Err(NoMemory),
        }
    }

    /// The bytes of a file.
    pub fn read(&mut self, dir: &[u8], file: &[u8]) -> Result<Option<Bytes>, NoMemory>
        ensures value { IfOk result (λ found. found ≡ bytes_at (run self.old.changes.items).now dir.now file.now) }
        ensures starved { OnErr result (IsSome (bytes_at (run self.old.changes.items).now dir.now file.now)) }
        ensures same { self.new.changes.items ≡ self.old.changes.items }
    {
        match self.files.read(self.alloc, dir, file) {
            Ok(found) => Ok(found),
            Err(_) => Err(NoMemory),
        }
    }
}

/// Adds the last name of a folder that a change made in this one, where it made one there.
fn add_name(
    alloc: Global,
    names: &mut SoundVolume,
    change: &Change,
    dir: &[u8],
) -> Result<(), NoMemory>
    ensures { OnOk result ((name : List ℕ) → IsSome (contents names.new.folders [] name)
        ↔ (IsSome (contents names.old.folders [] name) ⊎ (names_in dir.now name change.now ≡ true))) }
{
    let Some(name) = change.name_in(dir) else {
        return Ok(());
    };
    match names.put(alloc, b"", name, b"") {
        Ok(()) => Ok(()),
        Err(_) => Err(NoMemory),
    }
}

fn is_one_path(from_dir: &[u8], from_file: &[u8], dir: &[u8], file: &[u8]) -> bool
    ensures { IsTrue result ↔ ((dir.now ≡ from_dir.now) × (file.now ≡ from_file.now)) }
{
    dir == from_dir && file == from_file
}
