//! The one part of a volume on a host that is trusted and not proved: that these calls of std do to the host's files what a disk's are said to.
ghost use Rattle.std.specs.Prelude.{◌≡◌, ◌≢◌, [], false, Ok, IfOk, IsErrAnd, string_bytes};
ghost use Rattle.std.specs.IoError.{error_kind};
ghost use Rattle.sw_disk.specs.Changes.{blank};
ghost use Rattle.sw_outside.specs.Faults as outside;
ghost use Rattle.sw_volume.specs.Volume.{HasCause, OnFailed, OnNoMemory};

use crate::listing::listed;
use crate::paths::{file_path, folder_path};
use std::alloc::Global;
use std::io::{ErrorKind, Write};
use std::rt::Files;
use std::{fs, io};
use sw_disk::{Disk, Standing};
use sw_host::{Host, HostCall, HostPath, Notes};
use sw_outside::{Bytes, BytesList, Failed};
use sw_volume::{Listing, VolumeError};

/// A disk that is a folder of the host. It tells nothing of its state. Of each call that fails it is told which one it was, on which path, and why.
#[derive(Drop)]
pub(crate) struct HostDisk<'a, R: Files + AllocGlobal, N: Notes> {
    pub host: Host<'a, R, N>,
    pub root: String,
    pub faults: u64,
}

impl<R: Files + AllocGlobal, N: Notes> HostDisk<'_, R, N> {
    /// Tells what the host answered: each error is a failure, and counts.
    fn done<T>(&mut self, answer: io::Result<T>) -> Result<T, Failed>
        ensures ok { IfOk result (λ value. answer ≡ Ok value) }
        ensures cause { outside.HasCause self.old.faults self.new.faults result }
        ensures root { self.new.root ≡ self.old.root }
    {
        match answer {
            Ok(value) => Ok(value),
            Err(_) => {
                self.faults = self.faults.saturating_add(1);
                self.host.notes.tell();
                Err(Failed)
            }
        }
    }

    /// Tells what the host answered: of its errors want of memory is no failure, and each other one is, and counts.
    fn told<T>(&mut self, answer: io::Result<T>) -> Result<T, VolumeError>
        ensures ok { IfOk result (λ value. answer ≡ Ok value) }
        ensures memory { OnNoMemory result (IsErrAnd answer (λ e. error_kind e ≡ ErrorKind.OutOfMemory)) }
        ensures failed { OnFailed result (IsErrAnd answer (λ e. error_kind e ≢ ErrorKind.OutOfMemory)) }
        ensures cause { HasCause self.old.faults self.new.faults result }
        ensures root { self.new.root ≡ self.old.root }
    {
        match answer {
            Ok(value) => Ok(value),
            Err(error) if error.kind() == ErrorKind::OutOfMemory => Err(VolumeError::NoMemory),
            Err(_) => {
                self.faults = self.faults.saturating_add(1);
                self.host.notes.tell();
                Err(VolumeError::Failed)
            }
        }
    }

    fn folder(&self, dir: &[u8]) -> io::Result<HostPath> {
        let named = folder_path(&self.root, dir);
        self.host.noted(HostCall::Name, &self.root, named)
    }

    fn file(&self, dir: &[u8], file: &[u8]) -> io::Result<HostPath> {
        let named = file_path(&self.root, dir, file);
        self.host.noted(HostCall::Name, &self.root, named)
    }

    fn write(&self, dir: &[u8], file: &[u8], bytes: &[u8]) -> io::Result<()> {
        let path = self.file(dir, file)?;
        let created = fs::create(self.host.rt, path.as_str());
        let mut created = self.host.noted(HostCall::Create, &path, created)?;
        let written = created.write_all(bytes);
        self.host.noted(HostCall::Write, &path, written)
    }

    fn sync(&self, dir: &[u8], file: &[u8]) -> io::Result<()> {
        let path = self.file(dir, file)?;
        self.host.sync_file(&path)
    }

    fn sync_names(&self, dir: &[u8]) -> io::Result<()> {
        let path = self.folder(dir)?;
        self.host.sync_folder(&path)
    }

    fn move_file(
        &self,
        from_dir: &[u8],
        from_file: &[u8],
        dir: &[u8],
        file: &[u8],
    ) -> io::Result<()> {
        let from = self.file(from_dir, from_file)?;
        let to = self.file(dir, file)?;
        self.host.rename(&from, &to)
    }

    fn make(&self, dir: &[u8]) -> io::Result<()> {
        let path = self.folder(dir)?;
        self.host.make_missing(&path)
    }

    fn standing(&self, dir: &[u8]) -> io::Result<Standing> {
        let path = self.folder(dir)?;
        match self.host.is_filled(&path)? {
            None => Ok(Standing::Missing),
            Some(false) => Ok(Standing::Empty),
            Some(true) => Ok(Standing::Filled),
        }
    }

    /// What stands in a folder: nothing where it isn't there. Where the disk's own folder is gone, as that of a disk that isn't mounted, nothing is known of
    /// what is in it, and the call has failed: so it is for a reading and an unlink.
    fn names(&self, dir: &[u8]) -> io::Result<Listing> {
        let path = self.folder(dir)?;
        match listed(self.host.rt, &path) {
            Err(error) if error.kind() == ErrorKind::NotFound => {
                self.host.look(&self.root)?;
                let alloc: Global = self.host.rt.alloc();
                Ok(Listing {
                    files: BytesList::from(Vec::new(alloc)),
                    folders: BytesList::from(Vec::new(alloc)),
                })
            }
            listed => self.host.noted(HostCall::ListFolder, &path, listed),
        }
    }

    fn contents(&self, dir: &[u8], file: &[u8]) -> io::Result<Option<Bytes>> {
        let path = self.file(dir, file)?;
        match fs::read(self.host.rt, path.as_str()) {
            Ok(bytes) => Ok(Some(Bytes::from(bytes))),
            Err(error) if error.kind() == ErrorKind::NotFound => {
                self.host.look(&self.root)?;
                Ok(None)
            }
            Err(error) => self.host.noted(HostCall::Read, &path, Err(error)),
        }
    }

    fn take_away(&self, dir: &[u8], file: &[u8]) -> io::Result<bool> {
        let path = self.file(dir, file)?;
        let stood = self.host.remove(&path)?;
        if !stood {
            self.host.look(&self.root)?;
        }
        Ok(stood)
    }
}

impl<R: Files + AllocGlobal, N: Notes> Disk for HostDisk<'_, R, N> {
    ghost tells = { λ _. false };

    ghost now = { λ _. blank };

    ghost past = { λ _. [] };

    ghost place = { λ d. string_bytes d.root };

    ghost faults = { λ d. d.faults };

    fn create(&mut self, dir: &[u8], file: &[u8], bytes: &[u8]) -> Result<(), Failed> {
        let written = self.write(dir, file, bytes);
        self.done(written)
    }

    fn sync_file(&mut self, dir: &[u8], file: &[u8]) -> Result<(), Failed> {
        let synced = self.sync(dir, file);
        self.done(synced)
    }

    fn sync_folder(&mut self, dir: &[u8]) -> Result<(), Failed> {
        let synced = self.sync_names(dir);
        self.done(synced)
    }

    fn rename(
        &mut self,
        from_dir: &[u8],
        from_file: &[u8],
        dir: &[u8],
        file: &[u8],
    ) -> Result<(), Failed> {
        let moved = self.move_file(from_dir, from_file, dir, file);
        self.done(moved)
    }

    fn make_folder(&mut self, dir: &[u8]) -> Result<(), Failed> {
        let made = self.make(dir);
        self.done(made)
    }

    fn look(&mut self, dir: &[u8]) -> Result<Standing, Failed> {
        let standing = self.standing(dir);
        self.done(standing)
    }

    fn list(&mut self, _alloc: Global, dir: &[u8]) -> Result<Listing, VolumeError> {
        let names = self.names(dir);
        self.told(names)
    }

    fn read(
        &mut self,
        _alloc: Global,
        dir: &[u8],
        file: &[u8],
    ) -> Result<Option<Bytes>, VolumeError> {
        let contents = self.contents(dir, file);
        self.told(contents)
    }

    fn unlink(&mut self, dir: &[u8], file: &[u8]) -> Result<bool, Failed> {
        let taken = self.take_away(dir, file);
        self.done(taken)
    }
}
