ghost use Rattle.std.specs.Prelude.{◌≡◌, ◌≤◌, [], true, Some, None, OnOk};
ghost use Rattle.sw_outside.specs.Counts.{raised};
ghost use Rattle.sw_outside.specs.Failing.{failure_at};
ghost use Rattle.sw_outside.specs.Faults.{HasCause, HasRisen};
ghost use Rattle.sw_disk.specs.Changes.{blank, run};

use crate::change::Change;
use crate::disk::{Disk, Standing};
use crate::disk_log::DiskLog;
use std::alloc::Global;
use sw_outside::{Bytes, BytesList, Failed, FailingCall, NoMemory, failure_of};
use sw_volume::{Listing, VolumeError};

/// A disk in memory, which tells its state. Tests choose which calls fail. A call that finds no memory for a change fails too, and has done nothing. It keeps
/// each change that was made, so that its moments are known.
#[derive(Debug, Drop)]
pub struct MemDisk {
    log: DiskLog,
    failing: Vec<FailingCall>,
    calls: u64,
    faults: u64,
}

impl MemDisk {
    /// A disk with nothing on it, whose calls fail as `failing` says.
    pub fn new(alloc: Global, failing: Vec<FailingCall>) -> MemDisk
        ensures blank { ⟦<MemDisk as Disk>⟧.now result ≡ blank }
        ensures past { ⟦<MemDisk as Disk>⟧.past result ≡ [] }
        ensures faults { ⟦<MemDisk as Disk>⟧.faults result ≡ 0 }
    {
        MemDisk {
            log: DiskLog::new(alloc),
            failing,
            calls: 0,
            faults: 0,
        }
    }

    /// The changes that were made of it, each in its turn. Its states are what they make of a disk with nothing on it: so tests can tell what a crash leaves.
    pub fn changes(&self) -> &[Change]
        ensures now { (run result.now).now ≡ ⟦<MemDisk as Disk>⟧.now self.now }
        ensures past { (run result.now).past ≡ ⟦<MemDisk as Disk>⟧.past self.now }
    {
        &self.log.changes
    }

    /// Counts a call, and answers whether its failure leaves its change made, where it is to fail.
    fn begin(&mut self) -> Option<bool>
        ensures failure { result ≡ failure_at self.old.failing.items self.old.calls }
        ensures log { self.new.log ≡ self.old.log }
        ensures faults { self.new.faults ≡ self.old.faults }
    {
        let call = self.calls;
        self.calls = call.saturating_add(1);
        failure_of(&self.failing, call)
    }

    /// Counts a failure.
    fn fail(&mut self) -> Failed
        ensures log { self.new.log ≡ self.old.log }
        ensures faults { self.new.faults ≡ raised self.old.faults }
        ensures later { self.old.faults ≤ self.new.faults }
        ensures risen { HasRisen self.old.faults self.new.faults }
    {
        self.faults = self.faults.saturating_add(1);
        Failed
    }

    /// How a call ends whose change was made, or couldn't be.
    fn end(&mut self, planned: Option<bool>, made: Result<(), NoMemory>) -> Result<(), Failed>
        ensures ok { OnOk result (made ≡ Ok tt) }
        ensures log { self.new.log ≡ self.old.log }
        ensures cause { HasCause self.old.faults self.new.faults result }
    {
        match (planned, made) {
            (None, Ok(())) => Ok(()),
            _ => Err(self.fail()),
        }
    }
}

impl Disk for MemDisk {
    ghost tells = { λ _. true };

    ghost now = { λ d. (run d.log.changes.items).now };

    ghost past = { λ d. (run d.log.changes.items).past };

    ghost place = { λ _. [] };

    ghost faults = { λ d. d.faults };

    fn create(&mut self, dir: &[u8], file: &[u8], bytes: &[u8]) -> Result<(), Failed> {
        let planned = self.begin();
        if planned == Some(false) {
            return Err(self.fail());
        }
        let made = self.log.create(dir, file, bytes);
        self.end(planned, made)
    }

    fn sync_file(&mut self, dir: &[u8], file: &[u8]) -> Result<(), Failed> {
        let planned = self.begin();
        if planned == Some(false) {
            return Err(self.fail());
        }
        let made = self.log.sync_file(dir, file);
        self.end(planned, made)
    }

    fn sync_folder(&mut self, dir: &[u8]) -> Result<(), Failed> {
        let planned = self.begin();
        if planned == Some(false) {
            return Err(self.fail());
        }
        let made = self.log.sync_folder(dir);
        self.end(planned, made)
    }

    fn rename(
        &mut self,
        from_dir: &[u8],
        from_file: &[u8],
        dir: &[u8],
        file: &[u8],
    ) -> Result<(), Failed> {
        let planned = self.begin();
        if planned == Some(false) {
            return Err(self.fail());
        }
        let made = self.log.rename(from_dir, from_file, dir, file);
        self.end(planned, made)
    }

    fn make_folder(&mut self, dir: &[u8]) -> Result<(), Failed> {
        let planned = self.begin();
        if planned == Some(false) {
            return Err(self.fail());
        }
        let made = self.log.make_folder(dir);
        self.end(planned, made)
    }

    fn look(&mut self, dir: &[u8]) -> Result<Standing, Failed> {
        if self.begin().is_some() {
            return Err(self.fail());
        }
        if !self.log.is_there(dir) {
            return Ok(Standing::Missing);
        }
        if self.log.has_folder_in(dir) {
            return Ok(Standing::Filled);
        }
        match self.log.has_file_in(dir) {
            Ok(true) => Ok(Standing::Filled),
            Ok(false) => Ok(Standing::Empty),
            Err(_) => Err(self.fail()),
        }
    }

    fn list(&mut self, alloc: Global, dir: &[u8]) -> Result<Listing, VolumeError> {
        if self.begin().is_some() {
            return Err(self.fail().into());
        }
        Ok(Listing {
            files: self.log.files_in(dir)?,
            folders: self.log.folders_in(alloc, dir)?,
        })
    }

    fn read(
        &mut self,
        _alloc: Global,
        dir: &[u8],
        file: &[u8],
    ) -> Result<Option<Bytes>, VolumeError> {
        if self.begin().is_some() {
            return Err(self.fail().into());
        }
        Ok(self.log.read(dir, file)?)
    }

    fn unlink(&mut self, dir: &[u8], file: &[u8]) -> Result<bool, Failed> {
        let planned = self.begin();
        if planned == Some(false) {
            return Err(self.fail());
        }
        let removed = self.log.remove(dir, file);
        match (planned, removed) {
            (None, Ok(stood)) => Ok(stood),
            _ => Err(self.fail()),
        }
    }
}
