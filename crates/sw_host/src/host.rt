ghost use Rattle.std.specs.Prelude.{◌≡◌};

use crate::notes::{HostCall, Notes, noted};
use crate::paths::above;
use std::fs::OpenFile;
use std::io::{ErrorKind, Read, Write};
use std::rt::Files;
use std::{fs, io};

/// The host's files. Of each call that fails it is kept which one it was, on which path, and why.
#[derive(Drop)]
pub struct Host<'a, R: Files, N: Notes> {
    pub rt: &'a R,
    pub notes: &'a N,
}

impl<R: Files, N: Notes> Host<'_, R, N> {
    /// What a call on the host answered.
    pub fn noted<T>(&self, call: HostCall, path: &str, answer: io::Result<T>) -> io::Result<T>
        ensures { result ≡ answer }
    {
        noted(self.notes, call, path, answer)
    }

    /// Whether something stands there: that it doesn't is no failure.
    pub fn is_there(&self, path: &str) -> io::Result<bool> {
        let looked = fs::exists(self.rt, path);
        self.noted(HostCall::Look, path, looked)
    }

    /// Looks for something that has to be there.
    pub fn look(&self, path: &str) -> io::Result<()> {
        match self.noted(HostCall::Look, path, fs::metadata(self.rt, path)) {
            Ok(_) => Ok(()),
            Err(error) => Err(error),
        }
    }

    /// Makes a folder that isn't there.
    pub fn make_folder(&self, path: &str) -> io::Result<()> {
        let made = fs::create_dir(self.rt, path);
        self.noted(HostCall::MakeFolder, path, made)
    }

    /// Makes a folder where it isn't there yet.
    pub fn make_missing(&self, path: &str) -> io::Result<()> {
        match fs::create_dir(self.rt, path) {
            Err(error) if error.kind() == ErrorKind::AlreadyExists => Ok(()),
            made => self.noted(HostCall::MakeFolder, path, made),
        }
    }

    /// Whether anything stands in a folder, or `None` where there is no such folder.
    pub fn is_filled(&self, path: &str) -> io::Result<Option<bool>> {
        let answer = match self.rt.open_dir(path) {
            Ok(folder) => has_name(folder),
            Err(error) if error.kind() == ErrorKind::NotFound => return Ok(None),
            Err(error) => Err(error),
        };
        Ok(Some(self.noted(HostCall::ListFolder, path, answer)?))
    }

    /// Syncs a folder: the names that stand in it.
    pub fn sync_folder(&self, path: &str) -> io::Result<()> {
        let synced = sync(self.rt, path);
        self.noted(HostCall::SyncFolder, path, synced)
    }

    /// Syncs a folder and the one in which it stands.
    pub fn sync_with_above(&self, path: &str) -> io::Result<()> {
        self.sync_folder(path)?;
        self.sync_folder(above(path))
    }

    /// Writes a file, in place of one that stands there, and syncs it.
    pub fn write_whole(&self, path: &str, bytes: &[u8]) -> io::Result<()> {
        let created = fs::create(self.rt, path);
        let mut file = self.noted(HostCall::Create, path, created)?;
        let written = file.write_all(bytes);
        self.noted(HostCall::Write, path, written)?;
        let synced = file.sync_all();
        self.noted(HostCall::SyncFile, path, synced)
    }

    /// Syncs a file that is there.
    pub fn sync_file(&self, path: &str) -> io::Result<()> {
        let synced = sync(self.rt, path);
        self.noted(HostCall::SyncFile, path, synced)
    }

    /// Moves a file over what stands at the other path, in one step.
    pub fn rename(&self, from: &str, to: &str) -> io::Result<()> {
        let moved = fs::rename(self.rt, from, to);
        self.noted(HostCall::Rename, to, moved)
    }

    /// Takes a file away, and tells whether it was there.
    pub fn remove(&self, path: &str) -> io::Result<bool> {
        match fs::remove_file(self.rt, path) {
            Ok(()) => Ok(true),
            Err(error) if error.kind() == ErrorKind::NotFound => Ok(false),
            Err(error) => self.noted(HostCall::Remove, path, Err(error)),
        }
    }
}

fn sync<R: Files>(rt: &R, path: &str) -> io::Result<()> {
    fs::open(rt, path)?.sync_all()
}

/// Whether a folder that was opened has a name besides those of itself and of the one above it.
fn has_name<D: Read + Drop>(folder: D) -> io::Result<bool> {
    let mut folder = folder;
    let mut names = [0; 2048];
    for _ in 0..64 {
        let given = folder.read(&mut names)?;
        if given == 0 {
            return Ok(false);
        }
        if names[..given].split(|byte| *byte == 0).any(is_own_name) {
            return Ok(true);
        }
    }
    Err(io::Error::from(ErrorKind::InvalidData))
}

fn is_own_name(name: &[u8]) -> bool {
    !matches!(name, b"" | b"." | b"..")
}
