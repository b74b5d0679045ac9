ghost use Rattle.std.specs.Prelude.{◌≡◌};

use std::alloc::{AllocError, Allocator, Global};
use std::cell::{Cell, RefCell};
use std::fs::{File, Metadata, OpenFile, OpenOptions};
use std::io::{ErrorKind, Read, Seek, SeekFrom, Write};
use std::rc::Rc;
use std::rt::Files;
use std::{fs, io};

/// Which of the steps fail.
#[derive(Clone, Copy)]
pub(crate) enum Failing {
    None,
    /// The step of this number, with this error.
    One(u64, ErrorKind),
    /// All from this number on, as after a kill.
    From(u64),
}

/// What was asked of the host, and which of it is to fail.
#[derive(Drop)]
pub(crate) struct Steps {
    /// A letter a step that changes something: `c` makes a file, `w` writes to it, `s` syncs a file or a folder, `m` makes a folder, `r` moves a
    /// file, `u` takes one away.
    letters: RefCell<Vec<u8>>,
    /// The paths of what was made or moved in folders that weren't synced since: a loss of power takes it away.
    unsynced: RefCell<Vec<String>>,
    asked: Cell<u64>,
    failing: Cell<Failing>,
    has_failed: Cell<bool>,
}

impl Steps {
    pub(crate) fn new(alloc: Global) -> Steps {
        Steps {
            letters: RefCell::new(Vec::new(alloc)),
            unsynced: RefCell::new(Vec::new(alloc)),
            asked: Cell::new(0),
            failing: Cell::new(Failing::None),
            has_failed: Cell::new(false),
        }
    }

    /// Begins to count anew, and has these steps fail.
    pub(crate) fn begin(&self, failing: Failing) {
        self.asked.set(0);
        self.failing.set(failing);
        self.has_failed.set(false);
        if let Ok(mut letters) = self.letters.try_borrow_mut() {
            letters.clear();
        }
    }

    /// Whether one of the steps since has failed as it was to.
    pub(crate) fn has_failed(&self) -> bool {
        self.has_failed.get()
    }

    /// Whether these are the steps that were made since.
    pub(crate) fn are(&self, wanted: &[u8]) -> bool {
        match self.letters.try_borrow() {
            Ok(letters) => letters.as_slice() == wanted,
            Err(_) => false,
        }
    }

    /// How many steps were asked for since.
    pub(crate) fn asked(&self) -> u64 {
        self.asked.get()
    }

    /// Takes away what a loss of power would.
    pub(crate) fn lose_power(&self, rt: &HostRuntime) {
        if let Ok(mut unsynced) = self.unsynced.try_borrow_mut() {
            for path in unsynced.iter() {
                let _ = fs::remove_dir_all(rt, path.as_str());
                let _ = fs::remove_file(rt, path.as_str());
            }
            unsynced.clear();
        }
    }

    /// Asks for a step: it fails, or may be made.
    fn ask(&self) -> io::Result<()> {
        let number = self.asked.get();
        self.asked.set(number.saturating_add(1));
        let fails = match self.failing.get() {
            Failing::One(one, kind) if one == number => Some(kind),
            Failing::From(first) if first <= number => Some(ErrorKind::StorageFull),
            _ => None,
        };
        match fails {
            Some(kind) => {
                self.has_failed.set(true);
                Err(io::Error::from(kind))
            }
            None => Ok(()),
        }
    }

    /// Writes a step down, where it was made.
    fn made<T>(&self, letter: u8, made: io::Result<T>) -> io::Result<T>
        ensures { result ≡ made }
    {
        if made.is_ok() {
            if let Ok(mut letters) = self.letters.try_borrow_mut() {
                let _ = letters.push(letter);
            }
        }
        made
    }

    /// Something stands at this path from now on, in a folder that isn't synced.
    fn stands(&self, alloc: Global, path: &str) -> io::Result<()> {
        let path = String::from_str(alloc, path)?;
        if let Ok(mut unsynced) = self.unsynced.try_borrow_mut() {
            unsynced.push(path).map_err(AllocError::from)?;
        }
        Ok(())
    }

    /// What stands in this folder was synced.
    fn synced(&self, folder: &str) {
        if let Ok(mut unsynced) = self.unsynced.try_borrow_mut() {
            unsynced.retain(|path| !is_in(path.as_str(), folder));
        }
    }

    /// Nothing stands at this path any more.
    fn gone(&self, gone: &str) {
        if let Ok(mut unsynced) = self.unsynced.try_borrow_mut() {
            unsynced.retain(|path| path.as_str() != gone);
        }
    }
}

/// Whether the path is that of an entry of the folder.
fn is_in(path: &str, folder: &str) -> bool {
    match path.rsplit_once('/') {
        Some((above, _)) => above == folder,
        None => false,
    }
}

/// The host's files, whose steps are watched.
#[derive(Drop)]
pub(crate) struct Watched {
    pub rt: HostRuntime,
    pub steps: Rc<Steps>,
}

/// A file of these.
#[derive(Drop)]
pub(crate) struct WatchedFile {
    file: File,
    path: String,
    steps: Rc<Steps>,
}

impl Read for WatchedFile {
    fn read(&mut self, buf: &mut [u8]) -> io::Result<usize> {
        self.file.read(buf)
    }
}

impl Write for WatchedFile {
    fn write(&mut self, buf: &[u8]) -> io::Result<usize> {
        self.steps.ask()?;
        self.steps.made(b'w', self.file.write(buf))
    }

    fn flush(&mut self) -> io::Result<()> {
        self.file.flush()
    }
}

impl Seek for WatchedFile {
    fn seek(&mut self, to: SeekFrom) -> io::Result<u64> {
        self.file.seek(to)
    }
}

impl OpenFile for WatchedFile {
    fn metadata(&self) -> io::Result<Metadata> {
        self.file.metadata()
    }

    fn set_len(&self, size: u64) -> io::Result<()> {
        self.file.set_len(size)
    }

    fn sync_all(&self) -> io::Result<()> {
        self.steps.ask()?;
        self.steps.made(b's', self.file.sync_all())?;
        self.steps.synced(&self.path);
        Ok(())
    }

    fn sync_data(&self) -> io::Result<()> {
        self.file.sync_data()
    }
}

impl Files for Watched {
    type File = WatchedFile;

    type Dir = <HostRuntime as Files>::Dir;

    fn open_file(&self, how: &OpenOptions, path: &str) -> io::Result<WatchedFile> {
        self.steps.ask()?;
        let opened = self.rt.open_file(how, path);
        let file = if how.asks_create() {
            let made = self.steps.made(b'c', opened)?;
            self.steps.stands(self.rt.alloc(), path)?;
            made
        } else {
            opened?
        };
        Ok(WatchedFile {
            file,
            path: String::from_str(self.rt.alloc(), path)?,
            steps: self.steps.clone()?,
        })
    }

    fn open_dir(&self, path: &str) -> io::Result<<HostRuntime as Files>::Dir> {
        self.steps.ask()?;
        self.rt.open_dir(path)
    }

    fn metadata(&self, path: &str) -> io::Result<Metadata> {
        self.steps.ask()?;
        self.rt.metadata(path)
    }

    fn symlink_metadata(&self, path: &str) -> io::Result<Metadata> {
        self.rt.symlink_metadata(path)
    }

    fn copy(&self, from: &str, to: &str) -> io::Result<u64> {
        Files::copy(&self.rt, from, to)
    }

    fn rename(&self, from: &str, to: &str) -> io::Result<()> {
        self.steps.ask()?;
        self.steps.made(b'r', self.rt.rename(from, to))?;
        self.steps.gone(from);
        self.steps.stands(self.rt.alloc(), to)
    }

    fn remove_file(&self, path: &str) -> io::Result<()> {
        self.steps.ask()?;
        self.steps.made(b'u', self.rt.remove_file(path))?;
        self.steps.gone(path);
        Ok(())
    }

    fn create_dir(&self, path: &str) -> io::Result<()> {
        self.steps.ask()?;
        self.steps.made(b'm', self.rt.create_dir(path))?;
        self.steps.stands(self.rt.alloc(), path)
    }

    fn remove_dir(&self, path: &str) -> io::Result<()> {
        self.rt.remove_dir(path)
    }

    fn remove_dir_all<B: Allocator>(&self, alloc: B, path: &str) -> io::Result<()> {
        self.rt.remove_dir_all(alloc, path)
    }
}
