ghost use Rattle.std.specs.Prelude.{◌≡◌, ◌≢◌, [], false, IfOk, string_bytes};
ghost use Rattle.std.specs.IoError.{error_kind};

use crate::host_disk::HostDisk;
use std::alloc::Global;
use std::io;
use std::rt::Files;
use sw_disk::DiskVolume;
use sw_host::{Host, Notes, above, store_error};
use sw_outside::{Bytes, Failed, StoreError};
use sw_volume::{Listing, Volume, VolumeError};

/// A volume over a folder of the host, which tells nothing of what it holds: the volume over a disk, whose contract says what a crash leaves, where the disk
/// is this folder. A directory of it is a folder below that one, and a file a file.
///
/// Paths are text: a directory whose segments aren't all names (an empty one, `.` or `..`), or that begins with `tmp`, and a file that isn't
/// a name, fail, as what isn't UTF-8 does. A file of the host whose name isn't UTF-8 is none of the volume's, and isn't listed.
#[derive(Drop)]
pub struct HostVolume<'a, R: Files + AllocGlobal, N: Notes> {
    volume: DiskVolume<HostDisk<'a, R, N>>,
}

impl<'a, R: Files + AllocGlobal, N: Notes> HostVolume<'a, R, N> {
    /// The volume over the folder of this path, which has to be there, for the process of this number. What a kill left of files that were being
    /// written is taken away. The notes are told of each call on the host that failed.
    pub fn open(
        rt: &'a R,
        notes: &'a N,
        root: String,
        owner: u32,
    ) -> Result<HostVolume<'a, R, N>, StoreError>
        ensures untouched { IfOk result (λ v. (v.volume.calls ≡ 0) × (v.volume.faults ≡ 0) × (v.volume.lists ≡ 0)) }
        ensures root { IfOk result (λ v. string_bytes v.volume.disk.root ≡ string_bytes root) }
    {
        let host = Host { rt, notes };
        if let Err(error) = find(&host, root.as_str()) {
            return Err(store_error(error));
        }
        let alloc: Global = rt.alloc();
        let disk = HostDisk {
            host,
            root,
            faults: 0,
        };
        match DiskVolume::open(alloc, disk, owner) {
            Ok(volume) => Ok(HostVolume { volume }),
            Err((VolumeError::NoMemory, _)) => Err(StoreError::NoMemory),
            Err((VolumeError::Failed, _)) => Err(StoreError::Failed),
        }
    }
}

/// Looks whether the folder of a volume is there, and syncs it into the one above it: a kill may have left it made and not synced.
fn find<R: Files + AllocGlobal, N: Notes>(host: &Host<'_, R, N>, root: &str) -> io::Result<()> {
    host.look(root)?;
    host.sync_folder(above(root))
}

impl<R: Files + AllocGlobal, N: Notes> Volume for HostVolume<'_, R, N> {
    ghost tells = { λ _. false };

    ghost holds = { λ _. [] };

    ghost faults = { λ v. v.volume.faults };

    ghost calls = { λ v. v.volume.calls };

    ghost lists = { λ v. v.volume.lists };

    fn list(&mut self, alloc: Global, dir: &[u8]) -> Result<Listing, VolumeError> {
        self.volume.list(alloc, dir)
    }

    fn read(
        &mut self,
        alloc: Global,
        dir: &[u8],
        file: &[u8],
    ) -> Result<Option<Bytes>, VolumeError> {
        self.volume.read(alloc, dir, file)
    }

    fn put(
        &mut self,
        alloc: Global,
        dir: &[u8],
        file: &[u8],
        bytes: &[u8],
    ) -> Result<(), VolumeError> {
        self.volume.put(alloc, dir, file, bytes)
    }

    fn unlink(&mut self, dir: &[u8], file: &[u8]) -> Result<(), Failed> {
        self.volume.unlink(dir, file)
    }
}
