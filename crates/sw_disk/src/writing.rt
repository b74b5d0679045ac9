//! How files get to their places. Of each folder this is kept true at every moment, so also after a kill: one in which anything stands was synced into the one
//! above it before its first entry was made, and so outlives each crash. A folder that is found and in which nothing stands may be one that a kill left before
//! that, so it is synced too.
ghost use Rattle.std.specs.Prelude.{◌≡◌, ℕ, List, [], true, Some, None, IsSome, OnOk};
ghost use Rattle.sw_disk.specs.Crash.{IsOnDisk};
ghost use Rattle.sw_disk.specs.Keeping.{kept, IsDurable, IsInOrder, IsOrdered, Rests, Turns, writing};
ghost use Rattle.sw_disk.specs.Moments.{Passes};
ghost use Rattle.sw_outside.specs.Faults.{HasCause};
ghost use Rattle.sw_volume.specs.Volume.{Sets};

use crate::disk::{Disk, Standing};
use crate::paths::above;
use sw_outside::Failed;

/// The folder in which files are written before they are moved to their places. No file of a volume stands in it.
pub(crate) const WRITING: &[u8] = b"tmp";

/// Makes the folders that are missing on the way to one, and has each of them outlive a crash.
pub(crate) fn make_way<D: Disk>(disk: &mut D, dir: &[u8]) -> Result<(), Failed>
    ensures ok { OnOk result (D.tells disk.old ≡ true → IsOrdered (D.now disk.old) → IsOnDisk (D.now disk.new) dir.now) }
    ensures files { D.tells disk.old ≡ true → (D.now disk.new).files ≡ (D.now disk.old).files }
    ensures time { D.tells disk.old ≡ true → IsOrdered (D.now disk.old) →
        Passes (Rests IsInOrder) (D.now disk.old) (D.past disk.old) (D.now disk.new) (D.past disk.new) }
    ensures told { D.tells disk.new ≡ D.tells disk.old }
    ensures placed { D.place disk.new ≡ D.place disk.old }
    ensures cause { HasCause (D.faults disk.old) (D.faults disk.new) result }
{
    if dir.is_empty() {
        return Ok(());
    }
    match disk.look(dir)? {
        Standing::Filled => Ok(()),
        Standing::Empty => disk.sync_folder(above(dir)),
        Standing::Missing => {
            make_way(disk, above(dir))?;
            disk.make_folder(dir)?;
            disk.sync_folder(above(dir))
        }
    }
}

/// Writes a file of this name where none is kept, and syncs it.
fn write_whole<D: Disk>(disk: &mut D, name: &[u8], bytes: &[u8]) -> Result<(), Failed>
    ensures ok { OnOk result (D.tells disk.old ≡ true →
        (D.now disk.new).files writing name.now ≡ Some (record { bytes = bytes.now; synced = true })) }
    ensures time { D.tells disk.old ≡ true → Passes (Rests IsInOrder) (D.now disk.old) (D.past disk.old) (D.now disk.new) (D.past disk.new) }
    ensures told { D.tells disk.new ≡ D.tells disk.old }
    ensures placed { D.place disk.new ≡ D.place disk.old }
    ensures cause { HasCause (D.faults disk.old) (D.faults disk.new) result }
{
    disk.create(WRITING, name, bytes)?;
    disk.sync_file(WRITING, name)
}

/// Writes a file under a name of no grammar, and moves it to its place once it is synced and the way there is made: so it stands there whole, or not at all.
pub(crate) fn put_whole<D: Disk>(
    disk: &mut D,
    name: &[u8],
    dir: &[u8],
    file: &[u8],
    bytes: &[u8],
) -> Result<(), Failed>
    requires { ¬ (dir.now ≡ writing) }
    ensures set { OnOk result (D.tells disk.old ≡ true → IsInOrder (D.now disk.old) →
        Sets (kept (D.now disk.old)) (kept (D.now disk.new)) dir.now file.now (Some bytes.now)) }
    ensures durable { OnOk result (D.tells disk.old ≡ true → IsInOrder (D.now disk.old) →
        IsDurable (D.now disk.new) dir.now file.now (Some bytes.now)) }
    ensures time { D.tells disk.old ≡ true → IsInOrder (D.now disk.old) →
        Passes (Turns dir.now file.now (Some bytes.now)) (D.now disk.old) (D.past disk.old) (D.now disk.new) (D.past disk.new) }
    ensures told { D.tells disk.new ≡ D.tells disk.old }
    ensures placed { D.place disk.new ≡ D.place disk.old }
    ensures cause { HasCause (D.faults disk.old) (D.faults disk.new) result }
{
    write_whole(disk, name, bytes)?;
    make_way(disk, dir)?;
    disk.rename(WRITING, name, dir, file)?;
    disk.sync_folder(dir)
}

/// Takes a file away, where one stands there, for good: its folder is synced. Where none does the folder is synced all the same, since one may have been taken
/// away before whose folder couldn't be synced, and might come back. Where there is no folder none ever stood.
pub(crate) fn take_away<D: Disk>(disk: &mut D, dir: &[u8], file: &[u8]) -> Result<(), Failed>
    requires place { ¬ (dir.now ≡ writing) }
    requires below { ¬ (dir.now ≡ []) }
    ensures set { OnOk result (D.tells disk.old ≡ true → Sets (kept (D.now disk.old)) (kept (D.now disk.new)) dir.now file.now None) }
    ensures durable { OnOk result (D.tells disk.old ≡ true → IsInOrder (D.now disk.old) → IsDurable (D.now disk.new) dir.now file.now None) }
    ensures durable_stood { OnOk result (D.tells disk.old ≡ true → IsSome (kept (D.now disk.old) dir.now file.now) →
        IsDurable (D.now disk.new) dir.now file.now None) }
    ensures time { D.tells disk.old ≡ true → Passes (Turns dir.now file.now None) (D.now disk.old) (D.past disk.old) (D.now disk.new) (D.past disk.new) }
    ensures told { D.tells disk.new ≡ D.tells disk.old }
    ensures placed { D.place disk.new ≡ D.place disk.old }
    ensures cause { HasCause (D.faults disk.old) (D.faults disk.new) result }
{
    if disk.unlink(dir, file)? {
        return disk.sync_folder(dir);
    }
    match disk.look(dir)? {
        Standing::Missing => Ok(()),
        Standing::Empty | Standing::Filled => disk.sync_folder(dir),
    }
}
