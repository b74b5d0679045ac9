ghost use Rattle.std.specs.Prelude.{◌≡◌, ◌≤◌, ◌∷◌, [], length, true};
ghost use Rattle.sw_cleanup.specs.Cleaning.{Unlinks};
ghost use Rattle.sw_outside.specs.Counts.{raised};
ghost use Rattle.sw_outside.specs.Faults.{HasCause};
ghost use Rattle.sw_volume.specs.Tree.{contents};
ghost use Rattle.sw_volume.specs.Volume.{raised_by};

use sw_diskfile::{FileName, NAME_ROOM, write_name};
use sw_outside::Failed;
use sw_volume::Volume;

/// Unlinks each of these files of a directory, in their order, also after one whose unlink has failed. The volume's calls are
/// one unlink for each of them. It takes no memory.
pub fn unlink_each<V: Volume>(volume: &mut V, dir: &[u8], files: &[FileName])
    ensures unlinks { V.tells volume.old ≡ true → Unlinks (contents (V.holds volume.old)) (contents (V.holds volume.new)) dir.now files.now
        (V.faults volume.old) (V.faults volume.new) }
    ensures told { V.tells volume.new ≡ V.tells volume.old }
    ensures later { V.faults volume.old ≤ V.faults volume.new }
    ensures calls { V.calls volume.new ≡ raised_by (length files.now) (V.calls volume.old) }
    ensures lists { V.lists volume.new ≡ V.lists volume.old }
{
    for file in files {
        // A file that stays is obsolete, so that nothing is lost by it.
        let _ = unlink(volume, dir, file);
    }
}

/// Unlinks a file of a directory. Where that fails, the file is gone or stays.
fn unlink<V: Volume>(volume: &mut V, dir: &[u8], file: &FileName) -> Result<(), Failed>
    ensures unlinks { V.tells volume.old ≡ true → Unlinks (contents (V.holds volume.old)) (contents (V.holds volume.new)) dir.now (file.now ∷ [])
        (V.faults volume.old) (V.faults volume.new) }
    ensures told { V.tells volume.new ≡ V.tells volume.old }
    ensures cause { HasCause (V.faults volume.old) (V.faults volume.new) result }
    ensures calls { V.calls volume.new ≡ raised (V.calls volume.old) }
    ensures lists { V.lists volume.new ≡ V.lists volume.old }
{
    let mut room = [0; NAME_ROOM];
    let count = write_name(file, &mut room);
    volume.unlink(dir, &room[..count])
}
