ghost use Rattle.std.specs.Prelude.{◌≡◌, ℕ, List, true, None, OnOk};
ghost use Rattle.sw_outside.specs.Faults as outside;
ghost use Rattle.sw_disk.specs.Keeping.{IsInOrder, IsOrdered, Rests, writing};
ghost use Rattle.sw_disk.specs.Moments.{Passes};
ghost use Rattle.sw_volume.specs.Volume.{HasCause};

use crate::disk::Disk;
use crate::writing::WRITING;
use std::alloc::Global;
use sw_outside::Failed;
use sw_volume::VolumeError;

/// Makes a disk ready for a volume: the folder in which files are written is there, outlives each crash, and has no file.
pub(crate) fn prepare<D: Disk>(alloc: Global, disk: &mut D) -> Result<(), VolumeError>
    requires { D.tells disk.old ≡ true → IsOrdered (D.now disk.old) }
    ensures ready { OnOk result (D.tells disk.old ≡ true → IsInOrder (D.now disk.new)) }
    ensures empty { OnOk result (D.tells disk.old ≡ true → (file : List ℕ) → (D.now disk.new).files writing file ≡ None) }
    ensures time { D.tells disk.old ≡ true → Passes (Rests IsOrdered) (D.now disk.old) (D.past disk.old) (D.now disk.new) (D.past disk.new) }
    ensures told { D.tells disk.new ≡ D.tells disk.old }
    ensures placed { D.place disk.new ≡ D.place disk.old }
    ensures cause { HasCause (D.faults disk.old) (D.faults disk.new) result }
{
    make_writing(disk)?;
    let left = disk.list(alloc, WRITING)?;
    for name in left.files.as_slice() {
        disk.unlink(WRITING, name.as_slice())?;
    }
    Ok(())
}

/// Makes the folder in which files are written, where it isn't there, and has it outlive each crash.
fn make_writing<D: Disk>(disk: &mut D) -> Result<(), Failed>
    requires { D.tells disk.old ≡ true → IsOrdered (D.now disk.old) }
    ensures ready { OnOk result (D.tells disk.old ≡ true → IsInOrder (D.now disk.new)) }
    ensures time { D.tells disk.old ≡ true → Passes (Rests IsOrdered) (D.now disk.old) (D.past disk.old) (D.now disk.new) (D.past disk.new) }
    ensures told { D.tells disk.new ≡ D.tells disk.old }
    ensures placed { D.place disk.new ≡ D.place disk.old }
    ensures cause { outside.HasCause (D.faults disk.old) (D.faults disk.new) result }
{
    disk.make_folder(WRITING)?;
    disk.sync_folder(b"")
}
