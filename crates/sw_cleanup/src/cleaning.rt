ghost use Rattle.std.specs.Prelude.{◌≡◌, ◌≤◌, List, length, true, IfOk, OnErr};
ghost use Rattle.sw_cleanup.specs.Cleaning.{Cleans, KeepsState, PicksState, obsolete_of};
ghost use Rattle.sw_diskfile.specs.declared.file_name.FileName.{FileName};
ghost use Rattle.sw_outside.specs.Counts.{raised};
ghost use Rattle.sw_volume.specs.Tree.{contents};
ghost use Rattle.sw_volume.specs.Volume.{IsSame, OnFailed, OnNoMemory, raised_by};

use crate::names::names_of_writes;
use crate::obsolete_files::obsolete;
use crate::unlinks::unlink_each;
use std::alloc::Global;
use sw_diskfile::{Picked, pick};
use sw_volume::{Volume, VolumeError};

/// Lists a directory, unlinks its obsolete files in byte order of their names, and answers which of its files are picked.
/// The directory stands for what it stood for. Files that aren't named as a write's are passed over and stay. The volume's
/// calls are the listing and one unlink for each obsolete file.
///
/// An unlink that fails isn't reported, since an obsolete file stands for nothing: the file may stay, and the others are
/// unlinked all the same. [`VolumeError::Failed`] comes only from the listing, and [`VolumeError::NoMemory`] only before the
/// first unlink: the listing was the only call then, and nothing has changed.
pub fn cleanup<V: Volume>(alloc: Global, volume: &mut V, dir: &[u8]) -> Result<Picked, VolumeError>
    ensures cleans { IfOk result (λ picked. V.tells volume.old ≡ true → (names : List FileName)
        × Cleans (contents (V.holds volume.old)) (contents (V.holds volume.new)) dir.now names (V.faults volume.old) (V.faults volume.new) picked
        × (V.calls volume.new ≡ raised_by (length (obsolete_of names)) (raised (V.calls volume.old)))) }
    ensures picks { IfOk result (λ picked. V.tells volume.old ≡ true → PicksState (contents (V.holds volume.old)) dir.now picked) }
    ensures stands { V.tells volume.old ≡ true → KeepsState (contents (V.holds volume.old)) (contents (V.holds volume.new)) dir.now }
    ensures refused { OnErr result (V.tells volume.old ≡ true → IsSame (contents (V.holds volume.old)) (contents (V.holds volume.new))) }
    ensures told { V.tells volume.new ≡ V.tells volume.old }
    ensures later { V.faults volume.old ≤ V.faults volume.new }
    ensures failed { OnFailed result (V.faults volume.new ≡ raised (V.faults volume.old)) }
    ensures no_memory { OnNoMemory result (V.faults volume.new ≡ V.faults volume.old) }
    ensures refused_first { OnErr result (V.calls volume.new ≡ raised (V.calls volume.old)) }
    ensures lists { V.lists volume.new ≡ raised (V.lists volume.old) }
{
    let listing = volume.list(alloc, dir)?;
    let names = names_of_writes(alloc, listing.files.as_slice())?;
    let superseded = obsolete(alloc, &names)?;
    unlink_each(volume, dir, &superseded);
    Ok(pick(&names))
}
