ghost use Rattle.std.specs.Prelude.{◌≡◌, ℕ, ◌≤◌, true, false, length, IfOk};
ghost use Rattle.std.specs.List.{slice_get};
ghost use Rattle.sw_core.specs.Listing.{AllTell, AreCalm, AreLookedAt, IsPathAmong, is_failed};
ghost use Rattle.sw_core.specs.Worlds.{seen_of};
ghost use Rattle.sw_outside.specs.Faults.{HasRisen};
ghost use Rattle.sw_volume.specs.Volume.{ListsAll};

use crate::slot::Slot;
use std::alloc::Global;
use sw_hashdir::Paths;
use sw_outside::BytesList;
use sw_volume::{Volume, VolumeError};

/// The paths of all files below `objects` of the locks from the place `first` on, up to `past`, in byte order, each once. The first call
/// that fails ends it.
pub(crate) fn files_in<V: Volume + Drop>(
    alloc: Global,
    places: &mut Vec<Slot<V>>,
    first: usize,
    past: usize,
) -> Result<BytesList, VolumeError>
    requires order { first ≤ past }
    requires within { past ≤ length places.old.items }
    ensures looked { AreLookedAt V.tells V.holds V.faults first past places.old.items places.new.items }
    ensures paths { IfOk result (λ paths. AllTell V.tells first past places.old.items → ListsAll paths (IsPathAmong V.holds first past places.old.items)) }
    ensures risen { is_failed result ≡ true → (l : ℕ) ×
        HasRisen (seen_of V.tells V.holds V.faults (slice_get places.old.items l)).faults
        (seen_of V.tells V.holds V.faults (slice_get places.new.items l)).faults }
    ensures calm { is_failed result ≡ false → AreCalm V.tells V.holds V.faults places.old.items places.new.items }
{
    let mut found = Paths::new(alloc);
    for at in first..past {
        if let Slot::Open(dir) = &mut places[at] {
            dir.add_files(alloc, &mut found)?;
        }
    }
    Ok(found.into_list(alloc)?)
}
