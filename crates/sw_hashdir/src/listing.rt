ghost use Rattle.std.specs.Prelude.{◌≡◌, ◌≤◌, ℕ, true, IfOk};
ghost use Rattle.std.specs.List.{All};
ghost use Rattle.sw_cleanup.specs.Cleaning.{AreListedIn};
ghost use Rattle.sw_diskfile.specs.Picking.{IsPicked};
ghost use Rattle.sw_outside.specs.Counts.{raised};
ghost use Rattle.sw_volume.specs.Tree.{contents};
ghost use Rattle.sw_volume.specs.Volume.{HasCause, IsSame};
ghost use Rattle.sw_hashdir.specs.Steps.{IsOutlineIn};
ghost use Rattle.sw_object_steps.specs.Outlines.{picked_outline};

use std::alloc::Global;
use sw_cleanup::names_of_writes;
use sw_diskfile::{FileName, Picked, pick};
use sw_object_steps::Outline;
use sw_volume::{Volume, VolumeError};

/// What a listing tells of a hash: the files of writes in byte order of their names, those that make the object, and its outline.
#[derive(Debug, Drop)]
pub struct Seen {
    pub names: Vec<FileName>,
    pub picked: Picked,
    pub outline: Outline,
}

/// Lists a directory: the only call of the volume. Files that aren't named as a write's are passed over.
pub fn look<V: Volume>(alloc: Global, volume: &mut V, dir: &[u8]) -> Result<Seen, VolumeError>
    ensures names { IfOk result (λ seen. V.tells volume.old ≡ true → AreListedIn (contents (V.holds volume.old)) dir.now seen.names.items) }
    ensures times { IfOk result (λ seen. All (λ file. file.time ≤ 999999999999999) seen.names.items) }
    ensures picked { IfOk result (λ seen. IsPicked seen.names.items seen.picked) }
    ensures shape { IfOk result (λ seen. seen.outline ≡ picked_outline seen.picked) }
    ensures outline { IfOk result (λ seen. V.tells volume.old ≡ true → IsOutlineIn (V.holds volume.old) dir.now seen.outline) }
    ensures same { V.tells volume.old ≡ true → IsSame (contents (V.holds volume.old)) (contents (V.holds volume.new)) }
    ensures told { V.tells volume.new ≡ V.tells volume.old }
    ensures cause { HasCause (V.faults volume.old) (V.faults volume.new) result }
    ensures calls { V.calls volume.new ≡ raised (V.calls volume.old) }
    ensures lists { V.lists volume.new ≡ raised (V.lists volume.old) }
{
    let listing = volume.list(alloc, dir)?;
    let names = names_of_writes(alloc, listing.files.as_slice())?;
    let picked = pick(&names);
    let outline = Outline::of_files(&picked);
    Ok(Seen {
        names,
        picked,
        outline,
    })
}
