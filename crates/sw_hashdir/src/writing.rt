ghost use Rattle.std.specs.Prelude.{◌≡◌, ℕ, ◌≤◌, ◌++◌, ◌∷◌, [], true, filter, length, Some, None, IfOk, OnOk, ◌⊎◌};
ghost use Rattle.sw_cleanup.specs.Cleaning.{obsolete_of};
ghost use Rattle.sw_diskfile.specs.StateFiles.{name_of};
ghost use Rattle.sw_cleanup.specs.Obsolete.{is_obsolete};
ghost use Rattle.sw_diskfile.specs.FileNames.{name_text};
ghost use Rattle.sw_metafile.specs.Texts.{file_text};
ghost use Rattle.sw_outside.specs.Counts.{raised};
ghost use Rattle.sw_outside.specs.Faults.{HasRisen};
ghost use Rattle.sw_volume.specs.Tree.{contents};
ghost use Rattle.sw_volume.specs.Volume.{HasCause, IsSame, MaySet, OnFailed, OnNoMemory, Sets, raised_by};
ghost use Rattle.sw_hashdir.specs.Steps.{JoinsAll, MayJoin, Writes};

use std::alloc::Global;
use sw_cleanup::{obsolete, unlink_each};
use sw_diskfile::{FileName, NAME_ROOM, write_name};
use sw_hashpath::Name;
use sw_metafile::encode;
use sw_outside::NoMemory;
use sw_state::Write;
use sw_volume::{Volume, VolumeError};

/// Puts the file of a write beside the files of these names, and then unlinks those that are obsolete, in their order. What
/// wants memory comes before the put. An unlink that fails isn't reported.
pub fn write_file<V: Volume>(
    alloc: Global,
    volume: &mut V,
    dir: &[u8],
    names: &[FileName],
    name: &Name,
    write: &Write,
) -> Result<(), VolumeError>
    ensures ok { OnOk result (V.tells volume.old ≡ true → Writes (V.holds volume.old) (V.holds volume.new) dir.now names.now name.now write.now
        (V.faults volume.old) (V.faults volume.new)) }
    ensures joins { OnOk result (V.tells volume.old ≡ true → JoinsAll (V.holds volume.old) (V.holds volume.new) dir.now names.now name.now write.now) }
    ensures failed { OnFailed result (V.tells volume.old ≡ true → MaySet (contents (V.holds volume.old)) (contents (V.holds volume.new)) dir.now
        (name_text (name_of write.now)) (Some (file_text name.now.account name.now.container name.now.object write.now))) }
    ensures may_join { OnFailed result (V.tells volume.old ≡ true → MayJoin (V.holds volume.old) (V.holds volume.new) dir.now names.now name.now write.now) }
    ensures no_memory { OnNoMemory result (V.tells volume.old ≡ true → IsSame (contents (V.holds volume.old)) (contents (V.holds volume.new))) }
    ensures told { V.tells volume.new ≡ V.tells volume.old }
    ensures later { V.faults volume.old ≤ V.faults volume.new }
    ensures once { OnFailed result (V.faults volume.new ≡ raised (V.faults volume.old)) }
    ensures risen { OnFailed result (HasRisen (V.faults volume.old) (V.faults volume.new)) }
    ensures kept { OnNoMemory result (V.faults volume.new ≡ V.faults volume.old) }
    ensures calls { OnOk result (V.calls volume.new ≡ raised_by (length (obsolete_of (names.now ++ name_of write.now ∷ []))) (raised (V.calls volume.old))) }
    ensures failed_first { OnFailed result (V.calls volume.new ≡ raised (V.calls volume.old)) }
    ensures wanted_first { OnNoMemory result ((V.calls volume.new ≡ V.calls volume.old) ⊎ (V.calls volume.new ≡ raised (V.calls volume.old))) }
    ensures lists { V.lists volume.new ≡ V.lists volume.old }
{
    let file = FileName {
        time: write.time,
        tag: write.kind.tag(),
    };
    let superseded = superseded_by(alloc, names, &file)?;
    let bytes = encode(alloc, name, write)?;
    match put(alloc, volume, dir, &file, bytes.as_slice()) {
        Ok(()) => {
            unlink_each(volume, dir, &superseded);
            Ok(())
        }
        Err(error) => Err(error),
    }
}

/// Those of a directory's files that are obsolete once this one stands there too.
fn superseded_by(
    alloc: Global,
    names: &[FileName],
    file: &FileName,
) -> Result<Vec<FileName>, NoMemory>
    ensures { IfOk result (λ found. found.items ≡ filter (is_obsolete (names.now ++ file.now ∷ [])) (names.now ++ file.now ∷ [])) }
{
    let mut all = Vec::from_slice(alloc, names)?;
    all.push(*file)?;
    obsolete(alloc, &all)
}

/// Puts a file of a directory.
fn put<V: Volume>(
    alloc: Global,
    volume: &mut V,
    dir: &[u8],
    file: &FileName,
    bytes: &[u8],
) -> Result<(), VolumeError>
    ensures ok { OnOk result (V.tells volume.old ≡ true → Sets (contents (V.holds volume.old)) (contents (V.holds volume.new)) dir.now (name_text file.now)
        (Some bytes.now)) }
    ensures failed { OnFailed result (V.tells volume.old ≡ true
        → MaySet (contents (V.holds volume.old)) (contents (V.holds volume.new)) dir.now (name_text file.now) (Some bytes.now)) }
    ensures no_memory { OnNoMemory result (V.tells volume.old ≡ true → IsSame (contents (V.holds volume.old)) (contents (V.holds volume.new))) }
    ensures told { V.tells volume.new ≡ V.tells volume.old }
    ensures cause { HasCause (V.faults volume.old) (V.faults volume.new) result }
    ensures calls { V.calls volume.new ≡ raised (V.calls volume.old) }
    ensures lists { V.lists volume.new ≡ V.lists volume.old }
{
    let mut room = [0; NAME_ROOM];
    let count = write_name(file, &mut room);
    volume.put(alloc, dir, &room[..count], bytes)
}
