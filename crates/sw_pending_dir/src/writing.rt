ghost use Rattle.std.specs.Prelude.{◌≡◌, ℕ, ◌≤◌, true, None, Some, OnErr, OnOk, ◌⊎◌};
ghost use Rattle.sw_outside.specs.Counts.{raised};
ghost use Rattle.sw_outside.specs.Faults as outside;
ghost use Rattle.sw_pending.specs.Names.{IsKey, folder_text, name_text};
ghost use Rattle.sw_pending.specs.Records.{key_of};
ghost use Rattle.sw_pending.specs.Texts.{record_text};
ghost use Rattle.sw_volume.specs.Tree.{contents};
ghost use Rattle.sw_volume.specs.Volume.{HasCause, IsSame, MaySet, OnFailed, OnNoMemory, Sets};
ghost use Rattle.sw_pending_dir.specs.Steps.{DropsRecord, FilesRecord, MayDropRecord, MayFileRecord};

use std::alloc::Global;
use sw_outside::Failed;
use sw_pending::{Filed, NAME_ROOM, RecordKey, encode, folder, write_name};
use sw_volume::{Volume, VolumeError};

/// Puts the record's file at the place of its key: the only call of the volume, and none where its text finds no memory. After
/// [`VolumeError::Failed`] that was done, whole, or nothing was.
pub fn put_record<V: Volume>(
    alloc: Global,
    volume: &mut V,
    filed: &Filed,
) -> Result<(), VolumeError>
    ensures ok { OnOk result (V.tells volume.old ≡ true → Sets (contents (V.holds volume.old)) (contents (V.holds volume.new)) (folder_text filed.now.name.hash)
        (name_text (key_of filed.now)) (Some (record_text filed.now))) }
    ensures files { OnOk result (V.tells volume.old ≡ true → FilesRecord filed.now (V.holds volume.old) (V.holds volume.new)) }
    ensures failed { OnFailed result (V.tells volume.old ≡ true → MaySet (contents (V.holds volume.old)) (contents (V.holds volume.new))
        (folder_text filed.now.name.hash) (name_text (key_of filed.now)) (Some (record_text filed.now))) }
    ensures may_file { OnFailed result (V.tells volume.old ≡ true → MayFileRecord filed.now (V.holds volume.old) (V.holds volume.new)) }
    ensures no_memory { OnNoMemory result (V.tells volume.old ≡ true → IsSame (contents (V.holds volume.old)) (contents (V.holds volume.new))) }
    ensures told { V.tells volume.new ≡ V.tells volume.old }
    ensures cause { HasCause (V.faults volume.old) (V.faults volume.new) result }
    ensures calls { OnOk result (V.calls volume.new ≡ raised (V.calls volume.old)) }
    ensures failed_first { OnFailed result (V.calls volume.new ≡ raised (V.calls volume.old)) }
    ensures wanted_first { OnNoMemory result ((V.calls volume.new ≡ V.calls volume.old) ⊎ (V.calls volume.new ≡ raised (V.calls volume.old))) }
    ensures lists { V.lists volume.new ≡ V.lists volume.old }
{
    let bytes = encode(alloc, filed)?;
    put_file(alloc, volume, &filed.key(), bytes.as_slice())
}

/// Puts the file at the place of this key.
fn put_file<V: Volume>(
    alloc: Global,
    volume: &mut V,
    key: &RecordKey,
    bytes: &[u8],
) -> Result<(), VolumeError>
    ensures key { IsKey key.now }
    ensures ok { OnOk result (V.tells volume.old ≡ true → Sets (contents (V.holds volume.old)) (contents (V.holds volume.new)) (folder_text key.now.hash)
        (name_text key.now) (Some bytes.now)) }
    ensures failed { OnFailed result (V.tells volume.old ≡ true → MaySet (contents (V.holds volume.old)) (contents (V.holds volume.new))
        (folder_text key.now.hash) (name_text key.now) (Some bytes.now)) }
    ensures no_memory { OnNoMemory result (V.tells volume.old ≡ true → IsSame (contents (V.holds volume.old)) (contents (V.holds volume.new))) }
    ensures told { V.tells volume.new ≡ V.tells volume.old }
    ensures cause { HasCause (V.faults volume.old) (V.faults volume.new) result }
    ensures calls { V.calls volume.new ≡ raised (V.calls volume.old) }
    ensures lists { V.lists volume.new ≡ V.lists volume.old }
{
    let mut room = [0; NAME_ROOM];
    let count = write_name(key, &mut room);
    volume.put(alloc, &folder(&key.hash), &room[..count], bytes)
}

/// Takes the file at the place of this key away: the only call of the volume. Where none stands there is nothing to do, and that is no failure. After
/// [`Failed`] that was done, or nothing was. It takes no memory.
pub fn unlink_record<V: Volume>(volume: &mut V, key: &RecordKey) -> Result<(), Failed>
    ensures ok { OnOk result (V.tells volume.old ≡ true → Sets (contents (V.holds volume.old)) (contents (V.holds volume.new)) (folder_text key.now.hash)
        (name_text key.now) None) }
    ensures drops { OnOk result (V.tells volume.old ≡ true → DropsRecord key.now (V.holds volume.old) (V.holds volume.new)) }
    ensures failed { OnErr result (V.tells volume.old ≡ true → MaySet (contents (V.holds volume.old)) (contents (V.holds volume.new))
        (folder_text key.now.hash) (name_text key.now) None) }
    ensures may_drop { OnErr result (V.tells volume.old ≡ true → MayDropRecord key.now (V.holds volume.old) (V.holds volume.new)) }
    ensures told { V.tells volume.new ≡ V.tells volume.old }
    ensures cause { outside.HasCause (V.faults volume.old) (V.faults volume.new) result }
    ensures calls { V.calls volume.new ≡ raised (V.calls volume.old) }
    ensures lists { V.lists volume.new ≡ V.lists volume.old }
{
    let mut room = [0; NAME_ROOM];
    let count = write_name(key, &mut room);
    volume.unlink(&folder(&key.hash), &room[..count])
}
