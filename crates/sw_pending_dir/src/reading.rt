ghost use Rattle.std.specs.Prelude.{◌≡◌, ℕ, ◌≤◌, true, None, Some, IsSome, IsTrue, ◌↔◌, IfOk, IfSome};
ghost use Rattle.sw_outside.specs.Counts.{raised};
ghost use Rattle.sw_pending.specs.Names.{IsKey};
ghost use Rattle.sw_pending.specs.Outcomes.{IsRecord};
ghost use Rattle.sw_pending.specs.Records.{key_of};
ghost use Rattle.sw_volume.specs.Tree.{contents};
ghost use Rattle.sw_volume.specs.Volume.{HasCause, IsSame, OnNoMemory};
ghost use Rattle.sw_pending_dir.specs.Places.{AllRecordsInOrder, IsRecordOf, bytes_at, record_at};
ghost use Rattle.sw_pending_dir.specs.Readings.{IfBad, IfDamaged, IsDamage, IsDamaged, IsFound, OnFailedRead, OnStarvedRead, UnlessFailedRead};

use crate::fault::ReadFault;
use std::alloc::Global;
use sw_hashpath::{BadFile, DecodeError, Secrets};
use sw_outside::Bytes;
use sw_pending::{Filed, NAME_ROOM, RecordKey, decode, folder, write_name};
use sw_volume::{Volume, VolumeError};

/// Reads the record of this key: the only call of the volume. `None` where no file stands at its place, which takes no memory.
///
/// [`ReadFault::Damaged`] where the file isn't a record of this key.
pub fn read_record<V: Volume>(
    alloc: Global,
    volume: &mut V,
    secrets: &Secrets,
    key: &RecordKey,
) -> Result<Option<Filed>, ReadFault>
    ensures found { IfOk result (λ found. V.tells volume.old ≡ true → IsFound secrets.now key.now (bytes_at (contents (V.holds volume.old)) key.now) found) }
    ensures value { IfOk result (λ found. V.tells volume.old ≡ true → found ≡ record_at secrets.now (V.holds volume.old) key.now) }
    ensures keyed { IfOk result (λ found. IfSome found (λ filed. key_of filed ≡ key.now)) }
    ensures sound { IfOk result (λ found. IfSome found (λ filed. IsRecord secrets.now filed)) }
    ensures damaged { IfDamaged result (λ bad. V.tells volume.old ≡ true
        → IsDamaged secrets.now key.now (bytes_at (contents (V.holds volume.old)) key.now) bad) }
    ensures disorder { IfDamaged result (λ bad. V.tells volume.old ≡ true → ¬ (AllRecordsInOrder secrets.now (V.holds volume.old))) }
    ensures starved { OnStarvedRead result (V.tells volume.old ≡ true → IsSome (bytes_at (contents (V.holds volume.old)) key.now)) }
    ensures same { V.tells volume.old ≡ true → IsSame (contents (V.holds volume.old)) (contents (V.holds volume.new)) }
    ensures told { V.tells volume.new ≡ V.tells volume.old }
    ensures failed { OnFailedRead result (V.faults volume.new ≡ raised (V.faults volume.old)) }
    ensures kept { UnlessFailedRead result (V.faults volume.new ≡ V.faults volume.old) }
    ensures later { V.faults volume.old ≤ V.faults volume.new }
    ensures calls { V.calls volume.new ≡ raised (V.calls volume.old) }
    ensures lists { V.lists volume.new ≡ V.lists volume.old }
{
    match read_file(alloc, volume, key) {
        Ok(Some(bytes)) => match record_in(alloc, secrets, key, bytes.as_slice()) {
            Ok(filed) => Ok(Some(filed)),
            Err(error) => Err(ReadFault::from(error)),
        },
        Ok(None) => Ok(None),
        Err(error) => Err(ReadFault::from(error)),
    }
}

/// The bytes of the file at the place of this key.
fn read_file<V: Volume>(
    alloc: Global,
    volume: &mut V,
    key: &RecordKey,
) -> Result<Option<Bytes>, VolumeError>
    ensures key { IsKey key.now }
    ensures value { IfOk result (λ found. V.tells volume.old ≡ true → found ≡ bytes_at (contents (V.holds volume.old)) key.now) }
    ensures starved { OnNoMemory result (V.tells volume.old ≡ true → IsSome (bytes_at (contents (V.holds volume.old)) key.now)) }
    ensures same { V.tells volume.old ≡ true → IsSame (contents (V.holds volume.old)) (contents (V.holds volume.new)) }
    ensures told { V.tells volume.new ≡ V.tells volume.old }
    ensures cause { HasCause (V.faults volume.old) (V.faults volume.new) result }
    ensures calls { V.calls volume.new ≡ raised (V.calls volume.old) }
    ensures lists { V.lists volume.new ≡ V.lists volume.old }
{
    let mut room = [0; NAME_ROOM];
    let count = write_name(key, &mut room);
    volume.read(alloc, &folder(&key.hash), &room[..count])
}

/// The record of this key that these bytes are.
fn record_in(
    alloc: Global,
    secrets: &Secrets,
    key: &RecordKey,
    bytes: &[u8],
) -> Result<Filed, DecodeError>
    ensures found { IfOk result (λ filed. IsRecordOf secrets.now key.now bytes.now filed) }
    ensures sound { IfOk result (λ filed. IsRecord secrets.now filed) }
    ensures damaged { IfBad result (λ bad. IsDamage secrets.now key.now bytes.now bad) }
{
    let filed = decode(alloc, secrets, bytes)?;
    if is_of_key(key, &filed) {
        Ok(filed)
    } else {
        Err(DecodeError::Bad(BadFile::Field))
    }
}

/// Whether this is a record of this key.
fn is_of_key(key: &RecordKey, filed: &Filed) -> bool
    ensures { IsTrue result ↔ (key_of filed.now ≡ key.now) }
{
    filed.name.hash == key.hash && filed.time == key.time
}
