ghost use Rattle.std.specs.Prelude.{◌≡◌, ◌↔◌, ℕ, ◌≤◌, List, true, IsTrue, None, Some, IfOk, IfSome, IsSome, OnErr};
ghost use Rattle.sw_diskfile.specs.StateFiles.{name_of};
ghost use Rattle.sw_diskfile.specs.FileNames.{name_text};
ghost use Rattle.sw_hashpath.specs.BadNames.{bad_name};
ghost use Rattle.sw_hashpath.specs.Paths.{hash_of};
ghost use Rattle.sw_outside.specs.Counts.{raised};
ghost use Rattle.sw_volume.specs.Tree.{contents};
ghost use Rattle.sw_volume.specs.Volume.{HasCause, IsSame};
ghost use Rattle.sw_hashdir.specs.Readings.{IfBad, IfDamaged, IsDamage, IsDamaged, IsDamagedAt, IsFileOf, IsFound, IsFoundAt};
ghost use Rattle.sw_hashdir.specs.Steps.{IsHashed};
ghost use Rattle.std.specs.Option.{option_map};
ghost use Rattle.sw_hashdir.specs.Readings.{OnFailedRead, UnlessFailedRead, data_of, fault_of_decoding, fault_of_volume, raised_where};

use std::alloc::Global;
use sw_diskfile::{FileName, NAME_ROOM, Picked, write_name};
use sw_hashpath::{Name, Secrets, hash_path};
use sw_metafile::{BadFile, DecodeError, FileBody, decode};
use sw_object_steps::Stored;
use sw_outside::Bytes;
use sw_state::Write;
use sw_timestamp::Tag;
use sw_volume::{Volume, VolumeError};
use thiserror::Error;

/// Why the file of a write can't be read.
#[derive(Clone, Copy, Debug, PartialEq, Eq, Error)]
pub enum ReadFault {
    /// The bytes are no file of a write, or one of another path, time or kind, which is told as [`BadFile::Field`].
    #[error("{0}")]
    Damaged(BadFile),
    /// The volume failed in this call. Its count of faults has risen by one.
    #[error("a call on the volume failed")]
    Failed,
    /// Memory ran out.
    #[error("out of memory")]
    NoMemory,
}

impl From<VolumeError> for ReadFault {
    ghost from_gives = { λ error fault. fault ≡ fault_of_volume error };

    fn from(error: VolumeError) -> ReadFault {
        match error {
            VolumeError::Failed => ReadFault::Failed,
            VolumeError::NoMemory => ReadFault::NoMemory,
        }
    }
}

impl From<DecodeError> for ReadFault {
    ghost from_gives = { λ error fault. fault ≡ fault_of_decoding error };

    fn from(error: DecodeError) -> ReadFault {
        match error {
            DecodeError::Bad(bad) => ReadFault::Damaged(bad),
            DecodeError::NoMemory => ReadFault::NoMemory,
        }
    }
}

/// Reads the write of a file of the directory of this hash: the only call of the volume. `None` where no such file stands.
///
/// [`ReadFault::Damaged`] where the file isn't that of a write of this time and kind, of a path of this hash.
pub fn read_write<V: Volume>(
    alloc: Global,
    volume: &mut V,
    secrets: &Secrets,
    hash: &[u8; 16],
    dir: &[u8],
    file: &FileName,
) -> Result<Option<Write>, ReadFault>
    ensures found { IfOk result (λ found. V.tells volume.old ≡ true
        → IsFound secrets.now hash.now file.now (contents (V.holds volume.old) dir.now (name_text file.now)) found) }
    ensures damaged { IfDamaged result (λ bad. V.tells volume.old ≡ true
        → IsDamaged secrets.now hash.now file.now (contents (V.holds volume.old) dir.now (name_text file.now)) bad) }
    ensures named { IfOk result (λ found. IfSome found (λ w. name_of w ≡ file.now)) }
    ensures same { V.tells volume.old ≡ true → IsSame (contents (V.holds volume.old)) (contents (V.holds volume.new)) }
    ensures told { V.tells volume.new ≡ V.tells volume.old }
    ensures failed { OnFailedRead result (V.faults volume.new ≡ raised (V.faults volume.old)) }
    ensures kept { UnlessFailedRead result (V.faults volume.new ≡ V.faults volume.old) }
    ensures later { V.faults volume.old ≤ V.faults volume.new }
    ensures calls { V.calls volume.new ≡ raised (V.calls volume.old) }
    ensures lists { V.lists volume.new ≡ V.lists volume.old }
{
    let stored = read_stored(alloc, volume, secrets, hash, dir, file)?;
    Ok(stored.map(|stored| stored.write))
}

/// The same, with the name that the file says.
pub fn read_stored<V: Volume>(
    alloc: Global,
    volume: &mut V,
    secrets: &Secrets,
    hash: &[u8; 16],
    dir: &[u8],
    file: &FileName,
) -> Result<Option<Stored>, ReadFault>
    ensures found { IfOk result (λ found. V.tells volume.old ≡ true
        → IsFound secrets.now hash.now file.now (contents (V.holds volume.old) dir.now (name_text file.now)) (option_map (λ s. s.write) found)) }
    ensures damaged { IfDamaged result (λ bad. V.tells volume.old ≡ true
        → IsDamaged secrets.now hash.now file.now (contents (V.holds volume.old) dir.now (name_text file.now)) bad) }
    ensures named { IfOk result (λ found. IfSome found (λ s. name_of s.write ≡ file.now)) }
    ensures timed { IfOk result (λ found. IfSome found (λ s. s.write.time ≤ 999999999999999)) }
    ensures hashed { IfOk result (λ found. IfSome found (λ s. (s.name.hash ≡ hash.now) × IsHashed secrets.now s.name)) }
    ensures same { V.tells volume.old ≡ true → IsSame (contents (V.holds volume.old)) (contents (V.holds volume.new)) }
    ensures told { V.tells volume.new ≡ V.tells volume.old }
    ensures failed { OnFailedRead result (V.faults volume.new ≡ raised (V.faults volume.old)) }
    ensures kept { UnlessFailedRead result (V.faults volume.new ≡ V.faults volume.old) }
    ensures later { V.faults volume.old ≤ V.faults volume.new }
    ensures calls { V.calls volume.new ≡ raised (V.calls volume.old) }
    ensures lists { V.lists volume.new ≡ V.lists volume.old }
{
    match read_file(alloc, volume, dir, file) {
        Ok(Some(bytes)) => match stored_in(alloc, secrets, hash, file, bytes.as_slice()) {
            Ok(stored) => Ok(Some(stored)),
            Err(error) => Err(ReadFault::from(error)),
        },
        Ok(None) => Ok(None),
        Err(error) => Err(ReadFault::from(error)),
    }
}

/// Reads the write of the file where one is given, and else makes no call.
pub(crate) fn read_given<V: Volume>(
    alloc: Global,
    volume: &mut V,
    secrets: &Secrets,
    hash: &[u8; 16],
    dir: &[u8],
    file: &Option<FileName>,
) -> Result<Option<Write>, ReadFault>
    ensures found { IfOk result (λ found. V.tells volume.old ≡ true → IsFoundAt secrets.now hash.now (V.holds volume.old) dir.now file.now found) }
    ensures damaged { IfDamaged result (λ bad. V.tells volume.old ≡ true → IsDamagedAt secrets.now hash.now (V.holds volume.old) dir.now file.now bad) }
    ensures given { OnErr result (IsSome file.now) }
    ensures absent { IfOk result (λ found. file.now ≡ None → found ≡ None) }
    ensures same { V.tells volume.old ≡ true → IsSame (contents (V.holds volume.old)) (contents (V.holds volume.new)) }
    ensures told { V.tells volume.new ≡ V.tells volume.old }
    ensures failed { OnFailedRead result (V.faults volume.new ≡ raised (V.faults volume.old)) }
    ensures kept { UnlessFailedRead result (V.faults volume.new ≡ V.faults volume.old) }
    ensures later { V.faults volume.old ≤ V.faults volume.new }
    ensures calls { V.calls volume.new ≡ raised_where file.now (V.calls volume.old) }
    ensures lists { V.lists volume.new ≡ V.lists volume.old }
{
    match file {
        Some(file) => read_write(alloc, volume, secrets, hash, dir, file),
        None => Ok(None),
    }
}

/// The file of the object's data: none beside a tombstone.
pub(crate) fn data_of(picked: &Picked) -> Option<FileName>
    ensures { result ≡ data_of picked.now.base }
{
    let base = picked.base?;
    if base.tag == Tag::Put {
        Some(base)
    } else {
        None
    }
}

/// The bytes of a file of a directory.
fn read_file<V: Volume>(
    alloc: Global,
    volume: &mut V,
    dir: &[u8],
    file: &FileName,
) -> Result<Option<Bytes>, VolumeError>
    ensures value { IfOk result (λ found. V.tells volume.old ≡ true → found ≡ contents (V.holds volume.old) dir.now (name_text file.now)) }
    ensures same { V.tells volume.old ≡ true → IsSame (contents (V.holds volume.old)) (contents (V.holds volume.new)) }
    ensures told { V.tells volume.new ≡ V.tells volume.old }
    ensures cause { HasCause (V.faults volume.old) (V.faults volume.new) result }
    ensures calls { V.calls volume.new ≡ raised (V.calls volume.old) }
    ensures lists { V.lists volume.new ≡ V.lists volume.old }
{
    let mut room = [0; NAME_ROOM];
    let count = write_name(file, &mut room);
    volume.read(alloc, dir, &room[..count])
}

/// The write that these bytes of the file are, and its name.
fn stored_in(
    alloc: Global,
    secrets: &Secrets,
    hash: &[u8; 16],
    file: &FileName,
    bytes: &[u8],
) -> Result<Stored, DecodeError>
    ensures found { IfOk result (λ stored. IsFileOf secrets.now hash.now file.now bytes.now stored.write) }
    ensures timed { IfOk result (λ stored. stored.write.time ≤ 999999999999999) }
    ensures hashed { IfOk result (λ stored. (stored.name.hash ≡ hash.now) × IsHashed secrets.now stored.name) }
    ensures damaged { IfBad result (λ bad. IsDamage secrets.now hash.now file.now bytes.now bad) }
{
    let body = decode(alloc, bytes)?;
    if is_of_hash(secrets, hash, &body) && is_of_write(file, &body.write) {
        Ok(Stored {
            name: Name {
                account: body.account,
                container: body.container,
                object: body.object,
                hash: *hash,
            },
            write: body.write,
        })
    } else {
        Err(DecodeError::Bad(BadFile::Field))
    }
}

/// Whether the names that a file says have this hash.
fn is_of_hash(secrets: &Secrets, hash: &[u8; 16], body: &FileBody) -> bool
    requires good_names { bad_name body.now.account (Some body.now.container) (Some body.now.object) ≡ None }
    ensures { IsTrue result ↔ (hash_of secrets.now body.now.account (Some body.now.container) (Some body.now.object) ≡ hash.now) }
{
    let account = body.account.as_slice();
    let container = body.container.as_slice();
    let object = body.object.as_slice();
    match hash_path(secrets, account, Some(container), Some(object)) {
        Ok(said) => said == *hash,
        Err(_) => false,
    }
}

/// Whether the file has the name of the write's.
fn is_of_write(file: &FileName, write: &Write) -> bool
    ensures { IsTrue result ↔ (name_of write.now ≡ file.now) }
{
    write.time == file.time && write.kind.tag() == file.tag
}
