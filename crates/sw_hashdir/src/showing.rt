ghost use Rattle.std.specs.Prelude.{◌≡◌, ℕ, ◌≤◌, true, None, Some, ◌⊎◌, IfOk, IfSome, max};
ghost use Rattle.std.specs.Option.{option_map};
ghost use Rattle.sw_diskfile.specs.StateFiles.{name_of};
ghost use Rattle.sw_outside.specs.Counts.{raised};
ghost use Rattle.sw_object_steps.specs.Steps.{got_beside};
ghost use Rattle.sw_object_steps.specs.declared.got.Got.TheVariants as gots;
ghost use Rattle.sw_state.specs.declared.base.Base.TheVariants as bases;
ghost use Rattle.sw_volume.specs.Tree.{contents};
ghost use Rattle.sw_volume.specs.Volume.{IsSame};
ghost use Rattle.sw_hashdir.specs.Readings.{CallsFor, CallsReading, CountsFault, HasFront, IfDamaged, IfShownDamaged, IsDamageShown, IsDamagedOf, IsGotIn};
ghost use Rattle.sw_hashdir.specs.Readings.{IsOutOfOrder, IsShown, IsWholeAt, OnFailedRead, OnShown, UnlessFailedRead, data_of, got_read, meta_in};

use crate::listing::Seen;
use crate::reading::{ReadFault, data_of, read_given, read_write};
use std::alloc::Global;
use sw_diskfile::{FileName, Picked};
use sw_hashpath::Secrets;
use sw_object_steps::Got;
use sw_state::{Content, Heads, Kind, Write};
use sw_timestamp::Timestamp;
use sw_volume::Volume;

/// What a read of the object shows, by what was seen of its directory, with this front: reads the file of its data, and then that of the
/// metadata where one was picked. Where there is no object no call is made, and after a call that gave no write none.
///
/// A file that is gone since the listing is as one that wasn't there.
pub fn show<V: Volume>(
    alloc: Global,
    volume: &mut V,
    secrets: &Secrets,
    hash: &[u8; 16],
    dir: &[u8],
    seen: &Seen,
    front: u64,
) -> Got
    ensures read { OnShown result (V.tells volume.old ≡ true → IsShown secrets.now hash.now (V.holds volume.old) dir.now front seen.now.picked result) }
    ensures shown { OnShown result (V.tells volume.old ≡ true → IsGotIn secrets.now hash.now (V.holds volume.old) dir.now front seen.now.picked result) }
    ensures at { HasFront front result }
    ensures damaged { IfShownDamaged result (λ bad. V.tells volume.old ≡ true
        → IsDamageShown secrets.now hash.now (V.holds volume.old) dir.now (data_of seen.now.picked.base) seen.now.picked.meta
        (V.calls volume.old) (V.calls volume.new) bad) }
    ensures disorder { IfShownDamaged result (λ bad. V.tells volume.old ≡ true
        → IsOutOfOrder secrets.now hash.now (V.holds volume.old) dir.now seen.now.picked) }
    ensures same { V.tells volume.old ≡ true → IsSame (contents (V.holds volume.old)) (contents (V.holds volume.new)) }
    ensures told { V.tells volume.new ≡ V.tells volume.old }
    ensures cause { CountsFault (V.faults volume.old) (V.faults volume.new) result }
    ensures later { V.faults volume.old ≤ V.faults volume.new }
    ensures calls { CallsFor (data_of seen.now.picked.base) seen.now.picked.meta (V.calls volume.old) (V.calls volume.new) result }
    ensures lists { V.lists volume.new ≡ V.lists volume.old }
{
    let Some(file) = data_of(&seen.picked) else {
        return Got::NotFound(time_of(&seen.picked));
    };
    match read_object(alloc, volume, secrets, hash, dir, &file, &seen.picked.meta) {
        Ok(Some(object)) => got_of(alloc, object, front),
        Ok(None) => Got::NotFound(None),
        Err(ReadFault::Damaged(bad)) => Got::Damaged(bad),
        Err(ReadFault::Failed) => Got::Failed,
        Err(ReadFault::NoMemory) => Got::NoMemory,
    }
}

/// The time of the base that was picked.
fn time_of(picked: &Picked) -> Option<Timestamp>
    ensures { result ≡ option_map (λ f. f.time) picked.now.base }
{
    let base = picked.base?;
    Some(base.time)
}

/// The write of an object's data, and that of the metadata beside it.
#[derive(Drop)]
struct Object {
    data: Write,
    meta: Option<Write>,
}

/// Reads the file of data, and then that of metadata where one is given and data was there.
fn read_object<V: Volume>(
    alloc: Global,
    volume: &mut V,
    secrets: &Secrets,
    hash: &[u8; 16],
    dir: &[u8],
    file: &FileName,
    meta: &Option<FileName>,
) -> Result<Option<Object>, ReadFault>
    ensures found { IfOk result (λ found. V.tells volume.old ≡ true → IsWholeAt secrets.now hash.now (V.holds volume.old) dir.now file.now meta.now found) }
    ensures damaged { IfDamaged result (λ bad. V.tells volume.old ≡ true
        → IsDamagedOf secrets.now hash.now (V.holds volume.old) dir.now file.now meta.now (V.calls volume.old) (V.calls volume.new) bad) }
    ensures named { IfOk result (λ found. IfSome found (λ object. name_of object.data ≡ file.now)) }
    ensures same { V.tells volume.old ≡ true → IsSame (contents (V.holds volume.old)) (contents (V.holds volume.new)) }
    ensures told { V.tells volume.new ≡ V.tells volume.old }
    ensures failed { OnFailedRead result (V.faults volume.new ≡ raised (V.faults volume.old)) }
    ensures kept { UnlessFailedRead result (V.faults volume.new ≡ V.faults volume.old) }
    ensures later { V.faults volume.old ≤ V.faults volume.new }
    ensures calls { CallsReading meta.now (V.calls volume.old) (V.calls volume.new) result }
    ensures lists { V.lists volume.new ≡ V.lists volume.old }
{
    match read_write(alloc, volume, secrets, hash, dir, file) {
        Ok(Some(data)) => match read_given(alloc, volume, secrets, hash, dir, meta) {
            Ok(meta) => Ok(Some(Object { data, meta })),
            Err(fault) => Err(fault),
        },
        Ok(None) => Ok(None),
        Err(fault) => Err(fault),
    }
}

/// What an object's writes show.
fn got_of(alloc: Global, object: Object, front: u64) -> Got
    ensures { (result ≡ gots.NoMemory) ⊎ (result ≡ got_read object.data object.meta front) }
{
    let Object { data, meta } = object;
    let Write { time, kind } = data;
    match kind {
        Kind::Put(content) => got_with(alloc, time, content, meta_of(meta), front),
        Kind::Del => Got::NotFound(Some(time)),
        Kind::Meta(_) => Got::NotFound(None),
    }
}

/// What data shows with this metadata beside it. The content's own is copied where there is none.
fn got_with(
    alloc: Global,
    time: Timestamp,
    content: Content,
    meta: Option<(Timestamp, Heads)>,
    front: u64,
) -> Got
    ensures { (result ≡ gots.NoMemory) ⊎ (result ≡ got_beside (Some (bases.Put time content)) meta front) }
{
    match meta {
        Some((changed, heads)) => Got::Found {
            time: later(time, changed),
            content,
            heads,
            front,
        },
        None => match content.heads.copy(alloc) {
            Ok(heads) => Got::Found {
                time,
                content,
                heads,
                front,
            },
            Err(_) => Got::NoMemory,
        },
    }
}

/// The metadata that the write is.
fn meta_of(found: Option<Write>) -> Option<(Timestamp, Heads)>
    ensures { result ≡ meta_in found }
{
    let Write { time, kind } = found?;
    match kind {
        Kind::Meta(heads) => Some((time, heads)),
        _ => None,
    }
}

/// The later of two times.
fn later(time: Timestamp, other: Timestamp) -> Timestamp
    ensures { result ≡ max time other }
{
    if time < other { other } else { time }
}
