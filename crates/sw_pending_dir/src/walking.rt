ghost use Rattle.std.specs.Prelude.{◌≡◌, ℕ, ◌+◌, ◌≤◌, suc, true, IfOk, OnOk, OnErr};
ghost use Rattle.std.specs.List.{All};
ghost use Rattle.sw_outside.specs.Counts.{raised};
ghost use Rattle.sw_pending.specs.Outcomes.{IsRecord};
ghost use Rattle.sw_volume.specs.Tree.{contents};
ghost use Rattle.sw_volume.specs.Volume.{IsSame, raised_by};
ghost use Rattle.sw_pending_dir.specs.Places.{AllRecordsInOrder, bytes_at};
ghost use Rattle.sw_pending_dir.specs.Readings.{IfDamaged, IsDamaged, OnFailedRead, UnlessFailedRead};
ghost use Rattle.sw_pending_dir.specs.Walks.{AddsRead, AddsRecords, AreAllIn, AreRecords, IsCourse, IsFirstDamage, IsFolderCourse};
ghost use Rattle.sw_pending_dir.specs.Walks.{IsFolderDamage};
ghost use Rattle.sw_pending.specs.Orders.{AreAscending};

use crate::fault::ReadFault;
use crate::names::{in_order, key_at, suffix_folder};
use crate::reading::read_record;
use std::alloc::Global;
use sw_hashpath::Secrets;
use sw_pending::{Filed, RecordKey};
use sw_volume::Volume;

/// All records, in order of folder and name: lists `async_pending`, and then each folder of a suffix in it, and reads each file of that folder whose
/// name is that of a record of the folder, before it lists the next one. The first fault ends it.
///
/// Of a volume that doesn't tell what it holds, a file that is gone since the listing is passed over.
pub fn records<V: Volume>(
    alloc: Global,
    volume: &mut V,
    secrets: &Secrets,
) -> Result<Vec<Filed>, ReadFault>
    ensures records { IfOk result (λ records. V.tells volume.old ≡ true → AreRecords secrets.now (V.holds volume.old) records.items) }
    ensures ordered { IfOk result (λ records. AreAscending records.items) }
    ensures sound { IfOk result (λ records. All (IsRecord secrets.now) records.items) }
    ensures damaged { IfDamaged result (λ bad. V.tells volume.old ≡ true → IsFirstDamage secrets.now (contents (V.holds volume.old)) bad) }
    ensures disorder { IfDamaged result (λ bad. V.tells volume.old ≡ true → ¬ (AllRecordsInOrder secrets.now (V.holds volume.old))) }
    ensures same { V.tells volume.old ≡ true → IsSame (contents (V.holds volume.old)) (contents (V.holds volume.new)) }
    ensures told { V.tells volume.new ≡ V.tells volume.old }
    ensures failed { OnFailedRead result (V.faults volume.new ≡ raised (V.faults volume.old)) }
    ensures kept { UnlessFailedRead result (V.faults volume.new ≡ V.faults volume.old) }
    ensures later { V.faults volume.old ≤ V.faults volume.new }
    ensures calls { (folders : ℕ) × (reads : ℕ) × (V.calls volume.new ≡ raised_by (suc (folders + reads)) (V.calls volume.old))
        × (V.lists volume.new ≡ raised_by (suc folders) (V.lists volume.old))
        × (V.tells volume.old ≡ true → IsCourse secrets.now (contents (V.holds volume.old)) folders reads result) }
{
    let listing = volume.list(alloc, b"async_pending")?;
    let suffixes = in_order(alloc, listing.folders.as_slice())?;
    let mut found = Vec::new(alloc);
    for name in suffixes.as_slice() {
        if let Some(dir) = suffix_folder(name.as_slice()) {
            add_records(alloc, volume, secrets, &dir, &mut found)?;
        }
    }
    Ok(found)
}

/// Adds the records of a folder at the end: lists it, and reads each file whose name is that of a record of the folder.
fn add_records<V: Volume>(
    alloc: Global,
    volume: &mut V,
    secrets: &Secrets,
    dir: &[u8],
    found: &mut Vec<Filed>,
) -> Result<(), ReadFault>
    ensures adds { AddsRecords (V.tells volume.old ≡ true) secrets.now (contents (V.holds volume.old)) dir.now found.old.items found.new.items }
    ensures all { OnOk result (V.tells volume.old ≡ true → AreAllIn secrets.now (contents (V.holds volume.old)) dir.now found.new.items) }
    ensures damaged { IfDamaged result (λ bad. V.tells volume.old ≡ true → IsFolderDamage secrets.now (contents (V.holds volume.old)) dir.now bad) }
    ensures same { V.tells volume.old ≡ true → IsSame (contents (V.holds volume.old)) (contents (V.holds volume.new)) }
    ensures told { V.tells volume.new ≡ V.tells volume.old }
    ensures failed { OnFailedRead result (V.faults volume.new ≡ raised (V.faults volume.old)) }
    ensures kept { UnlessFailedRead result (V.faults volume.new ≡ V.faults volume.old) }
    ensures later { V.faults volume.old ≤ V.faults volume.new }
    ensures calls { (reads : ℕ) × (V.calls volume.new ≡ raised_by reads (raised (V.calls volume.old)))
        × (V.tells volume.old ≡ true → IsFolderCourse found.old.items found.new.items reads result) }
    ensures lists { V.lists volume.new ≡ raised (V.lists volume.old) }
{
    let listing = volume.list(alloc, dir)?;
    let names = in_order(alloc, listing.files.as_slice())?;
    for name in names.as_slice() {
        if let Some(key) = key_at(dir, name.as_slice()) {
            add_record(alloc, volume, secrets, &key, found)?;
        }
    }
    Ok(())
}

/// Adds the record of this key at the end, where one stands.
fn add_record<V: Volume>(
    alloc: Global,
    volume: &mut V,
    secrets: &Secrets,
    key: &RecordKey,
    found: &mut Vec<Filed>,
) -> Result<(), ReadFault>
    ensures adds { OnOk result (AddsRead (V.tells volume.old ≡ true) secrets.now (contents (V.holds volume.old)) key.now found.old.items found.new.items) }
    ensures err { OnErr result (found.new.items ≡ found.old.items) }
    ensures damaged { IfDamaged result (λ bad. V.tells volume.old ≡ true
        → IsDamaged secrets.now key.now (bytes_at (contents (V.holds volume.old)) key.now) bad) }
    ensures same { V.tells volume.old ≡ true → IsSame (contents (V.holds volume.old)) (contents (V.holds volume.new)) }
    ensures told { V.tells volume.new ≡ V.tells volume.old }
    ensures failed { OnFailedRead result (V.faults volume.new ≡ raised (V.faults volume.old)) }
    ensures kept { UnlessFailedRead result (V.faults volume.new ≡ V.faults volume.old) }
    ensures later { V.faults volume.old ≤ V.faults volume.new }
    ensures calls { V.calls volume.new ≡ raised (V.calls volume.old) }
    ensures lists { V.lists volume.new ≡ V.lists volume.old }
{
    let read = read_record(alloc, volume, secrets, key)?;
    match read {
        Some(filed) => {
            found.push(filed)?;
            Ok(())
        }
        None => Ok(()),
    }
}
