ghost use Rattle.std.specs.Prelude.{◌≡◌, ℕ, ◌≤◌, true, None, Some, IfOk, IsSome, OnErr};
ghost use Rattle.sw_outside.specs.Counts.{raised};
ghost use Rattle.sw_volume.specs.Tree.{contents};
ghost use Rattle.sw_volume.specs.Volume.{IsSame};
ghost use Rattle.sw_hashdir.specs.Readings.{IfDamaged, IsDamagedAt, IsExpiryIn, IsOutOfOrder, IsSecondOf, IsSecondRead};
ghost use Rattle.sw_hashdir.specs.Readings.{OnFailedRead, UnlessFailedRead, expiry_file, raised_where, second_of};

use crate::reading::{ReadFault, data_of, read_given};
use std::alloc::Global;
use sw_diskfile::{FileName, Picked};
use sw_hashpath::Secrets;
use sw_state::{Kind, Write};
use sw_volume::Volume;

/// The second at which the object expires, by the files that are picked of its directory: reads the one that decides, which is that
/// of the metadata beside the data where there is one. Over a tombstone, and over nothing, no call is made.
///
/// A file that is gone since the listing says no second.
pub fn read_expiry<V: Volume>(
    alloc: Global,
    volume: &mut V,
    secrets: &Secrets,
    hash: &[u8; 16],
    dir: &[u8],
    picked: &Picked,
) -> Result<Option<u64>, ReadFault>
    ensures second { IfOk result (λ second. V.tells volume.old ≡ true → IsSecondRead secrets.now hash.now (V.holds volume.old) dir.now picked.now second) }
    ensures expiry { IfOk result (λ second. V.tells volume.old ≡ true → IsExpiryIn secrets.now hash.now (V.holds volume.old) dir.now picked.now second) }
    ensures said { IfOk result (λ second. IsSecondOf (expiry_file picked.now) second) }
    ensures damaged { IfDamaged result (λ bad. V.tells volume.old ≡ true
        → IsDamagedAt secrets.now hash.now (V.holds volume.old) dir.now (expiry_file picked.now) bad) }
    ensures disorder { IfDamaged result (λ bad. V.tells volume.old ≡ true → IsOutOfOrder secrets.now hash.now (V.holds volume.old) dir.now picked.now) }
    ensures given { OnErr result (IsSome (expiry_file picked.now)) }
    ensures same { V.tells volume.old ≡ true → IsSame (contents (V.holds volume.old)) (contents (V.holds volume.new)) }
    ensures told { V.tells volume.new ≡ V.tells volume.old }
    ensures failed { OnFailedRead result (V.faults volume.new ≡ raised (V.faults volume.old)) }
    ensures kept { UnlessFailedRead result (V.faults volume.new ≡ V.faults volume.old) }
    ensures later { V.faults volume.old ≤ V.faults volume.new }
    ensures calls { V.calls volume.new ≡ raised_where (expiry_file picked.now) (V.calls volume.old) }
    ensures lists { V.lists volume.new ≡ V.lists volume.old }
{
    match read_given(alloc, volume, secrets, hash, dir, &expiry_file(picked)) {
        Ok(found) => Ok(second_of(&found)),
        Err(fault) => Err(fault),
    }
}

/// The file that says when the object expires.
fn expiry_file(picked: &Picked) -> Option<FileName>
    ensures { result ≡ expiry_file picked.now }
{
    let data = data_of(picked)?;
    match picked.meta {
        Some(meta) => Some(meta),
        None => Some(data),
    }
}

/// The second that a write says.
fn second_of(found: &Option<Write>) -> Option<u64>
    ensures { result ≡ second_of found.now }
{
    match found {
        Some(write) => match &write.kind {
            Kind::Put(content) => content.heads.delete_at,
            Kind::Del => None,
            Kind::Meta(heads) => heads.delete_at,
        },
        None => None,
    }
}
