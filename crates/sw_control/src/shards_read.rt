ghost use Rattle.std.specs.Prelude.{◌≡◌, None, Some, IfNone, IfOk, IfSome, OnErr};
ghost use Rattle.sw_control.specs.ShardRequests.{IsShardsRead};
ghost use Rattle.sw_control.specs.declared.shards_read.ShardsRead.{ShardsRead};
ghost use Rattle.sw_hashpath.specs.BadNames.{bad_name};

use crate::containers::place_of;
use std::alloc::Global;
use sw_hashpath::Place;
use sw_outside::NoMemory;
use sw_ring::Ring;

/// A read of the shard ranges of a container that is asked for. The device is its place in the ring's list of devices.
#[derive(Debug, Drop)]
pub struct ShardsRead {
    /// The device whose list is read.
    pub device: u8,
    /// The container whose list is read.
    pub place: Place,
}

/// The read that three words ask for, where they ask for one. Memory is for its place alone.
pub(crate) fn shards_read_of(
    alloc: Global,
    ring: &Ring,
    device: &[u8],
    account: &[u8],
    container: &[u8],
) -> Result<Option<ShardsRead>, NoMemory>
    ensures asked { IfOk result (λ read. IfSome read (IsShardsRead ring.now device.now account.now container.now)) }
    ensures refused { IfOk result (λ read. IfNone read
        ((asked : ShardsRead) → ¬ IsShardsRead ring.now device.now account.now container.now asked)) }
    ensures err { OnErr result (bad_name account.now (Some container.now) None ≡ None) }
{
    let Some(device) = ring.device(device) else {
        return Ok(None);
    };
    match place_of(alloc, ring, account, container)? {
        Some(place) => Ok(Some(ShardsRead { device, place })),
        None => Ok(None),
    }
}
