ghost use Rattle.std.specs.Prelude.{◌≡◌, None, Some, IfNone, IfOk, IfSome, OnErr};
ghost use Rattle.sw_control.specs.ShardRequests.{IsShardCreation, has_room};
ghost use Rattle.sw_control.specs.declared.shard_creation.ShardCreation.{ShardCreation};
ghost use Rattle.sw_hashpath.specs.BadNames.{bad_name};

use crate::containers::shown_place_of;
use crate::pushing::{acts_of, number_of};
use std::alloc::Global;
use sw_fields::time_of;
use sw_hashpath::Place;
use sw_lossy::Acts;
use sw_message::FieldList;
use sw_outside::NoMemory;
use sw_ring::Ring;
use sw_timestamp::Timestamp;

/// The account of a container that is cut has at most so many bytes: `.shards_` comes before it in a shard's.
const MAX_ACCOUNT: usize = 248;

/// The container has at most so many bytes: an MD5, a time and an index come behind it in a shard's.
const MAX_CONTAINER: usize = 192;

/// A creation of the shards of a container that is asked for. The device is its place in the ring's list of devices.
#[derive(Debug, Drop)]
pub struct ShardCreation {
    /// The device by whose rows the container is cut.
    pub device: u8,
    /// The container that is cut. It isn't hidden, and its names leave room for those of its shards.
    pub place: Place,
    /// How many live names a shard has, the last one at most.
    pub per_shard: u64,
    /// The time at which the shards are created; it is in their names.
    pub time: Timestamp,
    /// Which of its messages fail.
    pub acts: Acts,
}

/// The creation that four words and the fields ask for, where they ask for one. Memory is for its place alone.
pub(crate) fn shard_creation_of(
    alloc: Global,
    ring: &Ring,
    device: &[u8],
    account: &[u8],
    container: &[u8],
    per_shard: &[u8],
    fields: &FieldList,
) -> Result<Option<ShardCreation>, NoMemory>
    ensures asked { IfOk result (λ creation. IfSome creation
        (IsShardCreation ring.now device.now account.now container.now per_shard.now fields.now)) }
    ensures refused { IfOk result (λ creation. IfNone creation
        ((asked : ShardCreation) → ¬ IsShardCreation ring.now device.now account.now container.now per_shard.now fields.now asked)) }
    ensures err { OnErr result (bad_name account.now (Some container.now) None ≡ None) }
{
    let Some(device) = ring.device(device) else {
        return Ok(None);
    };
    let Some(per_shard) = number_of(per_shard) else {
        return Ok(None);
    };
    let Some(time) = time_of(fields) else {
        return Ok(None);
    };
    let Ok(acts) = acts_of(fields) else {
        return Ok(None);
    };
    match shown_place_of(alloc, ring, account, container)? {
        Some(place) if has_room(&place) => Ok(Some(ShardCreation {
            device,
            place,
            per_shard,
            time,
            acts,
        })),
        _ => Ok(None),
    }
}

/// Whether the names of a container leave room for those of its shards.
fn has_room(place: &Place) -> bool
    ensures { result ≡ has_room place.now }
{
    place.account.as_slice().len() <= MAX_ACCOUNT
        && place.container.as_slice().len() <= MAX_CONTAINER
}
