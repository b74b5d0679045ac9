ghost use Rattle.std.specs.Prelude.{◌≡◌, None, Some, IfNone, IfOk, IfSome, OnErr};
ghost use Rattle.sw_control.specs.Passes.{IsContainer};
ghost use Rattle.sw_control.specs.ShardRequests.{IsShown};
ghost use Rattle.sw_hashpath.specs.BadNames.{bad_name};
ghost use Rattle.sw_hashpath.specs.declared.place.Place.{Place};

use std::alloc::Global;
use sw_hashpath::{NameError, Place};
use sw_outside::NoMemory;
use sw_ring::Ring;
use sw_shard_range::is_hidden;

/// The place of the container of these names under the ring's secrets. It answers `None` where something is wrong with the names, and wants memory
/// only over good ones.
pub(crate) fn place_of(
    alloc: Global,
    ring: &Ring,
    account: &[u8],
    container: &[u8],
) -> Result<Option<Place>, NoMemory>
    ensures place { IfOk result (IsContainer ring.now account.now container.now) }
    ensures err { OnErr result (bad_name account.now (Some container.now) None ≡ None) }
{
    match Place::new(alloc, &ring.secrets, account, container) {
        Ok(place) => Ok(Some(place)),
        Err(NameError::Bad(_)) => Ok(None),
        Err(NameError::NoMemory) => Err(NoMemory),
    }
}

/// The same of a container that can be cut into shards: `None` also where it is hidden, as shards are.
pub(crate) fn shown_place_of(
    alloc: Global,
    ring: &Ring,
    account: &[u8],
    container: &[u8],
) -> Result<Option<Place>, NoMemory>
    ensures place { IfOk result (λ place. IfSome place (IsShown ring.now account.now container.now)) }
    ensures refused { IfOk result (λ place. IfNone place ((shown : Place) → ¬ IsShown ring.now account.now container.now shown)) }
    ensures err { OnErr result (bad_name account.now (Some container.now) None ≡ None) }
{
    match place_of(alloc, ring, account, container)? {
        Some(place) if !is_hidden(&place) => Ok(Some(place)),
        _ => Ok(None),
    }
}
