ghost use Rattle.std.specs.Prelude.{◌≡◌, None, Some, IfNone, IfOk, IfSome, OnErr};
ghost use Rattle.sw_control.specs.ShardRequests.{IsCleaving};
ghost use Rattle.sw_control.specs.declared.cleaving.Cleaving.{Cleaving};
ghost use Rattle.sw_hashpath.specs.BadNames.{bad_name};

use crate::containers::shown_place_of;
use crate::pushing::acts_of;
use std::alloc::Global;
use sw_hashpath::Place;
use sw_lossy::Acts;
use sw_message::FieldList;
use sw_outside::NoMemory;
use sw_ring::Ring;

/// A cleaving of a container that is asked for: the next of its ranges goes to its shard. The device is its place in the ring's list of devices.
#[derive(Debug, Drop)]
pub struct Cleaving {
    /// The device whose rows go.
    pub device: u8,
    /// The container that is cleaved. It isn't hidden.
    pub place: Place,
    /// Which of its messages fail.
    pub acts: Acts,
}

/// The cleaving that three words and the fields ask for, where they ask for one. Memory is for its place alone.
pub(crate) fn cleaving_of(
    alloc: Global,
    ring: &Ring,
    device: &[u8],
    account: &[u8],
    container: &[u8],
    fields: &FieldList,
) -> Result<Option<Cleaving>, NoMemory>
    ensures asked { IfOk result (λ cleaving. IfSome cleaving (IsCleaving ring.now device.now account.now container.now fields.now)) }
    ensures refused { IfOk result (λ cleaving. IfNone cleaving
        ((asked : Cleaving) → ¬ IsCleaving ring.now device.now account.now container.now fields.now asked)) }
    ensures err { OnErr result (bad_name account.now (Some container.now) None ≡ None) }
{
    let Some(device) = ring.device(device) else {
        return Ok(None);
    };
    let Ok(acts) = acts_of(fields) else {
        return Ok(None);
    };
    match shown_place_of(alloc, ring, account, container)? {
        Some(place) => Ok(Some(Cleaving {
            device,
            place,
            acts,
        })),
        None => Ok(None),
    }
}
