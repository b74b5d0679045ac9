ghost use Rattle.std.specs.Prelude.{◌≡◌, None, Some, IfNone, IfOk, IfSome, OnErr};
ghost use Rattle.sw_control.specs.Passes.{IsRowPush};
ghost use Rattle.sw_control.specs.declared.row_push.RowPush.{RowPush};
ghost use Rattle.sw_hashpath.specs.BadNames.{bad_name};

use crate::containers::place_of;
use crate::pushing::{acts_of, two_devices};
use std::alloc::Global;
use sw_hashpath::Place;
use sw_lossy::Acts;
use sw_message::FieldList;
use sw_outside::NoMemory;
use sw_ring::Ring;

/// A push of the rows of a container that is asked for. Devices are places in the ring's list of devices.
#[derive(Debug, Drop)]
pub struct RowPush {
    /// The device whose rows are pushed.
    pub from: u8,
    /// The device that they are pushed to, which is another one.
    pub to: u8,
    /// The container whose rows are pushed.
    pub place: Place,
    /// Which of its messages fail.
    pub acts: Acts,
}

/// The push that four words and the fields ask for, where they ask for one. Memory is for its place alone.
pub(crate) fn row_push_of(
    alloc: Global,
    ring: &Ring,
    from: &[u8],
    to: &[u8],
    account: &[u8],
    container: &[u8],
    fields: &FieldList,
) -> Result<Option<RowPush>, NoMemory>
    ensures asked { IfOk result (λ push. IfSome push (IsRowPush ring.now from.now to.now account.now container.now fields.now)) }
    ensures refused { IfOk result (λ push. IfNone push
        ((asked : RowPush) → ¬ IsRowPush ring.now from.now to.now account.now container.now fields.now asked)) }
    ensures err { OnErr result (bad_name account.now (Some container.now) None ≡ None) }
{
    let Some((from, to)) = two_devices(ring, from, to) else {
        return Ok(None);
    };
    let Ok(acts) = acts_of(fields) else {
        return Ok(None);
    };
    match place_of(alloc, ring, account, container)? {
        Some(place) => Ok(Some(RowPush {
            from,
            to,
            place,
            acts,
        })),
        None => Ok(None),
    }
}
