ghost use Rattle.std.specs.Prelude.{◌≡◌, ◌<◌, true, IfOk, OnErr};
ghost use Rattle.sw_container_steps.specs.Steps.{is_plain};
ghost use Rattle.sw_container_server.specs.Serving.{IsChangeLeft, IsChangeServed};

use crate::replies::change_reply;
use std::alloc::Global;
use sw_container_steps::ContChange;
use sw_hashpath::Place;
use sw_message::Response;
use sw_outside::NoMemory;
use sw_peer::{ContainerDoor, Link, Lost};

/// Makes a change at the device, and replies to its answer. The reply to one that was made takes no memory.
pub(crate) fn make<D: ContainerDoor>(
    alloc: Global,
    door: &mut D,
    device: u8,
    place: &Place,
    change: &ContChange,
) -> Result<Response, NoMemory>
    requires device { device < (D.sight door.old).nodes.devices }
    requires fits { (D.sight door.old).nodes.fits_place place.now ≡ true }
    requires plain { is_plain change.now ≡ true }
    ensures ok { IfOk result (IsChangeServed (D.sight door.old) (D.sight door.new) device place.now change.now) }
    ensures err { OnErr result (IsChangeLeft (D.sight door.old) (D.sight door.new) device place.now change.now) }
{
    match door.change_container(alloc, Link::Local, device, place, change) {
        Ok(answer) => change_reply(alloc, change, &answer),
        Err(Lost) => unreachable!(),
    }
}
