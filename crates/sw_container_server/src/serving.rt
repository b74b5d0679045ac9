ghost use Rattle.std.specs.Prelude.{◌≡◌, ◌≤◌, true, length, IfOk, OnErr};
ghost use Rattle.sw_hashpath.specs.declared.place.Place.{Place as PlaceValue};
ghost use Rattle.sw_container_server.specs.Asking.{IsPlaced};
ghost use Rattle.sw_container_server.specs.Places.{IsHashed};
ghost use Rattle.sw_container_server.specs.Serving.{IsAnswered, IsGivenUp, IsLeft, IsServed};
ghost use Rattle.sw_container_server.specs.Targets.{is_for_containers as is_for_containers_of};

use crate::asked::ContAsked;
use crate::looking::{list, tell};
use crate::making::make;
use crate::reading::read_container_request;
use std::alloc::Global;
use sw_message::{Request, Response};
use sw_object_server::bare;
use sw_outside::NoMemory;
use sw_peer::ContainerDoor;
use sw_ring::Ring;

/// Answers one request for containers: calls the door for the step that it asks for, and replies to what that is answered; or refuses it, and leaves
/// the door as it was. A GET has several steps: where it was told of its container, the listing is read behind that. Of a container that is split its shards
/// are asked too, for their counts and for their entries.
///
/// The door reaches a node for each device of the ring, and places hashed with the ring's secrets fit it. After [`NoMemory`] the door wasn't
/// called, or was called for exactly what is asked for, which changed nothing: a step that was made is always replied to.
pub fn answer<D: ContainerDoor>(
    alloc: Global,
    door: &mut D,
    ring: &Ring,
    request: &Request,
) -> Result<Response, NoMemory>
    requires for_containers { is_for_containers_of request.now ≡ true }
    requires devices { length ring.now.devices ≤ (D.sight door.old).nodes.devices }
    requires fits { (place : PlaceValue) → IsHashed ring.now place → (D.sight door.old).nodes.fits_place place ≡ true }
    ensures ok { IfOk result (IsAnswered D.sight door.old door.new ring.now request.now) }
    ensures err { OnErr result (IsGivenUp D.sight door.old door.new ring.now request.now) }
{
    let asked = read_container_request(alloc, ring, request)?;
    serve(alloc, door, ring, asked)
}

/// Does what is asked for, and replies. A refusal takes no memory, and neither does the reply to a step that was made.
fn serve<D: ContainerDoor>(
    alloc: Global,
    door: &mut D,
    ring: &Ring,
    asked: ContAsked,
) -> Result<Response, NoMemory>
    requires devices { length ring.now.devices ≤ (D.sight door.old).nodes.devices }
    requires fits { (place : PlaceValue) → IsHashed ring.now place → (D.sight door.old).nodes.fits_place place ≡ true }
    requires placed { IsPlaced ring.now asked }
    ensures ok { IfOk result (IsServed D.sight ring.now door.old door.new asked) }
    ensures err { OnErr result (IsLeft ring.now (D.sight door.old) (D.sight door.new) asked) }
{
    match asked {
        ContAsked::Refused(status) => Ok(bare(alloc, status)),
        ContAsked::Change {
            device,
            place,
            change,
        } => make(alloc, door, device, &place, &change),
        ContAsked::Info {
            device,
            place,
            replica,
        } => tell(alloc, door, ring, device, &place, replica),
        ContAsked::List {
            device,
            place,
            query,
            replica,
        } => list(alloc, door, ring, device, &place, &query, replica),
    }
}
