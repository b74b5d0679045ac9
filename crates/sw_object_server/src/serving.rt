ghost use Rattle.std.specs.Prelude.{◌≡◌, ◌≤◌, true, length, IfOk, OnErr};
ghost use Rattle.sw_hashpath.specs.declared.name.Name.{Name as NameValue};
ghost use Rattle.sw_object_server.specs.Places.{IsHashed};
ghost use Rattle.sw_object_server.specs.Serving.{IsAnswered, IsGivenUp, IsHalted, IsReached, IsServed};

use crate::asked::Asked;
use crate::making::{make, show};
use crate::reading::read_request;
use crate::replies::bare;
use std::alloc::Global;
use sw_message::{Request, Response};
use sw_outside::NoMemory;
use sw_peer::ObjectDoor;
use sw_ring::Ring;

/// Answers one request: calls the door for the one step that it asks for, and replies to what that is answered; or refuses it, and leaves
/// the door as it was. `now` is the moment, in whole seconds since the epoch; only GET and HEAD look at it.
///
/// The door reaches a node for each device of the ring, and names hashed with the ring's secrets fit it. After [`NoMemory`] the door wasn't
/// called, or was called for that one step, which changed nothing; its reply is 500.
pub fn answer<D: ObjectDoor>(
    alloc: Global,
    door: &mut D,
    ring: &Ring,
    request: Request,
    now: u64,
) -> Result<Response, NoMemory>
    requires devices { length ring.now.devices ≤ (D.sight door.old).nodes.devices }
    requires fits { (name : NameValue) → IsHashed ring.now name → (D.sight door.old).nodes.fits name ≡ true }
    ensures ok { IfOk result (IsAnswered D.sight door.old door.new ring.now request now) }
    ensures err { OnErr result (IsGivenUp D.sight door.old door.new ring.now request now) }
{
    let asked = read_request(alloc, ring, request)?;
    serve(alloc, door, asked, now)
}

/// Does what is asked for, and replies. A refusal takes no memory, and neither does the reply to a POST or to a deletion that was made.
fn serve<D: ObjectDoor>(
    alloc: Global,
    door: &mut D,
    asked: Asked,
    now: u64,
) -> Result<Response, NoMemory>
    requires { IsReached (D.sight door.old).nodes asked }
    ensures ok { IfOk result (IsServed D.sight door.old door.new now asked) }
    ensures err { OnErr result (IsHalted D.sight door.old door.new now asked) }
{
    match asked {
        Asked::Refused(status) => Ok(bare(alloc, status)),
        Asked::Change {
            device,
            name,
            change,
        } => make(alloc, door, device, &name, change),
        Asked::Read {
            device,
            name,
            head_only,
        } => show(alloc, door, device, &name, head_only, now),
    }
}
