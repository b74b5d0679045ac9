ghost use Rattle.std.specs.Prelude.{◌≡◌, ◌<◌, true, IfOk, OnErr, ◌⊎◌};
ghost use Rattle.sw_object_steps.specs.Steps.{write_of};
ghost use Rattle.sw_object_server.specs.Replies.{shows_etag};
ghost use Rattle.sw_object_server.specs.Serving.{IsChangeLeft, IsChangeServed, IsReadLeft, IsReadServed};

use crate::replies::{made_reply, reply_to};
use crate::showing::shown;
use std::alloc::Global;
use sw_hashpath::Name;
use sw_message::Response;
use sw_object_steps::Change;
use sw_outside::NoMemory;
use sw_peer::{Link, Lost, ObjectDoor};

/// Makes a change at the device, and replies to its answer. What the reply to a write that is made needs is taken before.
pub(crate) fn make<D: ObjectDoor>(
    alloc: Global,
    door: &mut D,
    device: u8,
    name: &Name,
    change: Change,
) -> Result<Response, NoMemory>
    requires device { device < (D.sight door.old).nodes.devices }
    requires fits { (D.sight door.old).nodes.fits name.now ≡ true }
    ensures ok { IfOk result (IsChangeServed (D.sight door.old) (D.sight door.new) device name.now change) }
    ensures err { OnErr result ((door.new ≡ door.old) ⊎ IsChangeLeft (D.sight door.old) (D.sight door.new) device name.now change) }
    ensures wanted { OnErr result (((door.new ≡ door.old) × (shows_etag (write_of change).kind ≡ true))
        ⊎ IsChangeLeft (D.sight door.old) (D.sight door.new) device name.now change) }
{
    let made = made_reply(alloc, &change)?;
    match door.change(alloc, Link::Local, device, name, change) {
        Ok(answer) => reply_to(alloc, made, answer),
        Err(Lost) => unreachable!(),
    }
}

/// Reads the object at the device, and replies with what was got.
pub(crate) fn show<D: ObjectDoor>(
    alloc: Global,
    door: &mut D,
    device: u8,
    name: &Name,
    head_only: bool,
    now: u64,
) -> Result<Response, NoMemory>
    requires device { device < (D.sight door.old).nodes.devices }
    requires fits { (D.sight door.old).nodes.fits name.now ≡ true }
    ensures ok { IfOk result (IsReadServed (D.sight door.old) (D.sight door.new) device name.now head_only now) }
    ensures err { OnErr result (IsReadLeft (D.sight door.old) (D.sight door.new) device name.now now) }
{
    match door.get(alloc, Link::Local, device, name) {
        Ok(got) => shown(alloc, got, now, head_only),
        Err(Lost) => unreachable!(),
    }
}
