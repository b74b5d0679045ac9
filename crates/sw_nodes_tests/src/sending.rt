ghost use Rattle.std.specs.Prelude.{◌≡◌, ◌<◌, true};
ghost use Rattle.sw_peer.specs.Sights.{IsAt, Moves};
ghost use Rattle.sw_nodes_tests.specs.Sent.{Acknowledged, HeldBy, IsSent, acknowledges as acknowledges_write};

use std::alloc::Global;
use sw_hashpath::Name;
use sw_object_steps::{Answer, Change};
use sw_peer::{Link, Lost, ObjectDoor};
use sw_state::Write;

/// Sends a write to a device in one message, and answers whether the device is known to have it.
pub fn send<D: ObjectDoor>(alloc: Global, door: &mut D, to: u8, name: &Name, write: Write) -> bool
    requires to { to < (D.sight door.old).nodes.devices }
    requires fits { (D.sight door.old).nodes.fits name.now ≡ true }
    ensures sent { IsSent (D.sight door.old) to name.now write result (D.sight door.new) }
    ensures moves { Moves (IsAt to name.now.hash) (D.sight door.old) (D.sight door.new) }
    ensures acknowledged { result ≡ true → Acknowledged (D.sight door.new) to name.now.hash write }
    ensures held { result ≡ true → HeldBy (D.sight door.old) (D.sight door.new) to name.now.hash write }
{
    let heard = door.change(alloc, Link::Sent, to, name, Change::Receive { write });
    acknowledges(&heard)
}

/// Whether an answer came that says that the device has the write.
fn acknowledges(heard: &Result<Answer, Lost>) -> bool
    ensures { result ≡ acknowledges_write heard.now }
{
    match heard {
        Ok(Answer::Done(_)) => true,
        Ok(Answer::Conflict(_)) => true,
        _ => false,
    }
}
