ghost use Rattle.std.specs.Prelude.{◌≡◌, ◌<◌, true};
ghost use Rattle.sw_peer.specs.ContSights.{ContMoves, IsIn};
ghost use Rattle.sw_nodes_tests.specs.Between.{AreSent, IsChangeSent, acknowledges_change as acknowledges_step};
ghost use Rattle.sw_nodes_tests.specs.Sent.{Acknowledged, HeldBy};

use crate::sending::send;
use std::alloc::Global;
use sw_container_steps::{ContAnswer, ContChange};
use sw_hashpath::{Name, Place};
use sw_peer::{ContainerDoor, Link, Lost, ObjectDoor};
use sw_state::Write;

/// Which of three messages are acknowledged.
#[derive(Clone, Copy, Debug, PartialEq, Eq)]
pub struct Heard {
    pub before: bool,
    pub write: bool,
    pub after: bool,
}

/// Sends a write to an object between two messages of one step at a container, all to one device.
///
/// What the device acknowledged of the write is known after the last message too, since no message to a container touches an object.
pub fn send_between<D: ObjectDoor + ContainerDoor>(
    alloc: Global,
    door: &mut D,
    to: u8,
    place: &Place,
    change: &ContChange,
    name: &Name,
    write: Write,
) -> Heard
    requires to { to < (D.sight door.old).nodes.devices }
    requires fits_place { (D.sight door.old).nodes.fits_place place.now ≡ true }
    requires fits { (D.sight door.old).nodes.fits name.now ≡ true }
    ensures sent { AreSent (D.sight door.old) to place.now change.now name.now write result (D.sight door.new) }
    ensures acknowledged { result.write ≡ true → Acknowledged (D.sight door.new) to name.now.hash write }
    ensures held { result.write ≡ true → HeldBy (D.sight door.old) (D.sight door.new) to name.now.hash write }
{
    let before = send_change(alloc, door, to, place, change);
    let written = send(alloc, door, to, name, write);
    let after = send_change(alloc, door, to, place, change);
    Heard {
        before,
        write: written,
        after,
    }
}

/// Sends a step at a container to a device in one message, and answers whether the device is known to have made it.
fn send_change<D: ContainerDoor>(
    alloc: Global,
    door: &mut D,
    to: u8,
    place: &Place,
    change: &ContChange,
) -> bool
    requires to { to < (D.sight door.old).nodes.devices }
    requires fits { (D.sight door.old).nodes.fits_place place.now ≡ true }
    ensures sent { IsChangeSent (D.sight door.old) to place.now change.now result (D.sight door.new) }
    ensures moves { ContMoves (IsIn to place.now) (D.sight door.old) (D.sight door.new) }
{
    let heard = door.change_container(alloc, Link::Sent, to, place, change);
    acknowledges_change(&heard)
}

/// Whether an answer came that says that the step was made.
fn acknowledges_change(heard: &Result<ContAnswer, Lost>) -> bool
    ensures { result ≡ acknowledges_step heard.now }
{
    matches!(
        heard,
        Ok(ContAnswer::New(_) | ContAnswer::There(_) | ContAnswer::Done(_))
    )
}
