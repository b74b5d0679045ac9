ghost use Rattle.std.specs.Prelude.{◌≡◌, ◌<◌, ◌≤◌, true};
ghost use Rattle.sw_cleave.specs.Cleaving.{IsClosed, IsEmptied};
ghost use Rattle.sw_cleave.specs.Counting.{ComesTo};

use crate::counting::{Came, count_closing, count_emptying};
use std::alloc::Global;
use sw_container_steps::{ContChange, DeviceList};
use sw_hashpath::Place;
use sw_outside::NoMemory;
use sw_pass::Outcome;
use sw_peer::{ContainerDoor, Link};

/// Closes a range at the container, which leaves its names to the shard that these devices keep. So many ranges were open.
pub(crate) fn close<D: ContainerDoor>(
    alloc: Global,
    door: &mut D,
    device: u8,
    place: &Place,
    range: u32,
    devices: DeviceList,
    open_ranges: u64,
    outcome: &mut Outcome,
) -> Result<Came, NoMemory>
    requires device { device < (D.sight door.old).nodes.devices }
    requires fits { (D.sight door.old).nodes.fits_place place.now ≡ true }
    requires some { 1 ≤ open_ranges }
    ensures closes { ComesTo (IsClosed device place.now range devices open_ranges (D.sight door.old) outcome.old (D.sight door.new) outcome.new) result }
    ensures nodes { (D.sight door.new).nodes ≡ (D.sight door.old).nodes }
    ensures asks { (D.sight door.new).asks ≡ (D.sight door.old).asks }
{
    let change = ContChange::CloseRange { range, devices };
    let answer = door.change_container(alloc, Link::Local, device, place, &change);
    count_closing(&answer.unwrap(), open_ranges, outcome)
}

/// Takes the rows of the container away, all of whose ranges are closed.
pub(crate) fn empty_out<D: ContainerDoor>(
    alloc: Global,
    door: &mut D,
    device: u8,
    place: &Place,
    outcome: &mut Outcome,
) -> Result<Came, NoMemory>
    requires device { device < (D.sight door.old).nodes.devices }
    requires fits { (D.sight door.old).nodes.fits_place place.now ≡ true }
    ensures empties { ComesTo (IsEmptied device place.now (D.sight door.old) outcome.old (D.sight door.new) outcome.new) result }
    ensures nodes { (D.sight door.new).nodes ≡ (D.sight door.old).nodes }
    ensures asks { (D.sight door.new).asks ≡ (D.sight door.old).asks }
{
    let answer = door.change_container(alloc, Link::Local, device, place, &ContChange::EmptyOut);
    count_emptying(&answer.unwrap(), outcome)
}
