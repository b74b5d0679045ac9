ghost use Rattle.std.specs.Prelude.{◌≡◌, ◌<◌, true};
ghost use Rattle.std.specs.List.{All};
ghost use Rattle.std.specs.Result.{is_ok};
ghost use Rattle.sw_cleave.specs.Cleaving.{IsAcked, IsHeard, IsOffered};
ghost use Rattle.sw_pass.specs.Turns.{InTurn};

use crate::counting::{count, keep};
use std::alloc::Global;
use sw_container_steps::{ContAnswer, ContChange};
use sw_hashpath::Place;
use sw_outside::NoMemory;
use sw_pass::{Hindrance, Outcome, is_acknowledged};
use sw_peer::{ContainerDoor, Link, Lost};

/// A range of a container, whose rows go to its shard.
#[derive(Drop)]
pub(crate) struct Moving<'a> {
    /// The device of the container.
    pub device: u8,
    pub place: &'a Place,
    pub shard: &'a Place,
    /// The index of the range.
    pub range: u32,
}

/// Sends what is to be sent of a range to devices of its shard, in their order, and keeps each acknowledgement before the next message.
pub(crate) fn offer_all<D: ContainerDoor>(
    alloc: Global,
    door: &mut D,
    moving: &Moving,
    sent: &ContChange,
    top: u64,
    devices: &[u8],
    outcome: &mut Outcome,
) -> Result<(), NoMemory>
    requires device { moving.now.device < (D.sight door.old).nodes.devices }
    requires devices { All (λ to. to < (D.sight door.old).nodes.devices) devices.now }
    requires fits { (D.sight door.old).nodes.fits_place moving.now.place.now ≡ true }
    requires fits_shard { (D.sight door.old).nodes.fits_place moving.now.shard.now ≡ true }
    ensures offers { InTurn (IsOffered moving.now.device moving.now.place.now moving.now.range top moving.now.shard.now sent.now) devices.now
        (D.sight door.old) outcome.old (D.sight door.new) outcome.new (is_ok result) }
    ensures nodes { (D.sight door.new).nodes ≡ (D.sight door.old).nodes }
    ensures asks { (D.sight door.new).asks ≡ (D.sight door.old).asks }
{
    for to in devices {
        offer(alloc, door, moving, sent, top, *to, outcome)?;
    }
    Ok(())
}

/// Sends it to a device of the shard.
fn offer<D: ContainerDoor>(
    alloc: Global,
    door: &mut D,
    moving: &Moving,
    sent: &ContChange,
    top: u64,
    to: u8,
    outcome: &mut Outcome,
) -> Result<(), NoMemory>
    requires device { moving.now.device < (D.sight door.old).nodes.devices }
    requires to { to < (D.sight door.old).nodes.devices }
    requires fits { (D.sight door.old).nodes.fits_place moving.now.place.now ≡ true }
    requires fits_shard { (D.sight door.old).nodes.fits_place moving.now.shard.now ≡ true }
    ensures offers { IsOffered moving.now.device moving.now.place.now moving.now.range top moving.now.shard.now sent.now to
        (D.sight door.old) outcome.old (D.sight door.new) outcome.new (is_ok result) }
    ensures nodes { (D.sight door.new).nodes ≡ (D.sight door.old).nodes }
    ensures asks { (D.sight door.new).asks ≡ (D.sight door.old).asks }
{
    outcome.count_sent();
    let answer = door.change_container(alloc, Link::Sent, to, moving.shard, sent);
    hear(alloc, door, moving, top, to, answer, outcome)
}

/// Goes on with what a device answered: only one that acknowledged the rows is known to have them.
fn hear<D: ContainerDoor>(
    alloc: Global,
    door: &mut D,
    moving: &Moving,
    top: u64,
    to: u8,
    answer: Result<ContAnswer, Lost>,
    outcome: &mut Outcome,
) -> Result<(), NoMemory>
    requires device { moving.now.device < (D.sight door.old).nodes.devices }
    requires fits { (D.sight door.old).nodes.fits_place moving.now.place.now ≡ true }
    ensures hears { IsHeard moving.now.device moving.now.place.now moving.now.range top to answer (D.sight door.old) outcome.old (D.sight door.new) outcome.new
        (is_ok result) }
    ensures nodes { (D.sight door.new).nodes ≡ (D.sight door.old).nodes }
    ensures asks { (D.sight door.new).asks ≡ (D.sight door.old).asks }
{
    match answer {
        Ok(answer) => {
            if is_acknowledged(&answer) {
                ack(alloc, door, moving, top, to, outcome)
            } else {
                keep(Hindrance::of_container_answer(&answer), outcome)
            }
        }
        Err(Lost) => {
            outcome.miss();
            Ok(())
        }
    }
}

/// Keeps at the container that a device of the shard has all rows of the range up to a number.
fn ack<D: ContainerDoor>(
    alloc: Global,
    door: &mut D,
    moving: &Moving,
    top: u64,
    to: u8,
    outcome: &mut Outcome,
) -> Result<(), NoMemory>
    requires device { moving.now.device < (D.sight door.old).nodes.devices }
    requires fits { (D.sight door.old).nodes.fits_place moving.now.place.now ≡ true }
    ensures acks { IsAcked moving.now.device moving.now.place.now moving.now.range top to (D.sight door.old) outcome.old (D.sight door.new) outcome.new
        (is_ok result) }
    ensures nodes { (D.sight door.new).nodes ≡ (D.sight door.old).nodes }
    ensures asks { (D.sight door.new).asks ≡ (D.sight door.old).asks }
{
    let change = ContChange::Ack {
        range: moving.range,
        device: to,
        rowid: top,
    };
    let answer = door.change_container(alloc, Link::Local, moving.device, moving.place, &change);
    count(&answer.unwrap(), outcome)
}
