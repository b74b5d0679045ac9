ghost use Rattle.std.specs.Prelude.{◌≡◌, ◌≢◌, ◌<◌, ◌≤◌, ◌^◌, true};
ghost use Rattle.sw_steps.specs.Passing.{AreRowsPushedOver, AreShardsCreatedOver, IsCleftOver, IsPushedOver, IsUpdateOver};
ghost use Rattle.sw_pass.specs.Rings.{IsRingOf};

use std::alloc::Global;
use sw_cleave::{cleave_next, create_shards};
use sw_cont_replicator::push_rows;
use sw_hashpath::Place;
use sw_lossy::{Acts, Lossy};
use sw_outside::NoMemory;
use sw_pass::Outcome;
use sw_peer::{ContainerDoor, FaithfulDoor, PendingDoor, ReplicaDoor};
use sw_replicator::push;
use sw_ring::Ring;
use sw_timestamp::Timestamp;
use sw_updater::update;

/// Pushes a partition through a door that loses and repeats messages; `acts` says which, by their numbers in this push, from 1. The door
/// inside delivers each message once.
pub fn push_over<D: ReplicaDoor + FaithfulDoor + Drop>(
    alloc: Global,
    door: &mut Lossy<D>,
    from: u8,
    to: u8,
    part: u32,
    acts: Acts,
) -> Result<Outcome, NoMemory>
    requires from { from < (D.sight door.old.door).nodes.devices }
    requires to { to < (D.sight door.old.door).nodes.devices }
    requires apart { from ≢ to }
    requires part { part < 2 ^ (D.sight door.old.door).nodes.power }
    ensures { IsPushedOver from to part acts (D.sight door.old.door) result (D.sight door.new.door) }
{
    door.begin(acts);
    push(alloc, door, from, to, part)
}

/// Pushes the rows of a container through such a door.
pub fn push_rows_over<D: ContainerDoor + FaithfulDoor + Drop>(
    alloc: Global,
    door: &mut Lossy<D>,
    ring: &Ring,
    from: u8,
    to: u8,
    place: &Place,
    acts: Acts,
) -> Result<Outcome, NoMemory>
    requires ring { IsRingOf ring.now (D.sight door.old.door).nodes }
    requires from { from < (D.sight door.old.door).nodes.devices }
    requires to { to < (D.sight door.old.door).nodes.devices }
    requires apart { from ≢ to }
    requires fits { (D.sight door.old.door).nodes.fits_place place.now ≡ true }
    ensures { AreRowsPushedOver ring.now from to place.now acts (D.sight door.old.door) result (D.sight door.new.door) }
{
    door.begin(acts);
    push_rows(alloc, door, ring, from, to, place)
}

/// Updates the containers of the ring of what the records of a device are for, through such a door.
pub fn update_over<D: PendingDoor + ContainerDoor + FaithfulDoor + Drop>(
    alloc: Global,
    door: &mut Lossy<D>,
    ring: &Ring,
    device: u8,
    acts: Acts,
) -> Result<Outcome, NoMemory>
    requires device { device < (D.sight door.old.door).nodes.devices }
    requires ring { IsRingOf ring.now (D.sight door.old.door).nodes }
    ensures { IsUpdateOver ring.now device acts (D.sight door.old.door) result (D.sight door.new.door) }
{
    door.begin(acts);
    update(alloc, door, ring, device)
}

/// Moves the first open range of a container to its shard, through such a door; where no range is open, it takes the container's rows away.
pub fn cleave_over<D: ContainerDoor + FaithfulDoor + Drop>(
    alloc: Global,
    door: &mut Lossy<D>,
    ring: &Ring,
    device: u8,
    place: &Place,
    acts: Acts,
) -> Result<Outcome, NoMemory>
    requires device { device < (D.sight door.old.door).nodes.devices }
    requires ring { IsRingOf ring.now (D.sight door.old.door).nodes }
    requires fits { (D.sight door.old.door).nodes.fits_place place.now ≡ true }
    ensures { IsCleftOver ring.now device place.now acts (D.sight door.old.door) result (D.sight door.new.door) }
{
    door.begin(acts);
    cleave_next(alloc, door, ring, device, place)
}

/// Splits a container into shards of so many live names each, which are named by this time, through such a door.
pub fn create_over<D: ContainerDoor + FaithfulDoor + Drop>(
    alloc: Global,
    door: &mut Lossy<D>,
    ring: &Ring,
    device: u8,
    place: &Place,
    per_shard: u64,
    time: Timestamp,
    acts: Acts,
) -> Result<Outcome, NoMemory>
    requires device { device < (D.sight door.old.door).nodes.devices }
    requires ring { IsRingOf ring.now (D.sight door.old.door).nodes }
    requires fits { (D.sight door.old.door).nodes.fits_place place.now ≡ true }
    requires some { 1 ≤ per_shard }
    ensures { AreShardsCreatedOver ring.now device place.now per_shard time acts (D.sight door.old.door) result (D.sight door.new.door) }
{
    door.begin(acts);
    create_shards(alloc, door, ring, device, place, per_shard, time)
}
