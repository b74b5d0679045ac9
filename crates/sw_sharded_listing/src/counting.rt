ghost use Rattle.std.specs.Prelude.{◌≡◌, ◌<◌, true, Ok};
ghost use Rattle.sw_sharded_listing.specs.Counts.{AreCounted, IsCountedAcross, IsCountedNext, IsSiteAdded, sites_of, with_info};
ghost use Rattle.sw_sharded_listing.specs.Nodes.{AreNodesFor};
ghost use Rattle.sw_sharded_listing.specs.Parts.{are_places};

use crate::serving::{are_places, replica_at, served_of};
use std::alloc::Global;
use sw_container_steps::{ContAnswer, Info, Sharding};
use sw_hashpath::Place;
use sw_peer::{ContainerDoor, Link};
use sw_ring::Ring;
use sw_shard_range::Range;

/// How many rows of a container at a device are live, and how many bytes their objects have together, over the shards that its names are left to. Each sum
/// stands still at 2^64 - 1.
///
/// The container is asked how far it is split, at the device itself, and then what it tells of its other rows; then each shard that names are left to is
/// asked, in the order of its names, at the device of number `replica` among those that keep it. The first that gives nothing ends it with its answer:
/// [`ContAnswer::Absent`] where the container or one of the shards is. [`ContAnswer::Failed`] comes also where names are left to a place that the ring
/// doesn't know, and then none is asked.
pub fn count_across<D: ContainerDoor>(
    alloc: Global,
    door: &mut D,
    ring: &Ring,
    device: u8,
    place: &Place,
    replica: u8,
) -> Result<(u64, u64), ContAnswer>
    requires device { device < (D.sight door.old).nodes.devices }
    requires nodes { AreNodesFor ring.now (D.sight door.old).nodes }
    requires fits { (D.sight door.old).nodes.fits_place place.now ≡ true }
    requires replica { replica < ring.now.replicas }
    ensures counts { IsCountedAcross ring.now device place.now replica (D.sight door.old) result (D.sight door.new) }
    ensures nodes { (D.sight door.new).nodes ≡ (D.sight door.old).nodes }
    ensures asks { (D.sight door.new).asks ≡ (D.sight door.old).asks }
{
    let read = door.sharding(alloc, Link::Local, device, place);
    match read.unwrap() {
        Ok(sharding) => count_over(alloc, door, ring, device, place, &sharding, replica),
        Err(answer) => Err(answer),
    }
}

/// The same, where the container has told how far it is split.
fn count_over<D: ContainerDoor>(
    alloc: Global,
    door: &mut D,
    ring: &Ring,
    device: u8,
    place: &Place,
    sharding: &Sharding,
    replica: u8,
) -> Result<(u64, u64), ContAnswer>
    requires device { device < (D.sight door.old).nodes.devices }
    requires nodes { AreNodesFor ring.now (D.sight door.old).nodes }
    requires fits { (D.sight door.old).nodes.fits_place place.now ≡ true }
    requires replica { replica < ring.now.replicas }
    ensures counts { IsCountedNext ring.now device place.now replica (Ok sharding.now) (D.sight door.old) result (D.sight door.new) }
    ensures nodes { (D.sight door.new).nodes ≡ (D.sight door.old).nodes }
    ensures asks { (D.sight door.new).asks ≡ (D.sight door.old).asks }
{
    let served = served_of(sharding);
    if !are_places(&ring.secrets, served) {
        return Err(ContAnswer::Failed);
    }
    count_all(alloc, door, ring, device, place, served, replica)
}

/// What the container tells of its rows, and each shard of these ranges in turn, together.
fn count_all<D: ContainerDoor>(
    alloc: Global,
    door: &mut D,
    ring: &Ring,
    device: u8,
    place: &Place,
    served: &[Range],
    replica: u8,
) -> Result<(u64, u64), ContAnswer>
    requires device { device < (D.sight door.old).nodes.devices }
    requires nodes { AreNodesFor ring.now (D.sight door.old).nodes }
    requires fits { (D.sight door.old).nodes.fits_place place.now ≡ true }
    requires replica { replica < ring.now.replicas }
    requires placed { are_places ring.now.secrets served.now ≡ true }
    ensures counts { AreCounted (sites_of ring.now device place.now replica served.now) (0, 0) (D.sight door.old) result (D.sight door.new) }
    ensures nodes { (D.sight door.new).nodes ≡ (D.sight door.old).nodes }
    ensures asks { (D.sight door.new).asks ≡ (D.sight door.old).asks }
{
    let mut sums = match count_at(alloc, door, device, place, (0, 0)) {
        Ok(sums) => sums,
        Err(answer) => return Err(answer),
    };
    for range in served {
        let at = replica_at(ring, replica, &range.shard);
        sums = match count_at(alloc, door, at, &range.shard, sums) {
            Ok(sums) => sums,
            Err(answer) => return Err(answer),
        };
    }
    Ok(sums)
}

/// These sums, with what a container at a device tells of its rows.
fn count_at<D: ContainerDoor>(
    alloc: Global,
    door: &mut D,
    device: u8,
    place: &Place,
    sums: (u64, u64),
) -> Result<(u64, u64), ContAnswer>
    requires device { device < (D.sight door.old).nodes.devices }
    requires fits { (D.sight door.old).nodes.fits_place place.now ≡ true }
    ensures adds { IsSiteAdded device place.now sums (D.sight door.old) result (D.sight door.new) }
    ensures nodes { (D.sight door.new).nodes ≡ (D.sight door.old).nodes }
    ensures asks { (D.sight door.new).asks ≡ (D.sight door.old).asks }
{
    let told = door.info(alloc, Link::Local, device, place);
    match told.unwrap() {
        Ok(info) => Ok(with_info(sums, &info)),
        Err(answer) => Err(answer),
    }
}

/// These sums, with a container's own.
fn with_info(sums: (u64, u64), info: &Info) -> (u64, u64)
    ensures { result ≡ with_info sums info.now }
{
    (
        sums.0.saturating_add(info.count),
        sums.1.saturating_add(info.bytes),
    )
}
