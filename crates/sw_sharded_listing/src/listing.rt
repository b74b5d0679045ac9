ghost use Rattle.std.specs.Prelude.{◌≡◌, ◌<◌, true, Ok};
ghost use Rattle.sw_sharded_listing.specs.Across.{IsListedAcross, IsListedNext};
ghost use Rattle.sw_sharded_listing.specs.Nodes.{AreNodesFor};

use crate::asking::list_parts;
use crate::parts::Split;
use crate::serving::{are_places, has_own, served_of};
use std::alloc::Global;
use sw_container_steps::{ContAnswer, Sharding};
use sw_hashpath::Place;
use sw_listing::{Entries, Query};
use sw_peer::{ContainerDoor, Link};
use sw_ring::Ring;

/// The listing that answers a query of a container at a device, over the shards that its names are left to.
///
/// The container is asked how far it is split, at the device itself. Then each shard that names are left to is asked, at the device of number `replica`
/// among those that keep it, and the container itself at the device, where it has other names, for what the query still asks for: in the direction of the
/// query. Each is asked once, also behind the limit. The first that gives nothing ends it with its answer: [`ContAnswer::Absent`] where the container or
/// one of the shards is. [`ContAnswer::Failed`] comes also where names are left to a place that the ring doesn't know, and then none is asked.
/// [`ContAnswer::NoMemory`] comes only where memory is taken.
pub fn list_across<D: ContainerDoor>(
    alloc: Global,
    door: &mut D,
    ring: &Ring,
    device: u8,
    place: &Place,
    query: &Query,
    replica: u8,
) -> Result<Entries, ContAnswer>
    requires device { device < (D.sight door.old).nodes.devices }
    requires nodes { AreNodesFor ring.now (D.sight door.old).nodes }
    requires fits { (D.sight door.old).nodes.fits_place place.now ≡ true }
    requires replica { replica < ring.now.replicas }
    ensures lists { IsListedAcross ring.now device place.now query.now replica (D.sight door.old) result (D.sight door.new) }
    ensures nodes { (D.sight door.new).nodes ≡ (D.sight door.old).nodes }
    ensures asks { (D.sight door.new).asks ≡ (D.sight door.old).asks }
{
    let read = door.sharding(alloc, Link::Local, device, place);
    match read.unwrap() {
        Ok(sharding) => list_over(alloc, door, ring, device, place, &sharding, query, replica),
        Err(answer) => Err(answer),
    }
}

/// The same, where the container has told how far it is split.
fn list_over<D: ContainerDoor>(
    alloc: Global,
    door: &mut D,
    ring: &Ring,
    device: u8,
    place: &Place,
    sharding: &Sharding,
    query: &Query,
    replica: u8,
) -> Result<Entries, ContAnswer>
    requires device { device < (D.sight door.old).nodes.devices }
    requires nodes { AreNodesFor ring.now (D.sight door.old).nodes }
    requires fits { (D.sight door.old).nodes.fits_place place.now ≡ true }
    requires replica { replica < ring.now.replicas }
    ensures lists { IsListedNext ring.now device place.now query.now replica (Ok sharding.now) (D.sight door.old) result (D.sight door.new) }
    ensures nodes { (D.sight door.new).nodes ≡ (D.sight door.old).nodes }
    ensures asks { (D.sight door.new).asks ≡ (D.sight door.old).asks }
{
    let served = served_of(sharding);
    if !are_places(&ring.secrets, served) {
        return Err(ContAnswer::Failed);
    }
    let split = Split {
        ring,
        device,
        place,
        replica,
        backwards: query.reverse,
        served,
        own: has_own(sharding),
    };
    list_parts(alloc, door, &split, query)
}
