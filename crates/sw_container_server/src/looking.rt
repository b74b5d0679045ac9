ghost use Rattle.std.specs.Prelude.{◌≡◌, ◌<◌, true, Ok, IfOk, OnErr};
ghost use Rattle.sw_container_server.specs.Counting.{is_split as is_split_info, with_sums as with_sums_of};
ghost use Rattle.sw_container_server.specs.Serving.{AreCounted, IsInfoLeft, IsInfoServed, IsInformed, IsListed};
ghost use Rattle.sw_container_server.specs.Serving.{IsListingLeft, IsListingServed, IsShown, IsTold};
ghost use Rattle.sw_container_server.specs.Serving.{is_unshown as is_unshown_of};
ghost use Rattle.sw_sharded_listing.specs.Nodes.{AreNodesFor};

use crate::telling::{info_reply, listing_reply};
use std::alloc::Global;
use sw_container_steps::{ContAnswer, Info, SplitState};
use sw_hashpath::Place;
use sw_listing::{Entries, Query};
use sw_message::Response;
use sw_outside::NoMemory;
use sw_peer::{ContainerDoor, Link, Lost};
use sw_ring::Ring;
use sw_sharded_listing::{count_across, list_across};

/// Reads what is told of the container at the device, with the counts of its shards where it is split, and replies with it.
pub(crate) fn tell<D: ContainerDoor>(
    alloc: Global,
    door: &mut D,
    ring: &Ring,
    device: u8,
    place: &Place,
    replica: u8,
) -> Result<Response, NoMemory>
    requires device { device < (D.sight door.old).nodes.devices }
    requires nodes { AreNodesFor ring.now (D.sight door.old).nodes }
    requires fits { (D.sight door.old).nodes.fits_place place.now ≡ true }
    requires replica { replica < ring.now.replicas }
    ensures ok { IfOk result (IsInfoServed ring.now (D.sight door.old) (D.sight door.new) device place.now replica) }
    ensures err { OnErr result (IsInfoLeft ring.now (D.sight door.old) (D.sight door.new) device place.now replica) }
{
    let told = read_told(alloc, door, ring, device, place, replica);
    info_reply(alloc, told)
}

/// Reads what is told of the container at the device and then its listing, and replies with both: over its shards where it is split. Where nothing was told,
/// no listing is read. Memory that a listing over shards wants for itself is wanted for the reply.
pub(crate) fn list<D: ContainerDoor>(
    alloc: Global,
    door: &mut D,
    ring: &Ring,
    device: u8,
    place: &Place,
    query: &Query,
    replica: u8,
) -> Result<Response, NoMemory>
    requires device { device < (D.sight door.old).nodes.devices }
    requires nodes { AreNodesFor ring.now (D.sight door.old).nodes }
    requires fits { (D.sight door.old).nodes.fits_place place.now ≡ true }
    requires replica { replica < ring.now.replicas }
    ensures ok { IfOk result (IsListingServed ring.now (D.sight door.old) (D.sight door.new) device place.now query.now replica) }
    ensures err { OnErr result (IsListingLeft ring.now (D.sight door.old) (D.sight door.new) device place.now query.now replica) }
{
    match read_told(alloc, door, ring, device, place, replica) {
        Ok(info) => {
            let listed = read_shown(alloc, door, ring, device, place, query, replica, &info);
            if is_unshown(&info, &listed) {
                return Err(NoMemory);
            }
            listing_reply(alloc, query.json, &info, &listed)
        }
        Err(answer) => info_reply(alloc, Err(answer)),
    }
}

/// What is told of the container: of one that is split with the counts of its shards too.
fn read_told<D: ContainerDoor>(
    alloc: Global,
    door: &mut D,
    ring: &Ring,
    device: u8,
    place: &Place,
    replica: u8,
) -> Result<Info, ContAnswer>
    requires device { device < (D.sight door.old).nodes.devices }
    requires nodes { AreNodesFor ring.now (D.sight door.old).nodes }
    requires fits { (D.sight door.old).nodes.fits_place place.now ≡ true }
    requires replica { replica < ring.now.replicas }
    ensures told { IsTold ring.now device place.now replica (D.sight door.old) result (D.sight door.new) }
    ensures nodes { (D.sight door.new).nodes ≡ (D.sight door.old).nodes }
{
    match read_info(alloc, door, device, place) {
        Ok(info) => read_counts(alloc, door, ring, device, place, replica, info),
        Err(answer) => Err(answer),
    }
}

/// This that was told of the container, with the counts of its shards where it is split.
fn read_counts<D: ContainerDoor>(
    alloc: Global,
    door: &mut D,
    ring: &Ring,
    device: u8,
    place: &Place,
    replica: u8,
    info: Info,
) -> Result<Info, ContAnswer>
    requires device { device < (D.sight door.old).nodes.devices }
    requires nodes { AreNodesFor ring.now (D.sight door.old).nodes }
    requires fits { (D.sight door.old).nodes.fits_place place.now ≡ true }
    requires replica { replica < ring.now.replicas }
    ensures counted { AreCounted ring.now device place.now replica (Ok info) (D.sight door.old) result (D.sight door.new) }
    ensures nodes { (D.sight door.new).nodes ≡ (D.sight door.old).nodes }
{
    if !is_split(&info) {
        return Ok(info);
    }
    match count_across(alloc, door, ring, device, place, replica) {
        Ok(sums) => Ok(with_sums(info, sums)),
        Err(answer) => Err(answer),
    }
}

/// The listing of a container of which this was told: over its shards where it is split.
fn read_shown<D: ContainerDoor>(
    alloc: Global,
    door: &mut D,
    ring: &Ring,
    device: u8,
    place: &Place,
    query: &Query,
    replica: u8,
    info: &Info,
) -> Result<Entries, ContAnswer>
    requires device { device < (D.sight door.old).nodes.devices }
    requires nodes { AreNodesFor ring.now (D.sight door.old).nodes }
    requires fits { (D.sight door.old).nodes.fits_place place.now ≡ true }
    requires replica { replica < ring.now.replicas }
    ensures shown { IsShown ring.now device place.now replica query.now info.now (D.sight door.old) result (D.sight door.new) }
    ensures nodes { (D.sight door.new).nodes ≡ (D.sight door.old).nodes }
{
    if is_split(info) {
        list_across(alloc, door, ring, device, place, query, replica)
    } else {
        read_listing(alloc, door, device, place, query)
    }
}

/// Whether this listing of a container of which this was told isn't shown: over shards the want of memory may be its own.
fn is_unshown(info: &Info, listed: &Result<Entries, ContAnswer>) -> bool
    ensures { result ≡ is_unshown_of info.now listed.now }
{
    matches!(listed, Err(ContAnswer::NoMemory)) && is_split(info)
}

/// Whether a container of which this was told has ranges.
fn is_split(info: &Info) -> bool
    ensures { result ≡ is_split_info info.now }
{
    !matches!(info.split, SplitState::Unsharded)
}

/// The same, with these counts.
fn with_sums(info: Info, sums: (u64, u64)) -> Info
    ensures { result ≡ with_sums_of info sums }
{
    Info {
        count: sums.0,
        bytes: sums.1,
        ..info
    }
}

/// What is told of the container, read at the device itself.
fn read_info<D: ContainerDoor>(
    alloc: Global,
    door: &mut D,
    device: u8,
    place: &Place,
) -> Result<Info, ContAnswer>
    requires device { device < (D.sight door.old).nodes.devices }
    requires fits { (D.sight door.old).nodes.fits_place place.now ≡ true }
    ensures informed { IsInformed device place.now (D.sight door.old) result (D.sight door.new) }
    ensures nodes { (D.sight door.new).nodes ≡ (D.sight door.old).nodes }
{
    match door.info(alloc, Link::Local, device, place) {
        Ok(told) => told,
        Err(Lost) => unreachable!(),
    }
}

/// Its listing, read at the device itself.
fn read_listing<D: ContainerDoor>(
    alloc: Global,
    door: &mut D,
    device: u8,
    place: &Place,
    query: &Query,
) -> Result<Entries, ContAnswer>
    requires device { device < (D.sight door.old).nodes.devices }
    requires fits { (D.sight door.old).nodes.fits_place place.now ≡ true }
    ensures listed { IsListed device place.now query.now (D.sight door.old) result (D.sight door.new) }
    ensures nodes { (D.sight door.new).nodes ≡ (D.sight door.old).nodes }
{
    match door.list(alloc, Link::Local, device, place, query) {
        Ok(listed) => listed,
        Err(Lost) => unreachable!(),
    }
}
