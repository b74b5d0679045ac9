ghost use Rattle.std.specs.Prelude.{◌≡◌, ◌<◌, ◌≤◌, true, suc, length, fold, IfOk};
ghost use Rattle.std.specs.List.{All};
ghost use Rattle.std.specs.Result.{is_ok};
ghost use Rattle.sw_cleave.specs.Causes.{HasCauses};
ghost use Rattle.sw_cleave.specs.Counting.{ComesTo};
ghost use Rattle.sw_cleave.specs.Creating.{AreCreated, IsCreate, IsCreated, IsCreatedAt, IsCreationHeard, IsFound, IsListGiven, IsListHeard};
ghost use Rattle.sw_cleave.specs.Creating.{IsListSent, IsListSet, IsRun, IsSplit};
ghost use Rattle.sw_cleave.specs.Creating.{has_list as has_list_by, made_told, others};
ghost use Rattle.sw_hashpath.specs.Places.{IsPlace};
ghost use Rattle.sw_pass.specs.Outcomes.{nothing_yet};
ghost use Rattle.sw_pass.specs.Rings.{IsRingOf};
ghost use Rattle.sw_rows.specs.Rows.{merged, no_rows};

use crate::counting::{Came, hinder, keep};
use crate::cutting::cut;
use std::alloc::Global;
use sw_container_steps::{ContAnswer, ContChange, Parcel, Sharding};
use sw_hashpath::Place;
use sw_outside::NoMemory;
use sw_pass::{Hindrance, Outcome, devices_of, is_acknowledged};
use sw_peer::{ContainerDoor, Link, Lost};
use sw_ring::Ring;
use sw_rows::{Row, Rows};
use sw_shard_range::{Ranges, find};
use sw_timestamp::Timestamp;

/// Splits a container into shards of so many live names each, the last of no more: creates each shard at all its devices, and sets the list of ranges at
/// this device and at all other replicas. Where the container has a list at this device, that one is sent to the others, and no shard is created.
///
/// It is done where each replica acknowledged a list, or has one; `left` of the outcome counts those that didn't, this one among them, and is 1 where the
/// container's own first reads gave nothing. A shard that isn't created ends the pass before any list is set. [`NoMemory`] comes where a call or a copy
/// wanted memory, and no call follows.
pub fn create_shards<D: ContainerDoor>(
    alloc: Global,
    door: &mut D,
    ring: &Ring,
    device: u8,
    place: &Place,
    per_shard: u64,
    time: Timestamp,
) -> Result<Outcome, NoMemory>
    requires device { device < (D.sight door.old).nodes.devices }
    requires ring { IsRingOf ring.now (D.sight door.old).nodes }
    requires fits { (D.sight door.old).nodes.fits_place place.now ≡ true }
    requires some { 1 ≤ per_shard }
    ensures creates { IsCreate ring.now device place.now per_shard time (D.sight door.old) result (D.sight door.new) }
    ensures nodes { (D.sight door.new).nodes ≡ (D.sight door.old).nodes }
    ensures asks { (D.sight door.new).asks ≡ (D.sight door.old).asks }
    ensures causes { IfOk result (λ o. HasCauses (D.sight door.old) (D.sight door.new) o) }
{
    let mut outcome = Outcome::new();
    let came = run(
        alloc,
        door,
        ring,
        device,
        place,
        per_shard,
        time,
        &mut outcome,
    )?;
    Ok(outcome.end(came.done, came.left))
}

/// The calls of a pass.
fn run<D: ContainerDoor>(
    alloc: Global,
    door: &mut D,
    ring: &Ring,
    device: u8,
    place: &Place,
    per_shard: u64,
    time: Timestamp,
    outcome: &mut Outcome,
) -> Result<Came, NoMemory>
    requires device { device < (D.sight door.old).nodes.devices }
    requires ring { IsRingOf ring.now (D.sight door.old).nodes }
    requires fits { (D.sight door.old).nodes.fits_place place.now ≡ true }
    requires some { 1 ≤ per_shard }
    requires fresh { outcome.old ≡ nothing_yet }
    ensures creates { ComesTo (IsRun ring.now device place.now per_shard time (D.sight door.old) (D.sight door.new) outcome.new) result }
    ensures nodes { (D.sight door.new).nodes ≡ (D.sight door.old).nodes }
    ensures asks { (D.sight door.new).asks ≡ (D.sight door.old).asks }
{
    let read = door.sharding(alloc, Link::Local, device, place);
    match read.unwrap() {
        Ok(sharding) => {
            let Sharding { ranges, .. } = sharding;
            match ranges {
                Some(ranges) => {
                    let list = ContChange::SetRanges { ranges };
                    give_list(alloc, door, ring, device, place, &list, outcome)
                }
                None => find_ranges(alloc, door, ring, device, place, per_shard, time, outcome),
            }
        }
        Err(answer) => {
            keep(Hindrance::of_container_answer(&answer), outcome)?;
            Ok(Came::leaving(1))
        }
    }
}

/// Finds the ranges among the rows of the container, and goes on with them.
fn find_ranges<D: ContainerDoor>(
    alloc: Global,
    door: &mut D,
    ring: &Ring,
    device: u8,
    place: &Place,
    per_shard: u64,
    time: Timestamp,
    outcome: &mut Outcome,
) -> Result<Came, NoMemory>
    requires device { device < (D.sight door.old).nodes.devices }
    requires ring { IsRingOf ring.now (D.sight door.old).nodes }
    requires fits { (D.sight door.old).nodes.fits_place place.now ≡ true }
    requires some { 1 ≤ per_shard }
    ensures creates { ComesTo (IsFound ring.now device place.now per_shard time (D.sight door.old) outcome.old (D.sight door.new) outcome.new) result }
    ensures nodes { (D.sight door.new).nodes ≡ (D.sight door.old).nodes }
    ensures asks { (D.sight door.new).asks ≡ (D.sight door.old).asks }
{
    let read = door.sync_rows(alloc, Link::Local, device, place, device);
    match read.unwrap() {
        Ok(parcel) => {
            let rows = rows_of(alloc, parcel)?;
            let bounds = find(alloc, &rows, per_shard)?;
            match cut(alloc, &ring.secrets, place, time, &bounds)? {
                Some(ranges) => split(alloc, door, ring, device, place, time, ranges, outcome),
                None => {
                    keep(Some(Hindrance::Failed), outcome)?;
                    Ok(Came::leaving(1))
                }
            }
        }
        Err(answer) => {
            keep(Hindrance::of_container_answer(&answer), outcome)?;
            Ok(Came::leaving(1))
        }
    }
}

/// The rows of a parcel as a table, or [`NoMemory`].
fn rows_of(alloc: Global, parcel: Parcel) -> Result<Rows, NoMemory>
    ensures { IfOk result (λ rows. rows ≡ fold merged no_rows parcel.rows) }
{
    let list: Vec<Row> = parcel.rows.into();
    let mut rows = Rows::empty(alloc);
    for row in list {
        rows.merge(alloc, row)?;
    }
    Ok(rows)
}

/// Creates the shards of these ranges, and sets the list.
fn split<D: ContainerDoor>(
    alloc: Global,
    door: &mut D,
    ring: &Ring,
    device: u8,
    place: &Place,
    time: Timestamp,
    ranges: Ranges,
    outcome: &mut Outcome,
) -> Result<Came, NoMemory>
    requires device { device < (D.sight door.old).nodes.devices }
    requires ring { IsRingOf ring.now (D.sight door.old).nodes }
    requires fits { (D.sight door.old).nodes.fits_place place.now ≡ true }
    requires shards { All (λ r. IsPlace ring.now.secrets r.shard) ranges }
    ensures creates { ComesTo (IsSplit ring.now device place.now time ranges (D.sight door.old) outcome.old (D.sight door.new) outcome.new) result }
    ensures nodes { (D.sight door.new).nodes ≡ (D.sight door.old).nodes }
    ensures asks { (D.sight door.new).asks ≡ (D.sight door.old).asks }
{
    if !create_all(alloc, door, ring, time, &ranges, outcome)? {
        return Ok(Came::leaving(replicas(ring, device, place)));
    }
    let list = ContChange::SetRanges { ranges };
    set_list(alloc, door, ring, device, place, &list, outcome)
}

/// How many replicas a container has: this device and all others that keep it.
fn replicas(ring: &Ring, device: u8, place: &Place) -> u64
    ensures { result ≡ suc (length (others ring.now device place.now)) }
{
    let mut count = 1;
    for other in devices_of(ring, place) {
        if *other != device {
            count += 1;
        }
    }
    count
}

/// Creates the shards of ranges in their order, each at all its devices, up to the first that isn't created, and answers whether all are.
fn create_all<D: ContainerDoor>(
    alloc: Global,
    door: &mut D,
    ring: &Ring,
    time: Timestamp,
    ranges: &Ranges,
    outcome: &mut Outcome,
) -> Result<bool, NoMemory>
    requires ring { IsRingOf ring.now (D.sight door.old).nodes }
    requires shards { All (λ r. IsPlace ring.now.secrets r.shard) ranges.now }
    ensures creates { AreCreated time ring.now ranges.now (D.sight door.old) outcome.old (D.sight door.new) outcome.new (made_told result) (is_ok result) }
    ensures nodes { (D.sight door.new).nodes ≡ (D.sight door.old).nodes }
    ensures asks { (D.sight door.new).asks ≡ (D.sight door.old).asks }
{
    for range in ranges.as_slice() {
        if !create_at(
            alloc,
            door,
            time,
            &range.shard,
            devices_of(ring, &range.shard),
            outcome,
        )? {
            return Ok(false);
        }
    }
    Ok(true)
}

/// Creates a shard at devices in their order, up to the first at which it isn't created, and answers whether it is at all.
fn create_at<D: ContainerDoor>(
    alloc: Global,
    door: &mut D,
    time: Timestamp,
    shard: &Place,
    devices: &[u8],
    outcome: &mut Outcome,
) -> Result<bool, NoMemory>
    requires devices { All (λ to. to < (D.sight door.old).nodes.devices) devices.now }
    requires fits { (D.sight door.old).nodes.fits_place shard.now ≡ true }
    ensures creates { IsCreatedAt time shard.now devices.now (D.sight door.old) outcome.old (D.sight door.new) outcome.new (made_told result) (is_ok result) }
    ensures nodes { (D.sight door.new).nodes ≡ (D.sight door.old).nodes }
    ensures asks { (D.sight door.new).asks ≡ (D.sight door.old).asks }
{
    for to in devices {
        if !create(alloc, door, time, shard, *to, outcome)? {
            return Ok(false);
        }
    }
    Ok(true)
}

/// Creates a shard at a device, and answers whether it is there.
fn create<D: ContainerDoor>(
    alloc: Global,
    door: &mut D,
    time: Timestamp,
    shard: &Place,
    to: u8,
    outcome: &mut Outcome,
) -> Result<bool, NoMemory>
    requires to { to < (D.sight door.old).nodes.devices }
    requires fits { (D.sight door.old).nodes.fits_place shard.now ≡ true }
    ensures creates { IsCreated time shard.now to (D.sight door.old) outcome.old (D.sight door.new) outcome.new (made_told result) (is_ok result) }
    ensures nodes { (D.sight door.new).nodes ≡ (D.sight door.old).nodes }
    ensures asks { (D.sight door.new).asks ≡ (D.sight door.old).asks }
{
    outcome.count_sent();
    let answer = door.change_container(alloc, Link::Sent, to, shard, &ContChange::Create { time });
    count_creation(answer, outcome)
}

/// Counts what the creation of a shard was answered, and answers whether it is there.
fn count_creation(answer: Result<ContAnswer, Lost>, outcome: &mut Outcome) -> Result<bool, NoMemory>
    ensures { IsCreationHeard answer outcome.old outcome.new (made_told result) (is_ok result) }
{
    match answer {
        Ok(answer) => {
            if is_acknowledged(&answer) {
                return Ok(true);
            }
            keep(Hindrance::of_container_answer(&answer), outcome)?;
            Ok(false)
        }
        Err(Lost) => {
            outcome.miss();
            Ok(false)
        }
    }
}

/// Sets the list at the container itself, and gives it to the other replicas.
fn set_list<D: ContainerDoor>(
    alloc: Global,
    door: &mut D,
    ring: &Ring,
    device: u8,
    place: &Place,
    list: &ContChange,
    outcome: &mut Outcome,
) -> Result<Came, NoMemory>
    requires device { device < (D.sight door.old).nodes.devices }
    requires ring { IsRingOf ring.now (D.sight door.old).nodes }
    requires fits { (D.sight door.old).nodes.fits_place place.now ≡ true }
    ensures sets { ComesTo (IsListSet ring.now device place.now list.now (D.sight door.old) outcome.old (D.sight door.new) outcome.new) result }
    ensures nodes { (D.sight door.new).nodes ≡ (D.sight door.old).nodes }
    ensures asks { (D.sight door.new).asks ≡ (D.sight door.old).asks }
{
    let answer = door
        .change_container(alloc, Link::Local, device, place, list)
        .unwrap();
    if is_acknowledged(&answer) {
        return give_list(alloc, door, ring, device, place, list, outcome);
    }
    keep(Hindrance::of_container_answer(&answer), outcome)?;
    Ok(Came::leaving(replicas(ring, device, place)))
}

/// Gives the list to all other replicas in their order.
fn give_list<D: ContainerDoor>(
    alloc: Global,
    door: &mut D,
    ring: &Ring,
    device: u8,
    place: &Place,
    list: &ContChange,
    outcome: &mut Outcome,
) -> Result<Came, NoMemory>
    requires ring { IsRingOf ring.now (D.sight door.old).nodes }
    requires fits { (D.sight door.old).nodes.fits_place place.now ≡ true }
    ensures gives { ComesTo (IsListGiven ring.now device place.now list.now (D.sight door.old) outcome.old (D.sight door.new) outcome.new) result }
    ensures nodes { (D.sight door.new).nodes ≡ (D.sight door.old).nodes }
    ensures asks { (D.sight door.new).asks ≡ (D.sight door.old).asks }
{
    for to in devices_of(ring, place) {
        if *to == device {
            continue;
        }
        send_list(alloc, door, *to, place, list, outcome)?;
    }
    Ok(Came {
        done: outcome.left == 0,
        left: outcome.left,
    })
}

/// Sends the list to a replica.
fn send_list<D: ContainerDoor>(
    alloc: Global,
    door: &mut D,
    to: u8,
    place: &Place,
    list: &ContChange,
    outcome: &mut Outcome,
) -> Result<(), NoMemory>
    requires to { to < (D.sight door.old).nodes.devices }
    requires fits { (D.sight door.old).nodes.fits_place place.now ≡ true }
    ensures sends { IsListSent place.now list.now to (D.sight door.old) outcome.old (D.sight door.new) outcome.new (is_ok result) }
    ensures nodes { (D.sight door.new).nodes ≡ (D.sight door.old).nodes }
    ensures asks { (D.sight door.new).asks ≡ (D.sight door.old).asks }
{
    outcome.count_sent();
    let answer = door.change_container(alloc, Link::Sent, to, place, list);
    count_list(answer, outcome)
}

/// Counts what a replica answered to the list: one that has a list acknowledges it too.
fn count_list(answer: Result<ContAnswer, Lost>, outcome: &mut Outcome) -> Result<(), NoMemory>
    ensures { IsListHeard answer outcome.old outcome.new (is_ok result) }
{
    match answer {
        Ok(answer) => {
            if has_list(&answer) {
                Ok(())
            } else {
                hinder(Hindrance::of_container_answer(&answer), outcome)
            }
        }
        Err(Lost) => {
            outcome.lose();
            Ok(())
        }
    }
}

/// Whether a replica has a list of ranges behind this answer.
fn has_list(answer: &ContAnswer) -> bool
    ensures { result ≡ has_list_by answer.now }
{
    is_acknowledged(answer) || matches!(answer, ContAnswer::HasRanges)
}
