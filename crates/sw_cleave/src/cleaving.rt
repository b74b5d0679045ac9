ghost use Rattle.std.specs.Prelude.{◌≡◌, ◌<◌, ◌≤◌, true, IfOk};
ghost use Rattle.std.specs.List.{All};
ghost use Rattle.sw_cleave.specs.Causes.{HasCauses};
ghost use Rattle.sw_cleave.specs.Cleaving.{IsCleave, IsParcelMoved, IsRangeMoved, IsRun, IsSplitNext};
ghost use Rattle.sw_cleave.specs.Counting.{ComesTo};
ghost use Rattle.sw_pass.specs.Outcomes.{nothing_yet};
ghost use Rattle.sw_pass.specs.Rings.{IsRingOf};

use crate::closing::{close, empty_out};
use crate::counting::{Came, keep};
use crate::offering::{Moving, offer_all};
use crate::shards::least_point;
use std::alloc::Global;
use sw_container_steps::{ContChange, DeviceList, Parcel, Sharding};
use sw_hashpath::Place;
use sw_outside::NoMemory;
use sw_pass::{Hindrance, Outcome, is_place, replicas_of};
use sw_peer::{ContainerDoor, Link};
use sw_ring::Ring;
use sw_shard_range::Range;
use sw_sync::Points;

/// Moves the rows of the first open range of a container to the shard, and closes the range, at this device; where no range is open, takes the rows away.
///
/// It is done where the range was closed, or the rows were taken away; `left` of the outcome counts the ranges that are open then, and is 1 where the
/// container's own first step, or taking the rows away, gave nothing. `later` is the number of a row that came while the rows were moved, and keeps the
/// range open. [`NoMemory`] comes where a call or a copy wanted memory, and no call follows.
pub fn cleave_next<D: ContainerDoor>(
    alloc: Global,
    door: &mut D,
    ring: &Ring,
    device: u8,
    place: &Place,
) -> Result<Outcome, NoMemory>
    requires device { device < (D.sight door.old).nodes.devices }
    requires ring { IsRingOf ring.now (D.sight door.old).nodes }
    requires fits { (D.sight door.old).nodes.fits_place place.now ≡ true }
    ensures cleaves { IsCleave ring.now device place.now (D.sight door.old) result (D.sight door.new) }
    ensures nodes { (D.sight door.new).nodes ≡ (D.sight door.old).nodes }
    ensures asks { (D.sight door.new).asks ≡ (D.sight door.old).asks }
    ensures causes { IfOk result (λ o. HasCauses (D.sight door.old) (D.sight door.new) o) }
{
    let mut outcome = Outcome::new();
    let came = run(alloc, door, ring, device, place, &mut outcome)?;
    Ok(outcome.end(came.done, came.left))
}

/// The calls of a pass.
fn run<D: ContainerDoor>(
    alloc: Global,
    door: &mut D,
    ring: &Ring,
    device: u8,
    place: &Place,
    outcome: &mut Outcome,
) -> Result<Came, NoMemory>
    requires device { device < (D.sight door.old).nodes.devices }
    requires ring { IsRingOf ring.now (D.sight door.old).nodes }
    requires fits { (D.sight door.old).nodes.fits_place place.now ≡ true }
    requires fresh { outcome.old ≡ nothing_yet }
    ensures cleaves { ComesTo (IsRun ring.now device place.now (D.sight door.old) (D.sight door.new) outcome.new) result }
    ensures nodes { (D.sight door.new).nodes ≡ (D.sight door.old).nodes }
    ensures asks { (D.sight door.new).asks ≡ (D.sight door.old).asks }
{
    let read = door.sharding(alloc, Link::Local, device, place);
    match read.unwrap() {
        Ok(sharding) => go_on(alloc, door, ring, device, place, sharding, outcome),
        Err(answer) => {
            keep(Hindrance::of_container_answer(&answer), outcome)?;
            Ok(Came::leaving(1))
        }
    }
}

/// Goes on by how far the container is split.
fn go_on<D: ContainerDoor>(
    alloc: Global,
    door: &mut D,
    ring: &Ring,
    device: u8,
    place: &Place,
    sharding: Sharding,
    outcome: &mut Outcome,
) -> Result<Came, NoMemory>
    requires device { device < (D.sight door.old).nodes.devices }
    requires ring { IsRingOf ring.now (D.sight door.old).nodes }
    requires fits { (D.sight door.old).nodes.fits_place place.now ≡ true }
    ensures cleaves { ComesTo (IsSplitNext ring.now device place.now sharding.ranges sharding.cursor sharding.points (D.sight door.old) outcome.old
        (D.sight door.new) outcome.new) result }
    ensures nodes { (D.sight door.new).nodes ≡ (D.sight door.old).nodes }
    ensures asks { (D.sight door.new).asks ≡ (D.sight door.old).asks }
{
    let Some(ranges) = &sharding.ranges else {
        keep(Some(Hindrance::Missing), outcome)?;
        return Ok(Came::leaving(1));
    };
    let cursor = sharding.cursor;
    match ranges.as_slice().get(cursor as usize) {
        Some(range) => {
            let open_ranges = u64::from(ranges.len() - cursor);
            move_range(
                alloc,
                door,
                ring,
                device,
                place,
                range,
                cursor,
                &sharding.points,
                open_ranges,
                outcome,
            )
        }
        None => empty_out(alloc, door, device, place, outcome),
    }
}

/// Moves a range with this index. So many are open.
fn move_range<D: ContainerDoor>(
    alloc: Global,
    door: &mut D,
    ring: &Ring,
    device: u8,
    place: &Place,
    range: &Range,
    index: u32,
    points: &Points,
    open_ranges: u64,
    outcome: &mut Outcome,
) -> Result<Came, NoMemory>
    requires device { device < (D.sight door.old).nodes.devices }
    requires ring { IsRingOf ring.now (D.sight door.old).nodes }
    requires fits { (D.sight door.old).nodes.fits_place place.now ≡ true }
    requires some { 1 ≤ open_ranges }
    ensures cleaves { ComesTo (IsRangeMoved ring.now device place.now range.now index points.now open_ranges (D.sight door.old) outcome.old
        (D.sight door.new) outcome.new) result }
    ensures nodes { (D.sight door.new).nodes ≡ (D.sight door.old).nodes }
    ensures asks { (D.sight door.new).asks ≡ (D.sight door.old).asks }
{
    if !is_place(&ring.secrets, &range.shard) {
        keep(Some(Hindrance::Failed), outcome)?;
        return Ok(Came::leaving(open_ranges));
    }
    let devices = replicas_of(alloc, ring, &range.shard)?;
    let above = least_point(points, index, devices.as_slice());
    let read = door.rows_above(alloc, Link::Local, device, place, index, above);
    match read.unwrap() {
        Ok(parcel) => {
            let moving = Moving {
                device,
                place,
                shard: &range.shard,
                range: index,
            };
            move_parcel(alloc, door, &moving, parcel, devices, open_ranges, outcome)
        }
        Err(answer) => {
            keep(Hindrance::of_container_answer(&answer), outcome)?;
            Ok(Came::leaving(open_ranges))
        }
    }
}

/// Sends the rows of a range to the devices of its shard, and closes it.
fn move_parcel<D: ContainerDoor>(
    alloc: Global,
    door: &mut D,
    moving: &Moving,
    parcel: Parcel,
    devices: DeviceList,
    open_ranges: u64,
    outcome: &mut Outcome,
) -> Result<Came, NoMemory>
    requires device { moving.now.device < (D.sight door.old).nodes.devices }
    requires devices { All (λ to. to < (D.sight door.old).nodes.devices) devices }
    requires fits { (D.sight door.old).nodes.fits_place moving.now.place.now ≡ true }
    requires fits_shard { (D.sight door.old).nodes.fits_place moving.now.shard.now ≡ true }
    requires some { 1 ≤ open_ranges }
    ensures cleaves { ComesTo (IsParcelMoved moving.now.device moving.now.place.now moving.now.shard.now moving.now.range devices open_ranges parcel
        (D.sight door.old) outcome.old (D.sight door.new) outcome.new) result }
    ensures nodes { (D.sight door.new).nodes ≡ (D.sight door.old).nodes }
    ensures asks { (D.sight door.new).asks ≡ (D.sight door.old).asks }
{
    let Parcel { rows, top } = parcel;
    let sent = ContChange::MergeRows { rows };
    offer_all(alloc, door, moving, &sent, top, devices.as_slice(), outcome)?;
    close(
        alloc,
        door,
        moving.device,
        moving.place,
        moving.range,
        devices,
        open_ranges,
        outcome,
    )
}
