ghost use Rattle.std.specs.Prelude.{◌≡◌, ◌≢◌, ◌<◌, true, IfOk};
ghost use Rattle.std.specs.Result.{is_ok};
ghost use Rattle.sw_cont_replicator.specs.Causes.{HasCauses};
ghost use Rattle.sw_cont_replicator.specs.Pushing.{IsParcelSent, IsPointKept, IsPush, IsReached, IsRowHeard, IsRowLeft, IsRowSent, IsRun, point_told};
ghost use Rattle.sw_container_steps.specs.declared.cont_change.ContChange.TheVariants.{MergeRow};
ghost use Rattle.sw_pass.specs.Outcomes.{nothing_yet};
ghost use Rattle.sw_pass.specs.Rings.{IsRingOf};
ghost use Rattle.sw_pass.specs.Turns.{InTurn};
ghost use Rattle.sw_peer.specs.ContSights.{ContMoves};
ghost use Rattle.sw_rows.specs.declared.row.Row.{Row as SentRow};

use crate::counting::{count_point, hinder};
use std::alloc::Global;
use sw_container_steps::{ContAnswer, ContChange, Parcel, RowList};
use sw_hashpath::Place;
use sw_outside::NoMemory;
use sw_pass::{Hindrance, Outcome};
use sw_peer::{ContainerDoor, Link, Lost};
use sw_redirect::{Heard, send_on};
use sw_ring::Ring;
use sw_rows::Row;

/// Pushes the rows of a container that the device `to` isn't known to have from the device `from`. The devices differ.
///
/// It is done where the sender's own read and the point that it keeps were answered, and the receiver acknowledged each row, or left it to a shard each
/// replica of which acknowledged it; `left` of the outcome counts the other rows, and is 1 where the sender's rows weren't read. [`NoMemory`] comes
/// where a call wanted memory, and none follows.
pub fn push_rows<D: ContainerDoor>(
    alloc: Global,
    door: &mut D,
    ring: &Ring,
    from: u8,
    to: u8,
    place: &Place,
) -> Result<Outcome, NoMemory>
    requires ring { IsRingOf ring.now (D.sight door.old).nodes }
    requires from { from < (D.sight door.old).nodes.devices }
    requires to { to < (D.sight door.old).nodes.devices }
    requires apart { from ≢ to }
    requires fits { (D.sight door.old).nodes.fits_place place.now ≡ true }
    ensures pushes { IsPush from to place.now ring.now (D.sight door.old) result (D.sight door.new) }
    ensures moves { ContMoves (IsReached ring.now from to place.now) (D.sight door.old) (D.sight door.new) }
    ensures asks { (D.sight door.new).asks ≡ (D.sight door.old).asks }
    ensures causes { IfOk result (λ o. HasCauses (D.sight door.old) (D.sight door.new) o) }
{
    let mut outcome = Outcome::new();
    let kept = run(alloc, door, ring, from, to, place, &mut outcome)?;
    Ok(outcome.finish_where(kept))
}

/// The calls of a push. It answers whether the point is kept.
fn run<D: ContainerDoor>(
    alloc: Global,
    door: &mut D,
    ring: &Ring,
    from: u8,
    to: u8,
    place: &Place,
    outcome: &mut Outcome,
) -> Result<bool, NoMemory>
    requires ring { IsRingOf ring.now (D.sight door.old).nodes }
    requires from { from < (D.sight door.old).nodes.devices }
    requires to { to < (D.sight door.old).nodes.devices }
    requires fits { (D.sight door.old).nodes.fits_place place.now ≡ true }
    requires fresh { outcome.old ≡ nothing_yet }
    ensures pushes { IsRun from to place.now ring.now (D.sight door.old) (D.sight door.new) outcome.new (point_told result) (is_ok result) }
    ensures asks { (D.sight door.new).asks ≡ (D.sight door.old).asks }
{
    let read = door.sync_rows(alloc, Link::Local, from, place, to);
    match read.unwrap() {
        Ok(parcel) => send_parcel(alloc, door, ring, from, to, place, parcel, outcome),
        Err(answer) => {
            hinder(Hindrance::of_container_answer(&answer), outcome)?;
            Ok(false)
        }
    }
}

/// Sends the rows of a parcel, and keeps its greatest number as the point where all were acknowledged.
fn send_parcel<D: ContainerDoor>(
    alloc: Global,
    door: &mut D,
    ring: &Ring,
    from: u8,
    to: u8,
    place: &Place,
    parcel: Parcel,
    outcome: &mut Outcome,
) -> Result<bool, NoMemory>
    requires ring { IsRingOf ring.now (D.sight door.old).nodes }
    requires from { from < (D.sight door.old).nodes.devices }
    requires to { to < (D.sight door.old).nodes.devices }
    requires fits { (D.sight door.old).nodes.fits_place place.now ≡ true }
    ensures pushes { IsParcelSent from to place.now ring.now parcel (D.sight door.old) outcome.old (D.sight door.new) outcome.new (point_told result)
        (is_ok result) }
    ensures asks { (D.sight door.new).asks ≡ (D.sight door.old).asks }
{
    let Parcel { rows, top } = parcel;
    send_rows(alloc, door, ring, to, place, rows, outcome)?;
    keep_point(alloc, door, from, to, place, top, outcome)
}

/// Sends rows in their order.
fn send_rows<D: ContainerDoor>(
    alloc: Global,
    door: &mut D,
    ring: &Ring,
    to: u8,
    place: &Place,
    rows: RowList,
    outcome: &mut Outcome,
) -> Result<(), NoMemory>
    requires ring { IsRingOf ring.now (D.sight door.old).nodes }
    requires to { to < (D.sight door.old).nodes.devices }
    requires fits { (D.sight door.old).nodes.fits_place place.now ≡ true }
    ensures pushes { InTurn (IsRowSent ring.now to place.now) rows (D.sight door.old) outcome.old (D.sight door.new) outcome.new (is_ok result) }
    ensures nodes { (D.sight door.new).nodes ≡ (D.sight door.old).nodes }
    ensures asks { (D.sight door.new).asks ≡ (D.sight door.old).asks }
{
    let rows: Vec<Row> = rows.into();
    for row in rows {
        send_row(alloc, door, ring, to, place, row, outcome)?;
    }
    Ok(())
}

/// Sends a row.
fn send_row<D: ContainerDoor>(
    alloc: Global,
    door: &mut D,
    ring: &Ring,
    to: u8,
    place: &Place,
    row: Row,
    outcome: &mut Outcome,
) -> Result<(), NoMemory>
    requires ring { IsRingOf ring.now (D.sight door.old).nodes }
    requires to { to < (D.sight door.old).nodes.devices }
    requires fits { (D.sight door.old).nodes.fits_place place.now ≡ true }
    ensures pushes { IsRowSent ring.now to place.now row (D.sight door.old) outcome.old (D.sight door.new) outcome.new (is_ok result) }
    ensures nodes { (D.sight door.new).nodes ≡ (D.sight door.old).nodes }
    ensures asks { (D.sight door.new).asks ≡ (D.sight door.old).asks }
{
    outcome.count_sent();
    let change = ContChange::MergeRow { row };
    let answer = door.change_container(alloc, Link::Sent, to, place, &change);
    hear(alloc, door, ring, place, &change, answer, outcome)
}

/// Goes on with what the receiver answered to a row.
fn hear<D: ContainerDoor>(
    alloc: Global,
    door: &mut D,
    ring: &Ring,
    place: &Place,
    change: &ContChange,
    answer: Result<ContAnswer, Lost>,
    outcome: &mut Outcome,
) -> Result<(), NoMemory>
    requires ring { IsRingOf ring.now (D.sight door.old).nodes }
    ensures hears { (row : SentRow) → change.now ≡ MergeRow row → IsRowHeard ring.now place.now row answer (D.sight door.old) outcome.old (D.sight door.new)
        outcome.new (is_ok result) }
    ensures nodes { (D.sight door.new).nodes ≡ (D.sight door.old).nodes }
    ensures asks { (D.sight door.new).asks ≡ (D.sight door.old).asks }
{
    match answer {
        Ok(answer) => match Heard::of(place, answer) {
            Heard::Acknowledged => Ok(()),
            Heard::Redirected(shard) => leave_to(alloc, door, ring, &shard, change, outcome),
            Heard::Refused(hindrance) => hinder(hindrance, outcome),
        },
        Err(Lost) => {
            outcome.lose();
            Ok(())
        }
    }
}

/// Sends a row on to the shard that the receiver left it to. It is left where one of the shard's replicas wasn't heard to have it.
fn leave_to<D: ContainerDoor>(
    alloc: Global,
    door: &mut D,
    ring: &Ring,
    shard: &Place,
    change: &ContChange,
    outcome: &mut Outcome,
) -> Result<(), NoMemory>
    requires ring { IsRingOf ring.now (D.sight door.old).nodes }
    ensures leaves { (row : SentRow) → change.now ≡ MergeRow row → IsRowLeft ring.now row shard.now (D.sight door.old) outcome.old (D.sight door.new)
        outcome.new (is_ok result) }
    ensures nodes { (D.sight door.new).nodes ≡ (D.sight door.old).nodes }
    ensures asks { (D.sight door.new).asks ≡ (D.sight door.old).asks }
{
    let mut missed = false;
    send_on(alloc, door, ring, shard, change, &mut missed, outcome)?;
    outcome.leave_where(missed);
    Ok(())
}

/// Keeps at the sender that the receiver has all rows up to a number, where no row is left, and answers whether it did.
fn keep_point<D: ContainerDoor>(
    alloc: Global,
    door: &mut D,
    from: u8,
    to: u8,
    place: &Place,
    top: u64,
    outcome: &mut Outcome,
) -> Result<bool, NoMemory>
    requires from { from < (D.sight door.old).nodes.devices }
    requires fits { (D.sight door.old).nodes.fits_place place.now ≡ true }
    ensures pushes { IsPointKept from to place.now top (D.sight door.old) outcome.old (D.sight door.new) outcome.new (point_told result) (is_ok result) }
    ensures asks { (D.sight door.new).asks ≡ (D.sight door.old).asks }
{
    if outcome.left != 0 {
        return Ok(false);
    }
    let change = ContChange::SetSync {
        device: to,
        rowid: top,
    };
    let answer = door.change_container(alloc, Link::Local, from, place, &change);
    count_point(&answer.unwrap(), outcome)
}
