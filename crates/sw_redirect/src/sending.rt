ghost use Rattle.std.specs.Prelude.{◌≡◌, ◌<◌, false, true};
ghost use Rattle.std.specs.Result.{is_ok};
ghost use Rattle.sw_container_steps.specs.declared.cont_change.ContChange.TheVariants.{MergeRow};
ghost use Rattle.sw_pass.specs.Rings.{IsRingOf};
ghost use Rattle.sw_peer.specs.Sights.{Sight};
ghost use Rattle.sw_redirect.specs.Sending.{IsAnswered, IsSentOn, IsSentTo, course};
ghost use Rattle.sw_rows.specs.declared.row.Row.{Row};

use std::alloc::Global;
use sw_container_steps::{ContAnswer, ContChange};
use sw_hashpath::Place;
use sw_outside::NoMemory;
use sw_pass::{Hindrance, Outcome, devices_of, is_acknowledged, is_place, miss};
use sw_peer::{ContainerDoor, Link, Lost};
use sw_ring::Ring;

/// Sends a row, which `change` merges, to each replica of a shard in the ring's order, whatever those before it answered.
///
/// `missed`, which is false before, tells whether one of them wasn't heard to have it: where it refused the row, or its answer was lost. A shard that
/// the nodes don't know is missed, and nothing is sent. [`NoMemory`] comes where a call wanted memory, and none follows.
pub fn send_on<D: ContainerDoor>(
    alloc: Global,
    door: &mut D,
    ring: &Ring,
    shard: &Place,
    change: &ContChange,
    missed: &mut bool,
    outcome: &mut Outcome,
) -> Result<(), NoMemory>
    requires ring { IsRingOf ring.now (D.sight door.old).nodes }
    requires fresh { missed.old ≡ false }
    ensures sends { (row : Row) → change.now ≡ MergeRow row → IsSentOn ring.now shard.now row (D.sight door.old) outcome.old
        (course (D.sight door.new) missed.new) outcome.new (is_ok result) }
    ensures nodes { (D.sight door.new).nodes ≡ (D.sight door.old).nodes }
    ensures asks { (D.sight door.new).asks ≡ (D.sight door.old).asks }
{
    if !is_place(&ring.secrets, shard) {
        return miss(Some(Hindrance::Failed), missed, outcome);
    }
    for to in devices_of(ring, shard) {
        send(alloc, door, shard, change, *to, missed, outcome)?;
    }
    Ok(())
}

/// Sends the row to a replica of the shard.
fn send<D: ContainerDoor>(
    alloc: Global,
    door: &mut D,
    shard: &Place,
    change: &ContChange,
    to: u8,
    missed: &mut bool,
    outcome: &mut Outcome,
) -> Result<(), NoMemory>
    requires to { to < (D.sight door.old).nodes.devices }
    requires fits { (D.sight door.old).nodes.fits_place shard.now ≡ true }
    ensures sends { (row : Row) → change.now ≡ MergeRow row → IsSentTo shard.now row to (course (D.sight door.old) missed.old) outcome.old
        (course (D.sight door.new) missed.new) outcome.new (is_ok result) }
    ensures nodes { (D.sight door.new).nodes ≡ (D.sight door.old).nodes }
    ensures asks { (D.sight door.new).asks ≡ (D.sight door.old).asks }
{
    outcome.count_sent();
    let answer = door.change_container(alloc, Link::Sent, to, shard, change);
    count(answer, missed, outcome)
}

/// Counts what a replica of the shard answered.
fn count(
    answer: Result<ContAnswer, Lost>,
    missed: &mut bool,
    outcome: &mut Outcome,
) -> Result<(), NoMemory>
    ensures { (s : Sight) → IsAnswered answer s missed.old outcome.old (course s missed.new) outcome.new (is_ok result) }
{
    match answer {
        Ok(answer) => {
            if is_acknowledged(&answer) {
                Ok(())
            } else {
                miss(Hindrance::of_container_answer(&answer), missed, outcome)
            }
        }
        Err(Lost) => {
            *missed = true;
            outcome.miss();
            Ok(())
        }
    }
}
