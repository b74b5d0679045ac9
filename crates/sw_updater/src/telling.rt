ghost use Rattle.std.specs.Prelude.{◌≡◌, ℕ, ◌<◌};
ghost use Rattle.std.specs.Result.{is_ok};
ghost use Rattle.sw_container_steps.specs.declared.cont_change.ContChange.TheVariants.{MergeRow};
ghost use Rattle.sw_pass.specs.Rings.{IsRingOf};
ghost use Rattle.sw_pass.specs.Turns.{InTurn};
ghost use Rattle.sw_peer.specs.Sights.{Sight};
ghost use Rattle.sw_pending.specs.declared.filed.Filed.{Filed as FiledRecord};
ghost use Rattle.sw_redirect.specs.Sending.{course};
ghost use Rattle.sw_rows.specs.declared.row.Row.{Row as ToldRow};
ghost use Rattle.sw_updater.specs.Tasks.{IsFor};
ghost use Rattle.sw_updater.specs.Updating.{IsFollowed, IsHeard, IsMarkCounted, IsMarked, IsTold, to_tell};

use crate::task::Task;
use std::alloc::Global;
use sw_container_steps::{ContAnswer, ContChange};
use sw_hashpath::Place;
use sw_object_steps::{Answer, Change};
use sw_outside::NoMemory;
use sw_pass::{Hindrance, Outcome, miss};
use sw_peer::{ContainerDoor, Link, Lost, PendingDoor};
use sw_redirect::{Heard, send_on};
use sw_ring::Ring;
use sw_rows::Row;

/// Tells a row to the devices of the container that aren't marked, in their order. The message is made once.
pub(crate) fn tell_all<D: PendingDoor + ContainerDoor>(
    alloc: Global,
    door: &mut D,
    ring: &Ring,
    task: &Task,
    row: Row,
    missed: &mut bool,
    outcome: &mut Outcome,
) -> Result<(), NoMemory>
    requires ring { IsRingOf ring.now (D.sight door.old).nodes }
    requires can { IsFor (D.sight door.old).nodes task.now }
    ensures tells { InTurn (IsTold task.now.device task.now.filed ring.now task.now.place row) (to_tell task.now.filed.done task.now.all)
        (course (D.sight door.old) missed.old) outcome.old (course (D.sight door.new) missed.new) outcome.new (is_ok result) }
    ensures nodes { (D.sight door.new).nodes ≡ (D.sight door.old).nodes }
    ensures asks { (D.sight door.new).asks ≡ (D.sight door.old).asks }
{
    let change = ContChange::MergeRow { row };
    for to in task.all.as_slice() {
        if task.filed.is_done(*to) {
            continue;
        }
        tell(alloc, door, ring, task, &change, *to, missed, outcome)?;
    }
    Ok(())
}

/// Tells a row to a device.
fn tell<D: PendingDoor + ContainerDoor>(
    alloc: Global,
    door: &mut D,
    ring: &Ring,
    task: &Task,
    change: &ContChange,
    to: u8,
    missed: &mut bool,
    outcome: &mut Outcome,
) -> Result<(), NoMemory>
    requires ring { IsRingOf ring.now (D.sight door.old).nodes }
    requires can { IsFor (D.sight door.old).nodes task.now }
    requires to { to < (D.sight door.old).nodes.devices }
    ensures tells { (row : ToldRow) → change.now ≡ MergeRow row → IsTold task.now.device task.now.filed ring.now task.now.place row to
        (course (D.sight door.old) missed.old) outcome.old (course (D.sight door.new) missed.new) outcome.new (is_ok result) }
    ensures nodes { (D.sight door.new).nodes ≡ (D.sight door.old).nodes }
    ensures asks { (D.sight door.new).asks ≡ (D.sight door.old).asks }
{
    outcome.count_sent();
    let answer = door.change_container(alloc, Link::Sent, to, &task.place, change);
    hear(alloc, door, ring, task, change, to, answer, missed, outcome)
}

/// Goes on with what a device answered: only one that acknowledged the row, or left it to a shard, is marked.
fn hear<D: PendingDoor + ContainerDoor>(
    alloc: Global,
    door: &mut D,
    ring: &Ring,
    task: &Task,
    change: &ContChange,
    to: u8,
    answer: Result<ContAnswer, Lost>,
    missed: &mut bool,
    outcome: &mut Outcome,
) -> Result<(), NoMemory>
    requires ring { IsRingOf ring.now (D.sight door.old).nodes }
    requires can { IsFor (D.sight door.old).nodes task.now }
    ensures hears { (row : ToldRow) → change.now ≡ MergeRow row → IsHeard task.now.device task.now.filed ring.now task.now.place row to answer
        (course (D.sight door.old) missed.old) outcome.old (course (D.sight door.new) missed.new) outcome.new (is_ok result) }
    ensures nodes { (D.sight door.new).nodes ≡ (D.sight door.old).nodes }
    ensures asks { (D.sight door.new).asks ≡ (D.sight door.old).asks }
{
    match answer {
        Ok(answer) => match Heard::of(&task.place, answer) {
            Heard::Acknowledged => mark(alloc, door, task, to, missed, outcome),
            Heard::Redirected(shard) => {
                follow(alloc, door, ring, task, &shard, change, to, missed, outcome)
            }
            Heard::Refused(hindrance) => miss(hindrance, missed, outcome),
        },
        Err(Lost) => {
            *missed = true;
            outcome.miss();
            Ok(())
        }
    }
}

/// Sends a row on to the shard that a device left it to. The device is marked once each replica of the shard acknowledged the row.
fn follow<D: PendingDoor + ContainerDoor>(
    alloc: Global,
    door: &mut D,
    ring: &Ring,
    task: &Task,
    shard: &Place,
    change: &ContChange,
    to: u8,
    missed: &mut bool,
    outcome: &mut Outcome,
) -> Result<(), NoMemory>
    requires ring { IsRingOf ring.now (D.sight door.old).nodes }
    requires can { IsFor (D.sight door.old).nodes task.now }
    ensures follows { (row : ToldRow) → change.now ≡ MergeRow row → IsFollowed task.now.device task.now.filed ring.now row to shard.now
        (course (D.sight door.old) missed.old) outcome.old (course (D.sight door.new) missed.new) outcome.new (is_ok result) }
    ensures nodes { (D.sight door.new).nodes ≡ (D.sight door.old).nodes }
    ensures asks { (D.sight door.new).asks ≡ (D.sight door.old).asks }
{
    let mut missed_on = false;
    send_on(alloc, door, ring, shard, change, &mut missed_on, outcome)?;
    if missed_on {
        *missed = true;
        return Ok(());
    }
    mark(alloc, door, task, to, missed, outcome)
}

/// Marks a device as told at the record.
fn mark<D: PendingDoor + ContainerDoor>(
    alloc: Global,
    door: &mut D,
    task: &Task,
    to: u8,
    missed: &mut bool,
    outcome: &mut Outcome,
) -> Result<(), NoMemory>
    requires can { IsFor (D.sight door.old).nodes task.now }
    ensures marks { IsMarked task.now.device task.now.filed to (course (D.sight door.old) missed.old) outcome.old
        (course (D.sight door.new) missed.new) outcome.new (is_ok result) }
    ensures nodes { (D.sight door.new).nodes ≡ (D.sight door.old).nodes }
    ensures asks { (D.sight door.new).asks ≡ (D.sight door.old).asks }
{
    let change = Change::MarkRecord {
        filed: task.filed.copy(alloc)?,
        device: to,
    };
    let answer = door.change(alloc, Link::Local, task.device, &task.filed.name, change);
    count_mark(&answer.unwrap(), missed, outcome)
}

/// Counts what a mark was answered. A record that isn't there any more needs none.
fn count_mark(answer: &Answer, missed: &mut bool, outcome: &mut Outcome) -> Result<(), NoMemory>
    ensures { (device : ℕ) (filed : FiledRecord) (s : Sight) → IsMarkCounted device filed answer.now s missed.old outcome.old
        (course s missed.new) outcome.new (is_ok result) }
{
    match answer {
        Answer::Took(_) => Ok(()),
        _ => miss(Hindrance::of_answer(answer), missed, outcome),
    }
}
