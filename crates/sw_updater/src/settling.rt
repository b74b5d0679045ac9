ghost use Rattle.std.specs.Prelude.{◌≡◌, ℕ, false, None, Ok};
ghost use Rattle.std.specs.Result.{is_ok};
ghost use Rattle.sw_pass.specs.Rings.{IsRingOf};
ghost use Rattle.sw_peer.specs.Sights.{Sight};
ghost use Rattle.sw_pending.specs.declared.filed.Filed.{Filed};
ghost use Rattle.sw_redirect.specs.Sending.{course};
ghost use Rattle.sw_updater.specs.Tasks.{IsFor, has_gone};
ghost use Rattle.sw_updater.specs.Updating.{IsAfterBase, IsAfterDrop, IsDropCounted, IsDropped, IsRowTold, IsSettled};

use crate::task::Task;
use crate::telling::tell_all;
use std::alloc::Global;
use sw_object_steps::{Answer, Change};
use sw_outside::NoMemory;
use sw_pass::{Hindrance, Outcome, miss};
use sw_peer::{ContainerDoor, Link, PendingDoor};
use sw_ring::Ring;
use sw_rows::Row;

/// Does for a record what has to be done: tells the row of what stands under its name, and drops it where it can be.
pub(crate) fn settle<D: PendingDoor + ContainerDoor>(
    alloc: Global,
    door: &mut D,
    ring: &Ring,
    task: &Task,
    missed: &mut bool,
    outcome: &mut Outcome,
) -> Result<(), NoMemory>
    requires ring { IsRingOf ring.now (D.sight door.old).nodes }
    requires can { IsFor (D.sight door.old).nodes task.now }
    requires fresh { missed.old ≡ false }
    ensures settles { IsSettled task.now.device task.now.filed ring.now task.now.place task.now.all (D.sight door.old) outcome.old
        (course (D.sight door.new) missed.new) outcome.new (is_ok result) }
    ensures nodes { (D.sight door.new).nodes ≡ (D.sight door.old).nodes }
    ensures asks { (D.sight door.new).asks ≡ (D.sight door.old).asks }
{
    let base = door.base_for(alloc, Link::Local, task.device, &task.filed);
    match base.unwrap() {
        Ok(Some(row)) => tell_row(alloc, door, ring, task, row, missed, outcome),
        Ok(None) => drop_unneeded(alloc, door, ring, task, missed, outcome),
        Err(fault) => miss(Hindrance::of_fault(&fault), missed, outcome),
    }
}

/// Drops a record under whose name nothing stands. Where it wasn't dropped it is gone, or an object came in between, so what stands is read once more.
fn drop_unneeded<D: PendingDoor + ContainerDoor>(
    alloc: Global,
    door: &mut D,
    ring: &Ring,
    task: &Task,
    missed: &mut bool,
    outcome: &mut Outcome,
) -> Result<(), NoMemory>
    requires ring { IsRingOf ring.now (D.sight door.old).nodes }
    requires can { IsFor (D.sight door.old).nodes task.now }
    ensures drops { IsAfterBase task.now.device task.now.filed ring.now task.now.place task.now.all (Ok None) (course (D.sight door.old) missed.old) outcome.old
        (course (D.sight door.new) missed.new) outcome.new (is_ok result) }
    ensures nodes { (D.sight door.new).nodes ≡ (D.sight door.old).nodes }
    ensures asks { (D.sight door.new).asks ≡ (D.sight door.old).asks }
{
    let went = drop_record(alloc, door, task, missed, outcome)?;
    if went || *missed {
        return Ok(());
    }
    read_again(alloc, door, ring, task, missed, outcome)
}

/// Reads once more what stands under the name of a record, and goes on with that.
fn read_again<D: PendingDoor + ContainerDoor>(
    alloc: Global,
    door: &mut D,
    ring: &Ring,
    task: &Task,
    missed: &mut bool,
    outcome: &mut Outcome,
) -> Result<(), NoMemory>
    requires ring { IsRingOf ring.now (D.sight door.old).nodes }
    requires can { IsFor (D.sight door.old).nodes task.now }
    ensures reads { IsAfterDrop task.now.device task.now.filed ring.now task.now.place task.now.all false false (course (D.sight door.old) missed.old)
        outcome.old (course (D.sight door.new) missed.new) outcome.new (is_ok result) }
    ensures nodes { (D.sight door.new).nodes ≡ (D.sight door.old).nodes }
    ensures asks { (D.sight door.new).asks ≡ (D.sight door.old).asks }
{
    let base = door.base_for(alloc, Link::Local, task.device, &task.filed);
    match base.unwrap() {
        Ok(Some(row)) => tell_row(alloc, door, ring, task, row, missed, outcome),
        Ok(None) => Ok(()),
        Err(fault) => miss(Hindrance::of_fault(&fault), missed, outcome),
    }
}

/// Tells a row to all devices that lack it, and then drops the record where it can be.
fn tell_row<D: PendingDoor + ContainerDoor>(
    alloc: Global,
    door: &mut D,
    ring: &Ring,
    task: &Task,
    row: Row,
    missed: &mut bool,
    outcome: &mut Outcome,
) -> Result<(), NoMemory>
    requires ring { IsRingOf ring.now (D.sight door.old).nodes }
    requires can { IsFor (D.sight door.old).nodes task.now }
    ensures tells { IsRowTold task.now.device task.now.filed ring.now task.now.place task.now.all row (course (D.sight door.old) missed.old) outcome.old
        (course (D.sight door.new) missed.new) outcome.new (is_ok result) }
    ensures nodes { (D.sight door.new).nodes ≡ (D.sight door.old).nodes }
    ensures asks { (D.sight door.new).asks ≡ (D.sight door.old).asks }
{
    tell_all(alloc, door, ring, task, row, missed, outcome)?;
    drop_record(alloc, door, task, missed, outcome)?;
    Ok(())
}

/// Drops a record where its lock lets it go, and answers whether it went.
fn drop_record<D: PendingDoor + ContainerDoor>(
    alloc: Global,
    door: &mut D,
    task: &Task,
    missed: &mut bool,
    outcome: &mut Outcome,
) -> Result<bool, NoMemory>
    requires can { IsFor (D.sight door.old).nodes task.now }
    ensures drops { IsDropped task.now.device task.now.filed task.now.all (course (D.sight door.old) missed.old) outcome.old
        (course (D.sight door.new) missed.new) outcome.new (has_gone result) (is_ok result) }
    ensures nodes { (D.sight door.new).nodes ≡ (D.sight door.old).nodes }
    ensures asks { (D.sight door.new).asks ≡ (D.sight door.old).asks }
{
    let change = Change::DropRecord {
        filed: task.filed.copy(alloc)?,
        all: task.all.copy(alloc)?,
    };
    let answer = door.change(alloc, Link::Local, task.device, &task.filed.name, change);
    count_drop(&answer.unwrap(), missed, outcome)
}

/// Counts what a drop was answered, and answers whether the record went.
fn count_drop(answer: &Answer, missed: &mut bool, outcome: &mut Outcome) -> Result<bool, NoMemory>
    ensures { (device : ℕ) (filed : Filed) (s : Sight) → IsDropCounted device filed answer.now s missed.old outcome.old
        (course s missed.new) outcome.new (has_gone result) (is_ok result) }
{
    match answer {
        Answer::Took(went) => Ok(*went),
        _ => {
            miss(Hindrance::of_answer(answer), missed, outcome)?;
            Ok(false)
        }
    }
}
