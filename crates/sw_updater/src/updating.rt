ghost use Rattle.std.specs.Prelude.{◌≡◌, ◌<◌, IfOk, List, Result};
ghost use Rattle.std.specs.List.{All};
ghost use Rattle.std.specs.Result.{is_ok};
ghost use Rattle.sw_object_steps.specs.declared.dir_fault.DirFault.{DirFault as ReadFault};
ghost use Rattle.sw_pass.specs.Outcomes.{nothing_yet};
ghost use Rattle.sw_pass.specs.Rings.{IsRingOf};
ghost use Rattle.sw_pass.specs.Turns.{InTurn};
ghost use Rattle.sw_peer.specs.Sights.{Sight};
ghost use Rattle.sw_pending.specs.Outcomes.{IsRecord};
ghost use Rattle.sw_pending.specs.declared.filed.Filed.{Filed as FiledRecord};
ghost use Rattle.sw_updater.specs.Causes.{HasCauses};
ghost use Rattle.sw_updater.specs.Reading.{AreAllRead, ArePending};
ghost use Rattle.sw_updater.specs.Updating.{IsGoneOver, IsUpdate, IsUpdated};

use crate::counting::hinder;
use crate::ordering::in_order;
use crate::reading::read_stripes;
use crate::settling::settle;
use crate::task::Task;
use std::alloc::Global;
use sw_object_steps::DirFault;
use sw_outside::NoMemory;
use sw_pass::{Hindrance, Outcome};
use sw_peer::{ContainerDoor, PendingDoor};
use sw_pending::Filed;
use sw_ring::Ring;

/// Goes over the records of a device, tells the containers what stands under their names, and drops each record that all were told of.
///
/// It is done where no record is left: `left` of the outcome counts those that were read and for which a device wasn't told or marked, or a call failed,
/// and is 1 where the records weren't read. [`NoMemory`] comes where a call or a copy wanted memory, and no call follows.
pub fn update<D: PendingDoor + ContainerDoor>(
    alloc: Global,
    door: &mut D,
    ring: &Ring,
    device: u8,
) -> Result<Outcome, NoMemory>
    requires device { device < (D.sight door.old).nodes.devices }
    requires ring { IsRingOf ring.now (D.sight door.old).nodes }
    ensures updates { IsUpdate ring.now device (D.sight door.old) result (D.sight door.new) }
    ensures nodes { (D.sight door.new).nodes ≡ (D.sight door.old).nodes }
    ensures asks { (D.sight door.new).asks ≡ (D.sight door.old).asks }
    ensures causes { IfOk result (λ o. HasCauses (D.sight door.old) (D.sight door.new) o) }
{
    let mut outcome = Outcome::new();
    run(alloc, door, ring, device, &mut outcome)?;
    Ok(outcome.finish())
}

/// All records of a device, in order of folder and name; or the first fault of a stripe, behind which none is read. [`NoMemory`] comes only where all
/// were read, and their lists couldn't be joined.
pub fn pending<D: PendingDoor + ContainerDoor>(
    alloc: Global,
    door: &mut D,
    ring: &Ring,
    device: u8,
) -> Result<Result<Vec<Filed>, DirFault>, NoMemory>
    requires device { device < (D.sight door.old).nodes.devices }
    requires ring { IsRingOf ring.now (D.sight door.old).nodes }
    ensures read { ArePending ring.now device (D.sight door.old) result (D.sight door.new) }
    ensures nodes { (D.sight door.new).nodes ≡ (D.sight door.old).nodes }
    ensures asks { (D.sight door.new).asks ≡ (D.sight door.old).asks }
{
    match read_stripes(alloc, door, device, 0, ring.stripes())? {
        Ok(records) => Ok(Ok(in_order(records))),
        Err(fault) => Ok(Err(fault)),
    }
}

/// The calls of an update.
fn run<D: PendingDoor + ContainerDoor>(
    alloc: Global,
    door: &mut D,
    ring: &Ring,
    device: u8,
    outcome: &mut Outcome,
) -> Result<(), NoMemory>
    requires device { device < (D.sight door.old).nodes.devices }
    requires ring { IsRingOf ring.now (D.sight door.old).nodes }
    requires fresh { outcome.old ≡ nothing_yet }
    ensures updates { (got : Result (List FiledRecord) ReadFault) × (mid : Sight)
        × AreAllRead ring.now device (D.sight door.old) got mid
        × IsGoneOver ring.now device got mid (D.sight door.new) outcome.new (is_ok result) }
    ensures nodes { (D.sight door.new).nodes ≡ (D.sight door.old).nodes }
    ensures asks { (D.sight door.new).asks ≡ (D.sight door.old).asks }
{
    match pending(alloc, door, ring, device)? {
        Ok(records) => update_each(alloc, door, ring, device, records, outcome),
        Err(fault) => hinder(Hindrance::of_fault(&fault), outcome),
    }
}

/// Goes over records in their order.
fn update_each<D: PendingDoor + ContainerDoor>(
    alloc: Global,
    door: &mut D,
    ring: &Ring,
    device: u8,
    records: Vec<Filed>,
    outcome: &mut Outcome,
) -> Result<(), NoMemory>
    requires device { device < (D.sight door.old).nodes.devices }
    requires ring { IsRingOf ring.now (D.sight door.old).nodes }
    requires records { All (IsRecord ring.now.secrets) records.items }
    ensures updates { InTurn (IsUpdated ring.now device) records.items (D.sight door.old) outcome.old (D.sight door.new) outcome.new (is_ok result) }
    ensures nodes { (D.sight door.new).nodes ≡ (D.sight door.old).nodes }
    ensures asks { (D.sight door.new).asks ≡ (D.sight door.old).asks }
{
    for filed in records {
        update_record(alloc, door, ring, device, filed, outcome)?;
    }
    Ok(())
}

/// Goes over a record.
fn update_record<D: PendingDoor + ContainerDoor>(
    alloc: Global,
    door: &mut D,
    ring: &Ring,
    device: u8,
    filed: Filed,
    outcome: &mut Outcome,
) -> Result<(), NoMemory>
    requires device { device < (D.sight door.old).nodes.devices }
    requires ring { IsRingOf ring.now (D.sight door.old).nodes }
    requires good { IsRecord ring.now.secrets filed }
    ensures updates { IsUpdated ring.now device filed (D.sight door.old) outcome.old (D.sight door.new) outcome.new (is_ok result) }
    ensures nodes { (D.sight door.new).nodes ≡ (D.sight door.old).nodes }
    ensures asks { (D.sight door.new).asks ≡ (D.sight door.old).asks }
{
    let task = Task::new(alloc, ring, device, filed)?;
    let mut missed = false;
    let settled = settle(alloc, door, ring, &task, &mut missed, outcome);
    outcome.leave_where(missed);
    settled
}
