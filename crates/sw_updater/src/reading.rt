ghost use Rattle.std.specs.Prelude.{◌≡◌, ◌<◌, ◌≤◌, ◌+◌, ◌^◌, List, Result};
ghost use Rattle.std.specs.List.{range_with_len};
ghost use Rattle.sw_object_steps.specs.declared.dir_fault.DirFault.{DirFault as ReadFault};
ghost use Rattle.sw_pending.specs.declared.filed.Filed.{Filed as FiledRecord};
ghost use Rattle.sw_updater.specs.Reading.{AreRead};
ghost use Rattle.sw_updater.specs.Tasks.{Gives};

use std::alloc::Global;
use sw_object_steps::DirFault;
use sw_outside::NoMemory;
use sw_peer::{ContainerDoor, Link, PendingDoor};
use sw_pending::Filed;

/// The records of so many stripes of the device, from one on.
///
/// A stripe's list is joined with the later ones once all were read, so that no call follows where memory is wanted for that.
pub(crate) fn read_stripes<D: PendingDoor + ContainerDoor>(
    alloc: Global,
    door: &mut D,
    device: u8,
    stripe: u8,
    count: u8,
) -> Result<Result<Vec<Filed>, DirFault>, NoMemory>
    requires device { device < (D.sight door.old).nodes.devices }
    requires stripes { stripe + count ≤ 2 ^ (D.sight door.old).nodes.lock_bits }
    requires few { stripe + count ≤ 16 }
    ensures reads { (got : Result (List FiledRecord) ReadFault)
        × AreRead device (range_with_len stripe count) (D.sight door.old) got (D.sight door.new) × Gives result got }
    ensures nodes { (D.sight door.new).nodes ≡ (D.sight door.old).nodes }
    ensures asks { (D.sight door.new).asks ≡ (D.sight door.old).asks }
{
    if count == 0 {
        return Ok(Ok(Vec::new(alloc)));
    }
    let read = door.records(alloc, Link::Local, device, stripe);
    let mut records = match read.unwrap() {
        Ok(records) => records,
        Err(fault) => return Ok(Err(fault)),
    };
    let mut more = match read_stripes(alloc, door, device, stripe + 1, count - 1)? {
        Ok(more) => more,
        Err(fault) => return Ok(Err(fault)),
    };
    records.append(&mut more)?;
    Ok(Ok(records))
}
