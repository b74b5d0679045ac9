ghost use Rattle.std.specs.Prelude.{◌≡◌, ◌≤◌, false, IfOk};
ghost use Rattle.std.specs.List.{list_any};
ghost use Rattle.sw_ring.specs.Faults.{has_unknown};

use crate::{DeviceList, NumberRow, RowTable};
use std::alloc::Global;
use sw_outside::NoMemory;

/// The table with its numbers as bytes, where each is below the number of devices.
pub(crate) fn narrow_table(
    alloc: Global,
    table: &[NumberRow],
    devices: usize,
) -> Result<RowTable, NoMemory>
    requires few { devices ≤ 256 }
    requires known { list_any (has_unknown devices) table.now ≡ false }
    ensures { IfOk result (λ narrow. narrow ≡ table.now) }
{
    let mut rows = Vec::with_capacity(alloc, table.len())?;
    for row in table {
        rows.push(narrow_row(alloc, row.as_slice(), devices)?)?;
    }
    Ok(RowTable::from(rows))
}

fn narrow_row(alloc: Global, row: &[u64], devices: usize) -> Result<DeviceList, NoMemory>
    requires few { devices ≤ 256 }
    requires known { has_unknown devices row.now ≡ false }
    ensures { IfOk result (λ narrow. narrow ≡ row.now) }
{
    let mut numbers = Vec::with_capacity(alloc, row.len())?;
    for device in row {
        numbers.push(*device as u8)?;
    }
    Ok(DeviceList::from(numbers))
}
