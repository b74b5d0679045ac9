ghost use Rattle.std.specs.Prelude.{◌≡◌, ℕ, IfOk, OnErr};
ghost use Rattle.sw_container_steps.specs.Reads.{parcel_of, HasRowsFor};

use crate::cont_answer::ContAnswer;
use crate::cont_change::RowList;
use crate::presence::is_present;
use std::alloc::Global;
use sw_keeper::Tables;
use sw_outside::NoMemory;

/// Sync points are kept for a container as a whole: by the number of its first range.
pub(crate) const SYNC_RANGE: u32 = 0;

/// The rows that a replica isn't known to have, in the order of their numbers, and the greatest number given out as they were read.
#[derive(Debug, Drop)]
pub struct Parcel {
    pub rows: RowList,
    pub top: u64,
}

/// The rows above the sync point that is kept for a device, all where none is kept, or [`NoMemory`]. It is [`ContAnswer::Absent`] exactly where there
/// is no container. Memory is wanted only where there are such rows.
pub fn sync_rows(
    alloc: Global,
    tables: &Option<Tables>,
    device: u8,
) -> Result<Result<Parcel, ContAnswer>, NoMemory>
    ensures ok { IfOk result (λ answer. (front : ℕ) → answer ≡ parcel_of device tables.now front) }
    ensures starved { OnErr result (HasRowsFor device tables.now) }
{
    if !is_present(tables) {
        return Ok(Err(ContAnswer::Absent));
    }
    match tables {
        Some(tables) => {
            let point = tables.syncs.get(SYNC_RANGE, device).unwrap_or(0);
            Ok(Ok(Parcel {
                rows: tables.rows.above(alloc, point)?.into(),
                top: tables.rows.top(),
            }))
        }
        None => Ok(Err(ContAnswer::Absent)),
    }
}
