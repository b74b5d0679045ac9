ghost use Rattle.std.specs.Prelude.{◌≡◌, IfOk};

use std::alloc::Global;
use sw_hashpath::Place;
use sw_outside::{NoMemory, Sequence};
use sw_rows::Row;
use sw_shard_range::Ranges;
use sw_timestamp::Timestamp;

/// An entry of the journal of a container lock.
#[derive(Debug, Drop)]
pub enum ContEntry {
    /// The container has this put time.
    Created(Place, Timestamp),
    /// The container has this delete time.
    Removed(Place, Timestamp),
    /// This row was merged.
    Merged(Place, Row),
    /// The container has these shard ranges.
    Ranged(Place, Ranges),
    /// This device of the shard of this range has all rows of the range up to this number.
    Acked(Place, u32, u8, u64),
    /// This range is closed.
    Closed(Place, u32),
    /// The rows were taken away.
    Emptied(Place),
    /// The device has all rows up to this number.
    Synced(Place, u8, u64),
}

impl ContEntry {
    /// An equal entry, or [`NoMemory`].
    pub fn copy(&self, alloc: Global) -> Result<ContEntry, NoMemory>
        ensures { IfOk result (λ copy. copy ≡ self.now) }
    {
        Ok(match self {
            ContEntry::Created(place, time) => ContEntry::Created(place.copy(alloc)?, *time),
            ContEntry::Removed(place, time) => ContEntry::Removed(place.copy(alloc)?, *time),
            ContEntry::Merged(place, row) => ContEntry::Merged(
                place.copy(alloc)?,
                row.copy(alloc)?,
            ),
            ContEntry::Ranged(place, ranges) => ContEntry::Ranged(
                place.copy(alloc)?,
                ranges.copy(alloc)?,
            ),
            ContEntry::Acked(place, range, device, rowid) => ContEntry::Acked(
                place.copy(alloc)?,
                *range,
                *device,
                *rowid,
            ),
            ContEntry::Closed(place, range) => ContEntry::Closed(place.copy(alloc)?, *range),
            ContEntry::Emptied(place) => ContEntry::Emptied(place.copy(alloc)?),
            ContEntry::Synced(place, device, rowid) => ContEntry::Synced(
                place.copy(alloc)?,
                *device,
                *rowid,
            ),
        })
    }
}

/// Entries in order.
pub type ContEntryList = Sequence<ContEntry>;
