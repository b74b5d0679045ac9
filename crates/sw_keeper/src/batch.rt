ghost use Rattle.std.specs.Prelude.{◌≡◌, true, IfOk, OnErr};
ghost use Rattle.sw_keeper.specs.Changes.{owns};

use std::alloc::Global;
use sw_outside::{NoMemory, Sequence, TryCopy};
use sw_rows::Row;
use sw_shard_range::Ranges;
use sw_timestamp::Timestamp;

/// One change of the tables of a container.
#[derive(Debug, Drop)]
pub enum Change {
    /// The container has these times. Where it wasn't held, it is from now on, with no rows.
    Times {
        put_time: Timestamp,
        delete_time: Option<Timestamp>,
    },
    /// The row stands behind all others under this number (ROWID), which is then the greatest given out.
    PutRow(Row, u64),
    /// The row of this number is gone.
    CutRow(u64),
    /// The container has these shard ranges.
    SetRanges(Ranges),
    /// So many ranges are closed.
    SetCursor(u32),
    /// The device of the shard of this range has all rows of the range up to this number.
    SetPoint {
        range: u32,
        device: u8,
        rowid: u64,
    },
    /// The device has all rows up to this number.
    SetSync {
        device: u8,
        rowid: u64,
    },
    /// All rows are gone. Numbers that were given out aren't used again.
    Empty,
}

impl Change {
    /// A change that is equal to this one, or [`NoMemory`], which comes only of one that puts a row or sets ranges.
    pub fn copy(&self, alloc: Global) -> Result<Change, NoMemory>
        ensures ok { IfOk result (λ copy. copy ≡ self.now) }
        ensures starved { OnErr result (owns self.now ≡ true) }
    {
        Ok(match self {
            Change::Times {
                put_time,
                delete_time,
            } => Change::Times {
                put_time: *put_time,
                delete_time: *delete_time,
            },
            Change::PutRow(row, rowid) => Change::PutRow(row.copy(alloc)?, *rowid),
            Change::CutRow(rowid) => Change::CutRow(*rowid),
            Change::SetRanges(ranges) => Change::SetRanges(ranges.copy(alloc)?),
            Change::SetCursor(cursor) => Change::SetCursor(*cursor),
            Change::SetPoint {
                range,
                device,
                rowid,
            } => Change::SetPoint {
                range: *range,
                device: *device,
                rowid: *rowid,
            },
            Change::SetSync { device, rowid } => Change::SetSync {
                device: *device,
                rowid: *rowid,
            },
            Change::Empty => Change::Empty,
        })
    }
}

impl TryCopy for Change {
    fn try_copy(&self, alloc: Global) -> Result<Change, NoMemory> {
        self.copy(alloc)
    }
}

/// Changes that are made together, in their order.
pub type Batch = Sequence<Change>;
