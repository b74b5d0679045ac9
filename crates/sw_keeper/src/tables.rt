ghost use Rattle.std.specs.Prelude.{◌≡◌, IfOk};

use std::alloc::Global;
use sw_outside::NoMemory;
use sw_rows::Rows;
use sw_shard_range::Ranges;
use sw_sync::Points;
use sw_timestamp::Timestamp;

/// What a container at a device stands for.
#[derive(Debug, Drop)]
pub struct Tables {
    /// The time of the latest creation.
    pub put_time: Timestamp,
    /// The time of the latest deletion, where there was one.
    pub delete_time: Option<Timestamp>,
    pub rows: Rows,
    /// The shard ranges, where the container is split or is being split.
    pub ranges: Option<Ranges>,
    /// How many ranges are closed: the first ones. Their names are left to their shards.
    pub cursor: u32,
    /// For each range and device of its shard that rows were sent to, up to which number it has all rows of the range.
    pub points: Points,
    /// For each replica that rows were sent to, up to which number it has them all. They are kept for the first range, 0.
    pub syncs: Points,
    /// Whether the rows were taken away, all ranges being closed.
    pub emptied: bool,
}

impl Tables {
    /// Tables that are equal to these, or [`NoMemory`].
    pub fn copy(&self, alloc: Global) -> Result<Tables, NoMemory>
        ensures { IfOk result (λ copy. copy ≡ self.now) }
    {
        Ok(Tables {
            put_time: self.put_time,
            delete_time: self.delete_time,
            rows: self.rows.copy(alloc)?,
            ranges: copy_of(alloc, &self.ranges)?,
            cursor: self.cursor,
            points: self.points.copy()?,
            syncs: self.syncs.copy()?,
            emptied: self.emptied,
        })
    }
}

/// Ranges that are equal to these, where there are any, or [`NoMemory`].
pub(crate) fn copy_of(alloc: Global, ranges: &Option<Ranges>) -> Result<Option<Ranges>, NoMemory>
    ensures { IfOk result (λ copy. copy ≡ ranges.now) }
{
    match ranges {
        Some(ranges) => Ok(Some(ranges.copy(alloc)?)),
        None => Ok(None),
    }
}
