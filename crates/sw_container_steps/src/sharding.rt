ghost use Rattle.std.specs.Prelude.{◌≡◌, ◌≢◌, ℕ, [], IfOk, OnErr};
ghost use Rattle.sw_container_steps.specs.Reads.{HasRangeRows, HasSharding, range_parcel_of, range_rows, sharding_of};

use crate::cont_answer::ContAnswer;
use crate::presence::is_present;
use crate::serving::is_of_range;
use crate::syncing::Parcel;
use std::alloc::Global;
use sw_keeper::Tables;
use sw_outside::NoMemory;
use sw_shard_range::Ranges;
use sw_sync::Points;

/// How far a container is split into shards.
#[derive(Debug, Drop)]
pub struct Sharding {
    /// The shard ranges; none where the container isn't split.
    pub ranges: Option<Ranges>,
    /// How many ranges are closed: the first ones.
    pub cursor: u32,
    /// For each range and device of its shard, up to which number the device has all rows of the range.
    pub points: Points,
    /// Whether the rows were taken away.
    pub emptied: bool,
}

/// How far a container is split, or [`NoMemory`]. It is [`ContAnswer::Absent`] exactly where there is no container, and then takes no memory.
pub fn sharding_of(
    alloc: Global,
    tables: &Option<Tables>,
) -> Result<Result<Sharding, ContAnswer>, NoMemory>
    ensures ok { IfOk result (λ answer. (front : ℕ) → answer ≡ sharding_of tables.now front) }
    ensures starved { OnErr result (HasSharding tables.now) }
{
    if !is_present(tables) {
        return Ok(Err(ContAnswer::Absent));
    }
    match tables {
        Some(tables) => Ok(Ok(Sharding {
            ranges: copied(alloc, &tables.ranges)?,
            cursor: tables.cursor,
            points: tables.points.copy()?,
            emptied: tables.emptied,
        })),
        None => Ok(Err(ContAnswer::Absent)),
    }
}

fn copied(alloc: Global, ranges: &Option<Ranges>) -> Result<Option<Ranges>, NoMemory>
    ensures { IfOk result (λ copy. copy ≡ ranges.now) }
{
    match ranges {
        Some(ranges) => Ok(Some(ranges.copy(alloc)?)),
        None => Ok(None),
    }
}

/// The rows of a range above a number, in the order of their numbers, or [`NoMemory`]. It is [`ContAnswer::Absent`] exactly where there is no container,
/// and then [`ContAnswer::NoRanges`] exactly where it has no ranges. Memory is wanted only where there are such rows.
pub fn rows_above(
    alloc: Global,
    tables: &Option<Tables>,
    range: u32,
    point: u64,
) -> Result<Result<Parcel, ContAnswer>, NoMemory>
    ensures ok { IfOk result (λ answer. (front : ℕ) → answer ≡ range_parcel_of range point tables.now front) }
    ensures starved { OnErr result (HasRangeRows range point tables.now) }
{
    if !is_present(tables) {
        return Ok(Err(ContAnswer::Absent));
    }
    match tables {
        Some(tables) => match &tables.ranges {
            Some(ranges) => Ok(Ok(parcel_of(alloc, tables, ranges, range, point)?)),
            None => Ok(Err(ContAnswer::NoRanges)),
        },
        None => Ok(Err(ContAnswer::Absent)),
    }
}

/// The same of the rows of these tables, which have these ranges. Its time grows with the number of all rows; those of the range alone are copied.
fn parcel_of(
    alloc: Global,
    tables: &Tables,
    ranges: &Ranges,
    range: u32,
    point: u64,
) -> Result<Parcel, NoMemory>
    ensures ok { IfOk result (λ parcel. parcel ≡ record { rows = range_rows ranges.now range point tables.now; top = tables.now.rows.top }) }
    ensures starved { OnErr result (range_rows ranges.now range point tables.now ≢ []) }
{
    let mut rows = Vec::new(alloc);
    for (rowid, row) in tables.rows.iter() {
        if is_of_range(ranges, range, point, rowid, row) {
            rows.push(row.copy(alloc)?)?;
        }
    }
    Ok(Parcel {
        rows: rows.into(),
        top: tables.rows.top(),
    })
}
