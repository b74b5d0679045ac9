//! Names that are left to shards.

ghost use Rattle.std.specs.Prelude.{◌≡◌, ◌≢◌, None, Some, IfOk, OnErr};
ghost use Rattle.std.specs.Option.{option_copied};
ghost use Rattle.sw_container_steps.specs.Serving.{first_served, is_of_range, served, unserved, IsLeft};

use std::alloc::Global;
use sw_hashpath::Place;
use sw_keeper::Tables;
use sw_outside::NoMemory;
use sw_rows::{Row, Rows};
use sw_shard_range::Ranges;

/// The shard that a name is left to, where there is one.
pub(crate) fn served<'a>(tables: &'a Tables, name: &[u8]) -> Option<&'a Place>
    ensures { option_copied result ≡ served tables.now name.now }
{
    let Some(ranges) = &tables.ranges else {
        return None;
    };
    if tables.cursor == 0 {
        return None;
    }
    let index = ranges.range_of(name);
    if index < tables.cursor {
        Some(&ranges.as_slice()[index as usize].shard)
    } else {
        None
    }
}

/// Of rows, the first whose name is left to a shard tells which.
pub(crate) fn first_served<'a>(tables: &'a Tables, rows: &[Row]) -> Option<&'a Place>
    ensures { option_copied result ≡ first_served tables.now rows.now }
{
    for row in rows {
        if let Some(shard) = served(tables, row.name.as_slice()) {
            return Some(shard);
        }
    }
    None
}

/// Whether a row is one of the range, under a number above this one.
pub(crate) fn is_of_range(ranges: &Ranges, range: u32, point: u64, rowid: u64, row: &Row) -> bool
    ensures { result ≡ is_of_range ranges.now range point (record { rowid = rowid; row = row.now }) }
{
    rowid > point && ranges.range_of(row.name.as_slice()) == range
}

/// The rows whose names aren't left to shards, where any name is, or [`NoMemory`], which comes only there.
///
/// They are copied, so that its time grows with the number of rows.
pub(crate) fn unserved(alloc: Global, tables: &Tables) -> Result<Option<Rows>, NoMemory>
    ensures ok { IfOk result (λ rows. IsLeft tables.now rows) }
    ensures ranges { OnErr result (tables.now.ranges ≢ None) }
    ensures closed { OnErr result (tables.now.cursor ≢ 0) }
{
    if tables.ranges.is_none() || tables.cursor == 0 {
        return Ok(None);
    }
    Ok(Some(left_in(alloc, tables)?))
}

fn left_in(alloc: Global, tables: &Tables) -> Result<Rows, NoMemory>
    ensures { IfOk result (λ rows. rows ≡ record { list = unserved tables.now; top = tables.now.rows.top }) }
{
    let mut left = Rows::empty_at(alloc, tables.rows.top());
    for (rowid, row) in tables.rows.iter() {
        if served(tables, row.name.as_slice()).is_none() {
            left.restore(alloc, rowid, row.copy(alloc)?)?;
        }
    }
    Ok(left)
}
