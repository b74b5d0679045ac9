ghost use Rattle.std.specs.Prelude.{◌≡◌, ℕ, true, Ok, IfOk, OnErr};
ghost use Rattle.sw_container_steps.specs.Presence.{is_present as is_there};
ghost use Rattle.sw_container_steps.specs.Reads.{info_of, listing_of, split_of, times_of, HasClosed};
ghost use Rattle.sw_rows.specs.Sums.{bytes_of, count_of, hash_of};

use crate::cont_answer::ContAnswer;
use crate::info::{Info, SplitState};
use crate::presence::is_present;
use crate::serving::unserved;
use std::alloc::Global;
use sw_keeper::Tables;
use sw_listing::{Entries, Query};
use sw_outside::NoMemory;
use sw_rows::Rows;
use sw_timestamp::Timestamp;

/// The put time and the delete time of a container, also of a deleted one; none where it was never created.
pub fn times_of(tables: &Option<Tables>) -> Option<(Timestamp, Option<Timestamp>)>
    ensures { (front : ℕ) → Ok result ≡ times_of tables.now front }
{
    match tables {
        Some(tables) => Some((tables.put_time, tables.delete_time)),
        None => None,
    }
}

/// What is told of a container, with this front, or [`NoMemory`], which comes only where a range is closed. The error is [`ContAnswer::Absent`] exactly
/// where there is no container.
pub fn info_of(
    alloc: Global,
    tables: &Option<Tables>,
    front: u64,
) -> Result<Result<Info, ContAnswer>, NoMemory>
    ensures ok { IfOk result (λ answer. answer ≡ info_of tables.now front) }
    ensures starved { OnErr result (HasClosed tables.now) }
{
    if !is_present(tables) {
        return Ok(Err(ContAnswer::Absent));
    }
    match tables {
        Some(tables) => match unserved(alloc, tables)? {
            Some(rows) => Ok(Ok(info_over(tables, &rows, front))),
            None => Ok(Ok(info_over(tables, &tables.rows, front))),
        },
        None => Ok(Err(ContAnswer::Absent)),
    }
}

fn info_over(tables: &Tables, rows: &Rows, front: u64) -> Info
    ensures { result ≡ record {
      put_time = tables.now.put_time;
      count = count_of rows.now.list;
      bytes = bytes_of rows.now.list;
      hash = hash_of rows.now.list;
      split = split_of tables.now;
      front = front;
    } }
{
    Info {
        put_time: tables.put_time,
        count: rows.count(),
        bytes: rows.bytes(),
        hash: rows.hash(),
        split: split_of(tables),
        front,
    }
}

/// How far a container is split.
fn split_of(tables: &Tables) -> SplitState
    ensures { result ≡ split_of tables.now }
{
    if tables.ranges.is_none() {
        SplitState::Unsharded
    } else if tables.emptied {
        SplitState::Sharded
    } else {
        SplitState::Sharding
    }
}

/// The listing that answers a query, or [`NoMemory`]. It is [`ContAnswer::Absent`] exactly where there is no container, and then takes no memory.
pub fn list(
    alloc: Global,
    tables: &Option<Tables>,
    query: &Query,
) -> Result<Result<Entries, ContAnswer>, NoMemory>
    ensures ok { IfOk result (λ answer. (front : ℕ) → answer ≡ listing_of query.now tables.now front) }
    ensures starved { OnErr result (is_there tables.now ≡ true) }
{
    if !is_present(tables) {
        return Ok(Err(ContAnswer::Absent));
    }
    match tables {
        Some(tables) => match unserved(alloc, tables)? {
            Some(rows) => Ok(Ok(sw_listing::list(alloc, &rows, query)?)),
            None => Ok(Ok(sw_listing::list(alloc, &tables.rows, query)?)),
        },
        None => Ok(Err(ContAnswer::Absent)),
    }
}
