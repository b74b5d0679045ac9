ghost use Rattle.std.specs.Prelude.{◌≡◌, ◌⊎◌, ◌<◌, ◌≤◌, [], pos, map, true, unwrap_or, IfOk, IfSome};
ghost use Rattle.sqlite_value.specs.declared.value.Value.TheVariants as value;
ghost use Rattle.sqlite_value.specs.Order.{column};
ghost use Rattle.sw_container_store.specs.Telling.{AreWhole, TellsPoints, TellsRanges, TellsSharding, TellsSplit};
ghost use Rattle.sw_container_store.specs.Values.{point_values, range_rows, range_values, sharding_values};

use crate::database::{Damage, Database};
use crate::reading::{digest, flag, number};
use crate::statements::Query;
use sqlite::Row;
use sqlite::types::ValueRef;
use std::alloc::Global;
use sw_hashpath::Place;
use sw_outside::{Bytes, NoMemory, StoreError};
use sw_shard_range::{Range, Ranges, is_hidden};
use sw_sync::Points;

/// How far a container is split.
#[derive(Debug, Drop)]
pub(crate) struct Split {
    pub(crate) ranges: Option<Ranges>,
    pub(crate) cursor: u32,
    pub(crate) points: Points,
    pub(crate) emptied: bool,
}

/// How many ranges are closed, whether the rows were taken away, and how many ranges and points of them there are.
#[derive(Clone, Copy, Debug)]
pub(crate) struct Sharding {
    pub(crate) cursor: u32,
    pub(crate) emptied: bool,
    pub(crate) ranges: u64,
    pub(crate) points: u64,
}

/// How far the container is split that a database is. Where there are no ranges and no points this is one query.
pub(crate) fn split_in<D: Database>(alloc: Global, database: &mut D) -> Result<Split, StoreError>
    ensures told { IfOk result (λ split. TellsSplit D.shows database.old database.new split) }
    ensures key { D.key database.new ≡ D.key database.old }
{
    let sharding = sharding_in(database)?;
    let ranges = ranges_in(alloc, database, sharding.ranges)?;
    let points = points_in(alloc, database, sharding.points)?;
    if !are_whole(&ranges, sharding.cursor, sharding.emptied) {
        return Err(database.refuse(Damage::Row));
    }
    Ok(Split {
        ranges,
        cursor: sharding.cursor,
        points,
        emptied: sharding.emptied,
    })
}

/// Whether no more ranges are closed than there are, and all of them where the rows were taken away.
fn are_whole(ranges: &Option<Ranges>, cursor: u32, emptied: bool) -> bool
    ensures { result ≡ true → AreWhole (unwrap_or ranges.now []) cursor emptied }
{
    let count = match ranges {
        Some(ranges) => ranges.len(),
        None => 0,
    };
    if emptied {
        cursor == count
    } else {
        cursor <= count
    }
}

fn sharding_in<D: Database>(database: &mut D) -> Result<Sharding, StoreError>
    ensures told { IfOk result (λ sharding. TellsSharding D.shows database.old database.new sharding) }
    ensures key { D.key database.new ≡ D.key database.old }
{
    let rows = database.ask(Query::Sharding, &[])?;
    match rows.as_slice() {
        [row] => match sharding_of(row) {
            Some(sharding) => Ok(sharding),
            None => Err(database.refuse(Damage::Row)),
        },
        _ => Err(database.refuse(Damage::Row)),
    }
}

/// What a row says of how far a container is split, where it does.
fn sharding_of(row: &Row) -> Option<Sharding>
    ensures { IfSome result (λ sharding. row.now ≡ sharding_values sharding) }
{
    if row.column_count() != 4 {
        return None;
    }
    let cursor = u32::try_from(number(row, 0)?).ok()?;
    Some(Sharding {
        cursor,
        emptied: flag(row, 1)?,
        ranges: number(row, 2)?,
        points: number(row, 3)?,
    })
}

/// The ranges in a database that has so many.
fn ranges_in<D: Database>(
    alloc: Global,
    database: &mut D,
    count: u64,
) -> Result<Option<Ranges>, StoreError>
    ensures told { IfOk result (λ ranges. TellsRanges D.shows count database.old database.new ranges) }
    ensures key { D.key database.new ≡ D.key database.old }
{
    if count == 0 {
        return Ok(None);
    }
    let rows = database.ask(Query::Ranges, &[])?;
    match ranges_of(alloc, &rows)? {
        Some(ranges) => Ok(Some(ranges)),
        None => Err(database.refuse(Damage::Row)),
    }
}

/// The points in a database that has so many.
fn points_in<D: Database>(alloc: Global, database: &mut D, count: u64) -> Result<Points, StoreError>
    ensures told { IfOk result (λ points. TellsPoints D.shows count database.old database.new points) }
    ensures key { D.key database.new ≡ D.key database.old }
{
    if count == 0 {
        return Ok(Points::new(alloc));
    }
    let rows = database.ask(Query::Points, &[])?;
    match shard_points_of(alloc, &rows)? {
        Some(points) => Ok(points),
        None => Err(database.refuse(Damage::Row)),
    }
}

/// How many ranges there are at most.
const MOST: usize = 4_294_967_295;

/// The ranges that rows are, where these are all names, each once, under the indexes from 0 on.
fn ranges_of(alloc: Global, rows: &[Row]) -> Result<Option<Ranges>, NoMemory>
    ensures { IfOk result (λ ranges. IfSome ranges (λ list. range_rows 0 list ≡ rows.now)) }
{
    let mut list = Vec::new(alloc);
    for row in rows {
        match range_of(alloc, row, list.len())? {
            Some(range) => list.push(range)?,
            None => return Ok(None),
        }
    }
    if list.len() > MOST {
        return Ok(None);
    }
    Ok(Ranges::new(list).ok())
}

/// The range of this index that a row is, where it is one.
fn range_of(alloc: Global, row: &Row, index: usize) -> Result<Option<Range>, NoMemory>
    ensures { IfOk result (λ range. IfSome range (λ r. row.now ≡ range_values index r)) }
{
    match indexed_of(alloc, row)? {
        Some((number, range)) if number == index as u64 => Ok(Some(range)),
        _ => Ok(None),
    }
}

/// The index and the range that a row is, where it is one.
fn indexed_of(alloc: Global, row: &Row) -> Result<Option<(u64, Range)>, NoMemory>
    ensures { IfOk result (λ indexed. IfSome indexed (λ i. row.now ≡ range_values i.0 i.1)) }
{
    if row.column_count() != 7 {
        return Ok(None);
    }
    let (
        Some(index),
        Some(account),
        Some(container),
        Some(hash),
        Some(lower),
        Some(upper),
        Some(state),
    ) = (
        number(row, 0),
        bytes(row, 1),
        bytes(row, 2),
        digest(row, 3),
        bytes(row, 4),
        bytes(row, 5),
        small(row, 6),
    ) else {
        return Ok(None);
    };
    let account = Bytes::copy(alloc, account)?;
    let container = Bytes::copy(alloc, container)?;
    let lower = Bytes::copy(alloc, lower)?;
    let upper = Bytes::copy(alloc, upper)?;
    let Some(range) = range_with(account, container, hash, lower, upper, state) else {
        return Ok(None);
    };
    Ok(Some((index, range)))
}

/// The range with this shard, and these bounds and state, unless the account isn't hidden.
fn range_with(
    account: Bytes,
    container: Bytes,
    hash: [u8; 16],
    lower: Bytes,
    upper: Bytes,
    state: u8,
) -> Option<Range>
    ensures account { IfSome result (λ r. r.shard.account ≡ account) }
    ensures container { IfSome result (λ r. r.shard.container ≡ container) }
    ensures hash { IfSome result (λ r. r.shard.hash ≡ hash) }
    ensures lower { IfSome result (λ r. r.lower ≡ lower) }
    ensures upper { IfSome result (λ r. r.upper ≡ upper) }
    ensures state { IfSome result (λ r. r.state ≡ state) }
{
    let shard = Place {
        account,
        container,
        hash,
    };
    if !is_hidden(&shard) {
        return None;
    }
    Some(Range {
        lower,
        upper,
        shard,
        state,
    })
}

/// The points that rows are, where each is one, above the one before it.
fn shard_points_of(alloc: Global, rows: &[Row]) -> Result<Option<Points>, NoMemory>
    ensures { IfOk result (λ points. IfSome points (λ p. map point_values p ≡ rows.now)) }
{
    let mut points = Points::new(alloc);
    let mut least = (0, 0);
    for row in rows {
        let Some((range, device, rowid)) = shard_point_of(row) else {
            return Ok(None);
        };
        if !is_at_least(range, device, least) {
            return Ok(None);
        }
        points.set(range, device, rowid)?;
        least = (range, u16::from(device) + 1);
    }
    Ok(Some(points))
}

/// Whether a range and a device come at or behind these.
fn is_at_least(range: u32, device: u8, least: (u32, u16)) -> bool
    ensures { result ≡ true → (least.0 < range) ⊎ ((range ≡ least.0) × (least.1 ≤ device)) }
{
    if range == least.0 {
        u16::from(device) >= least.1
    } else {
        range > least.0
    }
}

/// The range, the device and the number of a point, where a row is one.
fn shard_point_of(row: &Row) -> Option<(u32, u8, u64)>
    ensures { IfSome result (λ point. row.now ≡ point_values ((point.0, point.1), point.2)) }
{
    if row.column_count() != 3 {
        return None;
    }
    let range = u32::try_from(number(row, 0)?).ok()?;
    Some((range, small(row, 1)?, number(row, 2)?))
}

/// The bytes of the text in a column, where one stands there. A bound of a range need be no UTF-8.
fn bytes(row: &Row, at: usize) -> Option<&[u8]>
    ensures { IfSome result (λ text. column row.now at ≡ value.Text text.now) }
{
    match row.get_ref(at) {
        Ok(ValueRef::Text(text)) => Some(text),
        _ => None,
    }
}

/// The number of 8 bits in a column, where one stands there.
fn small(row: &Row, at: usize) -> Option<u8>
    ensures { IfSome result (λ number. column row.now at ≡ value.Int (pos number)) }
{
    u8::try_from(number(row, at)?).ok()
}
