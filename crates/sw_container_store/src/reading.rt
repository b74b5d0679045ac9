ghost use Rattle.std.specs.Prelude.{◌≡◌, ◌++◌, ◌∷◌, [], pos, map, true, if◌then◌else◌, IsTrue, IfOk, IfSome, OnOk};
ghost use Rattle.std.specs.Str.{is_utf8 as is_utf8_text};
ghost use Rattle.sqlite_value.specs.declared.value.Value.TheVariants as value;
ghost use Rattle.sqlite_value.specs.Order.{column};
ghost use Rattle.sw_container_store.specs.Telling.{AreSyncs, EndsAt, IsChecked, TellsFormat, TellsInfo, TellsPlace};
ghost use Rattle.sw_container_store.specs.Telling.{TellsRows, TellsSyncs, TellsTables, TellsTop};
ghost use Rattle.sw_container_store.specs.Values.{info_values, numbered_values, point_values, time_value};
ghost use Rattle.sw_timestamp.specs.TimeText.{text_of};

use crate::database::{Damage, Database};
use crate::open_list::{has_hash, is_same};
use crate::reading_ranges::split_in;
use crate::statements::{Query, WHOLE};
use sqlite::Row;
use sqlite::types::ValueRef;
use std::alloc::Global;
use sw_hashpath::Place;
use sw_keeper::Tables;
use sw_outside::{Bytes, NoMemory, StoreError, is_utf8};
use sw_rows::{Numbered, Rows};
use sw_sync::Points;
use sw_timestamp::Timestamp;

/// How many rows are read at once, unless there are no more.
const PAGE: usize = 1000;

/// The tables that are in the database of a place, where any are.
pub(crate) fn tables_in<D: Database>(
    alloc: Global,
    database: &mut D,
    place: &Place,
) -> Result<Option<Tables>, StoreError>
    ensures told { IfOk result (λ tables. TellsTables D.shows place.now database.old database.new tables) }
    ensures key { D.key database.new ≡ D.key database.old }
{
    let Some(info) = info_in(alloc, database)? else {
        return Ok(None);
    };
    if !is_same(&info.place, place) {
        return Err(database.refuse(Damage::Container));
    }
    let rows = rows_in(alloc, database)?;
    let syncs = syncs_in(alloc, database)?;
    let split = split_in(alloc, database)?;
    Ok(Some(Tables {
        put_time: info.put_time,
        delete_time: info.delete_time,
        rows,
        ranges: split.ranges,
        cursor: split.cursor,
        points: split.points,
        syncs,
        emptied: split.emptied,
    }))
}

/// Whether the database may be that of a place: it has this format, and is that of no other place.
pub(crate) fn check<D: Database>(
    alloc: Global,
    database: &mut D,
    place: &Place,
) -> Result<(), StoreError>
    ensures checked { OnOk result (IsChecked D.shows place.now database.old database.new) }
    ensures key { D.key database.new ≡ D.key database.old }
{
    check_format(database)?;
    match info_in(alloc, database)? {
        Some(info) if !is_same(&info.place, place) => Err(database.refuse(Damage::Container)),
        _ => Ok(()),
    }
}

/// Whether the database has the format of this project, which has the number 3.
pub(crate) fn check_format<D: Database>(database: &mut D) -> Result<(), StoreError>
    ensures told { OnOk result (TellsFormat D.shows database.old database.new) }
    ensures key { D.key database.new ≡ D.key database.old }
{
    let rows = database.ask(Query::Format, &[])?;
    match rows.as_slice() {
        [row] if number(row, 0) == Some(3) => Ok(()),
        _ => Err(database.refuse(Damage::Format)),
    }
}

/// Which container a database is, and its times.
#[derive(Debug, Drop)]
pub(crate) struct Info {
    pub(crate) place: Place,
    pub(crate) put_time: Timestamp,
    pub(crate) delete_time: Option<Timestamp>,
}

/// What a database tells of itself, unless nothing was kept in it yet.
pub(crate) fn info_in<D: Database>(
    alloc: Global,
    database: &mut D,
) -> Result<Option<Info>, StoreError>
    ensures told { IfOk result (λ info. TellsInfo D.shows database.old database.new info) }
    ensures key { D.key database.new ≡ D.key database.old }
{
    let rows = database.ask(Query::Info, &[])?;
    match rows.as_slice() {
        [] => Ok(None),
        [row] => match info_of(alloc, row)? {
            Some(info) => Ok(Some(info)),
            None => Err(database.refuse(Damage::Row)),
        },
        _ => Err(database.refuse(Damage::Row)),
    }
}

/// Whose the database of this hash is, unless nothing was kept in it yet.
pub(crate) fn place_in<D: Database>(
    alloc: Global,
    database: &mut D,
    hash: &[u8; 16],
) -> Result<Option<Place>, StoreError>
    ensures told { IfOk result (λ place. TellsPlace D.shows hash.now database.old database.new place) }
    ensures key { D.key database.new ≡ D.key database.old }
{
    match info_in(alloc, database)? {
        None => Ok(None),
        Some(info) if has_hash(&info.place, hash) => Ok(Some(info.place)),
        Some(_) => Err(database.refuse(Damage::Container)),
    }
}

/// All rows in a database, under their numbers.
fn rows_in<D: Database>(alloc: Global, database: &mut D) -> Result<Rows, StoreError>
    ensures told { IfOk result (λ rows. TellsRows D.shows database.old database.new rows) }
    ensures key { D.key database.new ≡ D.key database.old }
{
    let top = top_in(database)?;
    let mut rows = Rows::empty_at(alloc, top);
    let mut after = 0;
    for _ in 0..u64::MAX {
        let page = database.ask(Query::Rows, &[ValueRef::Int(after)])?;
        if !add_page(alloc, &mut rows, &page)? {
            break;
        }
        if page.len() < PAGE {
            return Ok(rows);
        }
        match end_of(&page) {
            Some(end) => after = end,
            None => break,
        }
    }
    Err(database.refuse(Damage::Row))
}

/// The greatest number that was given out in a database.
fn top_in<D: Database>(database: &mut D) -> Result<u64, StoreError>
    ensures told { IfOk result (λ top. TellsTop D.shows database.old database.new top) }
    ensures key { D.key database.new ≡ D.key database.old }
{
    let rows = database.ask(Query::Top, &[])?;
    match rows.as_slice() {
        [] => Ok(0),
        [row] => match number(row, 0) {
            Some(top) => Ok(top),
            None => Err(database.refuse(Damage::Row)),
        },
        _ => Err(database.refuse(Damage::Row)),
    }
}

/// All sync points in a database.
fn syncs_in<D: Database>(alloc: Global, database: &mut D) -> Result<Points, StoreError>
    ensures told { IfOk result (λ points. TellsSyncs D.shows database.old database.new points) }
    ensures key { D.key database.new ≡ D.key database.old }
{
    let rows = database.ask(Query::Syncs, &[])?;
    match points_of(alloc, &rows)? {
        Some(points) => Ok(points),
        None => Err(database.refuse(Damage::Row)),
    }
}

/// Puts the rows of a page behind the others. It answers false where one of them is none, or can't stand there.
fn add_page(alloc: Global, rows: &mut Rows, page: &[Row]) -> Result<bool, NoMemory>
    ensures { IfOk result (λ all. IsTrue all →
        (map numbered_values rows.new.list ≡ map numbered_values rows.old.list ++ page.now) × (rows.new.top ≡ rows.old.top)) }
{
    for row in page {
        if !add(alloc, rows, row)? {
            return Ok(false);
        }
    }
    Ok(true)
}

fn add(alloc: Global, rows: &mut Rows, row: &Row) -> Result<bool, NoMemory>
    ensures { IfOk result (λ all. IsTrue all →
        (map numbered_values rows.new.list ≡ map numbered_values rows.old.list ++ row.now ∷ []) × (rows.new.top ≡ rows.old.top)) }
{
    match numbered_of(alloc, row)? {
        Some(numbered) => rows.restore(alloc, numbered.rowid, numbered.row),
        None => Ok(false),
    }
}

/// The sync points that rows are, where each is one for all names, of a device that is above the one before it.
fn points_of(alloc: Global, rows: &[Row]) -> Result<Option<Points>, NoMemory>
    ensures values { IfOk result (λ points. IfSome points (λ p. map point_values p ≡ rows.now)) }
    ensures each { IfOk result (λ points. IfSome points (λ p. AreSyncs 0 256 p)) }
{
    let mut points = Points::new(alloc);
    let mut least = 0;
    for row in rows {
        let Some((device, rowid)) = point_of(row) else {
            return Ok(None);
        };
        if u16::from(device) < least {
            return Ok(None);
        }
        points.set(WHOLE, device, rowid)?;
        least = u16::from(device) + 1;
    }
    Ok(Some(points))
}

/// The device and the number of a sync point for all names, where a row is one.
fn point_of(row: &Row) -> Option<(u8, u64)>
    ensures { IfSome result (λ point. row.now ≡ point_values ((0, point.0), point.1)) }
{
    if row.column_count() != 3 || number(row, 0)? != u64::from(WHOLE) {
        return None;
    }
    let device = u8::try_from(number(row, 1)?).ok()?;
    Some((device, number(row, 2)?))
}

/// The number of the last row of a page, as the database has it.
fn end_of(page: &[Row]) -> Option<i64>
    ensures { IfSome result (λ end. EndsAt page.now end) }
{
    let last = page.last()?;
    match last.get_ref(0) {
        Ok(ValueRef::Int(number)) => Some(number),
        _ => None,
    }
}

/// What a row of information says, where it is one.
fn info_of(alloc: Global, row: &Row) -> Result<Option<Info>, NoMemory>
    ensures { IfOk result (λ info. IfSome info (λ i. row.now ≡ info_values i.place i.put_time i.delete_time)) }
{
    if row.column_count() != 5 {
        return Ok(None);
    }
    let (Some(account), Some(container), Some(hash), Some(put_time), Some(delete_time)) = (
        text(row, 0),
        text(row, 1),
        digest(row, 2),
        time(row, 3),
        time_or_null(row, 4),
    ) else {
        return Ok(None);
    };
    Ok(Some(Info {
        place: Place {
            account: Bytes::copy(alloc, account)?,
            container: Bytes::copy(alloc, container)?,
            hash,
        },
        put_time,
        delete_time,
    }))
}

/// The row and the number that a row of the database is, where it is one.
fn numbered_of(alloc: Global, row: &Row) -> Result<Option<Numbered>, NoMemory>
    ensures { IfOk result (λ numbered. IfSome numbered (λ n. row.now ≡ numbered_values n)) }
{
    if row.column_count() != 7 {
        return Ok(None);
    }
    let (
        Some(rowid),
        Some(name),
        Some(created_at),
        Some(size),
        Some(content_type),
        Some(etag),
        Some(deleted),
    ) = (
        number(row, 0),
        text(row, 1),
        time(row, 2),
        number(row, 3),
        text(row, 4),
        digest(row, 5),
        flag(row, 6),
    ) else {
        return Ok(None);
    };
    let name = Bytes::copy(alloc, name)?;
    let content_type = Bytes::copy(alloc, content_type)?;
    let row = row_of(name, created_at, size, content_type, etag, deleted);
    Ok(Some(Numbered { rowid, row }))
}

fn row_of(
    name: Bytes,
    created_at: Timestamp,
    size: u64,
    content_type: Bytes,
    etag: [u8; 16],
    deleted: bool,
) -> sw_rows::Row
    requires name { is_utf8_text name ≡ true }
    requires content_type { is_utf8_text content_type ≡ true }
    ensures name { result.name ≡ name }
    ensures created_at { result.created_at ≡ created_at }
    ensures size { result.size ≡ size }
    ensures content_type { result.content_type ≡ content_type }
    ensures etag { result.etag ≡ etag }
    ensures deleted { result.deleted ≡ deleted }
{
    sw_rows::Row {
        name,
        created_at,
        size,
        content_type,
        etag,
        deleted,
    }
}

/// The text in a column, where one stands there that is UTF-8.
fn text(row: &Row, at: usize) -> Option<&[u8]>
    ensures value { IfSome result (λ text. column row.now at ≡ value.Text text.now) }
    ensures text { IfSome result (λ text. is_utf8_text text.now ≡ true) }
{
    match row.get_ref(at) {
        Ok(ValueRef::Text(text)) if is_utf8(text) => Some(text),
        _ => None,
    }
}

/// The number in a column, where one stands there that isn't below 0.
pub(crate) fn number(row: &Row, at: usize) -> Option<u64>
    ensures { IfSome result (λ number. column row.now at ≡ value.Int (pos number)) }
{
    match row.get_ref(at) {
        Ok(ValueRef::Int(number)) => u64::try_from(number).ok(),
        _ => None,
    }
}

/// Whether the number in a column is 1, where it is that or 0.
pub(crate) fn flag(row: &Row, at: usize) -> Option<bool>
    ensures { IfSome result (λ flag. column row.now at ≡ value.Int (pos (if flag then 1 else 0))) }
{
    match row.get_ref(at) {
        Ok(ValueRef::Int(0)) => Some(false),
        Ok(ValueRef::Int(1)) => Some(true),
        _ => None,
    }
}

/// The digest in a column, where one stands there.
pub(crate) fn digest(row: &Row, at: usize) -> Option<[u8; 16]>
    ensures { IfSome result (λ digest. column row.now at ≡ value.Blob digest) }
{
    match row.get_ref(at) {
        Ok(ValueRef::Blob(bytes)) => bytes.try_into().ok(),
        _ => None,
    }
}

/// The time in a column, where the text of one stands there.
fn time(row: &Row, at: usize) -> Option<Timestamp>
    ensures { IfSome result (λ time. column row.now at ≡ value.Text (text_of time)) }
{
    let text = text(row, at)?;
    let time = Timestamp::parse(text).ok()?;
    let mut normal = [0; 16];
    time.write_normal(&mut normal);
    if text == normal.as_slice() {
        Some(time)
    } else {
        None
    }
}

/// The same, or no time where there is none.
fn time_or_null(row: &Row, at: usize) -> Option<Option<Timestamp>>
    ensures { IfSome result (λ time. column row.now at ≡ time_value time) }
{
    match row.get_ref(at) {
        Ok(ValueRef::Null) => Some(None),
        _ => Some(Some(time(row, at)?)),
    }
}
