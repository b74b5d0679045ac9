ghost use Rattle.std.specs.Prelude.{◌≡◌, ◌∷◌, [], pos, map, if◌then◌else◌, IfOk, OnOk};
ghost use Rattle.sqlite.specs.Values.{bound};
ghost use Rattle.sqlite_value.specs.declared.value.Value.TheVariants.{Int, Text, Blob};
ghost use Rattle.sw_container_store.specs.Runs.{RunsAll};
ghost use Rattle.sw_container_store.specs.Values.{asked_of, info_values, point_values, range_asked, range_rows, range_values, row_values, transaction};
ghost use Rattle.sw_timestamp.specs.TimeText.{text_of};

use crate::database::{Damage, Database};
use crate::statements::{Command, WHOLE};
use sqlite::types::ValueRef;
use sw_hashpath::Place;
use sw_keeper::{Batch, Change};
use sw_outside::StoreError;
use sw_rows::Row;
use sw_shard_range::{Range, Ranges};
use sw_timestamp::Timestamp;

/// Makes all changes of a batch in the database of a place, in one transaction.
pub(crate) fn make<D: Database>(
    database: &mut D,
    place: &Place,
    batch: &Batch,
) -> Result<(), StoreError>
    ensures runs { OnOk result (RunsAll D.runs (transaction place.now batch.now) database.old database.new) }
    ensures key { D.key database.new ≡ D.key database.old }
{
    database.run(Command::Begin, &[])?;
    for change in batch.as_slice() {
        make_change(database, place, change)?;
    }
    database.run(Command::Commit, &[])?;
    Ok(())
}

/// Makes one change, by what it asks.
fn make_change<D: Database>(
    database: &mut D,
    place: &Place,
    change: &Change,
) -> Result<(), StoreError>
    ensures runs { OnOk result (RunsAll D.runs (asked_of place.now change.now) database.old database.new) }
    ensures key { D.key database.new ≡ D.key database.old }
{
    match change {
        Change::Times {
            put_time,
            delete_time,
        } => put_info(database, place, *put_time, *delete_time),
        Change::PutRow(row, rowid) => put_row(database, row, *rowid),
        Change::CutRow(rowid) => {
            let number = number_of(database, *rowid)?;
            run_one(database, Command::CutRow, &[ValueRef::Int(number)])
        }
        Change::SetRanges(ranges) => put_ranges(database, ranges),
        Change::SetCursor(cursor) => put_cursor(database, *cursor),
        Change::SetPoint {
            range,
            device,
            rowid,
        } => put_point(database, Command::PutPoint, *range, *device, *rowid),
        Change::SetSync { device, rowid } => {
            put_point(database, Command::PutSync, WHOLE, *device, *rowid)
        }
        Change::Empty => empty(database),
    }
}

/// Asks for one command alone.
fn run_one<D: Database>(
    database: &mut D,
    command: Command,
    values: &[ValueRef<'_>],
) -> Result<(), StoreError>
    ensures runs { OnOk result (RunsAll D.runs (record { command = command; values = bound values.now } ∷ []) database.old database.new) }
    ensures key { D.key database.new ≡ D.key database.old }
{
    database.run(command, values)?;
    Ok(())
}

fn put_cursor<D: Database>(database: &mut D, cursor: u32) -> Result<(), StoreError>
    ensures runs { OnOk result (RunsAll D.runs (record { command = Command.PutCursor; values = Int (pos cursor) ∷ [] } ∷ []) database.old database.new) }
    ensures key { D.key database.new ≡ D.key database.old }
{
    run_one(
        database,
        Command::PutCursor,
        &[ValueRef::Int(i64::from(cursor))],
    )
}

/// Takes all rows away, and keeps that they were.
fn empty<D: Database>(database: &mut D) -> Result<(), StoreError>
    ensures runs { OnOk result (RunsAll D.runs
        (record { command = Command.CutRows; values = [] } ∷ record { command = Command.PutEmptied; values = [] } ∷ []) database.old database.new) }
    ensures key { D.key database.new ≡ D.key database.old }
{
    database.run(Command::CutRows, &[])?;
    database.run(Command::PutEmptied, &[])?;
    Ok(())
}

fn put_info<D: Database>(
    database: &mut D,
    place: &Place,
    put_time: Timestamp,
    delete_time: Option<Timestamp>,
) -> Result<(), StoreError>
    ensures runs { OnOk result (RunsAll D.runs (record { command = Command.PutInfo; values = info_values place.now put_time delete_time } ∷ [])
        database.old database.new) }
    ensures key { D.key database.new ≡ D.key database.old }
{
    let put_text = time_text(put_time);
    let delete_text = delete_time.map(time_text);
    let deleted = match &delete_text {
        Some(text) => ValueRef::Text(text.as_slice()),
        None => ValueRef::Null,
    };
    run_one(
        database,
        Command::PutInfo,
        &[
            ValueRef::Text(place.account.as_slice()),
            ValueRef::Text(place.container.as_slice()),
            ValueRef::Blob(place.hash.as_slice()),
            ValueRef::Text(put_text.as_slice()),
            deleted,
        ],
    )
}

fn put_row<D: Database>(database: &mut D, row: &Row, rowid: u64) -> Result<(), StoreError>
    ensures runs { OnOk result (RunsAll D.runs (record { command = Command.PutRow; values = row_values rowid row.now } ∷ []) database.old database.new) }
    ensures key { D.key database.new ≡ D.key database.old }
{
    run_row(database, row, rowid)?;
    Ok(())
}

fn run_row<D: Database>(database: &mut D, row: &Row, rowid: u64) -> Result<(), StoreError>
    ensures runs { OnOk result (D.runs Command.PutRow (row_values rowid row.now) database.old database.new) }
    ensures key { D.key database.new ≡ D.key database.old }
{
    let number = number_of(database, rowid)?;
    let size = number_of(database, row.size)?;
    let created_at = time_text(row.created_at);
    let values = row_values(number, row, &created_at, size);
    database.run(Command::PutRow, &values)
}

/// The values of a row, whose number, size and time are given as a database takes them.
fn row_values<'a>(
    number: i64,
    row: &'a Row,
    created_at: &'a [u8; 16],
    size: i64,
) -> [ValueRef<'a>; 7]
    ensures { bound result ≡ Int number ∷ Text row.now.name ∷ Text created_at.now ∷ Int size ∷ Text row.now.content_type ∷ Blob row.now.etag
        ∷ Int (pos (if row.now.deleted then 1 else 0)) ∷ [] }
{
    [
        ValueRef::Int(number),
        ValueRef::Text(row.name.as_slice()),
        ValueRef::Text(created_at.as_slice()),
        ValueRef::Int(size),
        ValueRef::Text(row.content_type.as_slice()),
        ValueRef::Blob(row.etag.as_slice()),
        ValueRef::Int(if row.deleted { 1 } else { 0 }),
    ]
}

/// Puts ranges in place of those that are there.
fn put_ranges<D: Database>(database: &mut D, ranges: &Ranges) -> Result<(), StoreError>
    ensures runs { OnOk result (RunsAll D.runs (record { command = Command.CutRanges; values = [] } ∷ map range_asked (range_rows 0 ranges.now))
        database.old database.new) }
    ensures key { D.key database.new ≡ D.key database.old }
{
    database.run(Command::CutRanges, &[])?;
    let mut index = 0;
    for range in ranges.as_slice() {
        put_range(database, index, range)?;
        index += 1;
    }
    Ok(())
}

fn put_range<D: Database>(database: &mut D, index: u32, range: &Range) -> Result<(), StoreError>
    ensures runs { OnOk result (D.runs Command.PutRange (range_values index range.now) database.old database.new) }
    ensures key { D.key database.new ≡ D.key database.old }
{
    database.run(
        Command::PutRange,
        &[
            ValueRef::Int(i64::from(index)),
            ValueRef::Text(range.shard.account.as_slice()),
            ValueRef::Text(range.shard.container.as_slice()),
            ValueRef::Blob(range.shard.hash.as_slice()),
            ValueRef::Text(range.lower.as_slice()),
            ValueRef::Text(range.upper.as_slice()),
            ValueRef::Int(i64::from(range.state)),
        ],
    )
}

/// Keeps the number of a range and a device, by this command.
fn put_point<D: Database>(
    database: &mut D,
    command: Command,
    range: u32,
    device: u8,
    rowid: u64,
) -> Result<(), StoreError>
    ensures runs { OnOk result (RunsAll D.runs (record { command = command; values = point_values ((range, device), rowid) } ∷ []) database.old database.new) }
    ensures key { D.key database.new ≡ D.key database.old }
{
    let number = number_of(database, rowid)?;
    run_one(
        database,
        command,
        &[
            ValueRef::Int(i64::from(range)),
            ValueRef::Int(i64::from(device)),
            ValueRef::Int(number),
        ],
    )
}

/// The text of a time.
fn time_text(time: Timestamp) -> [u8; 16]
    ensures { result ≡ text_of time }
{
    let mut text = [0; 16];
    time.write_normal(&mut text);
    text
}

/// The number as a database takes it: the greatest has 63 bits.
fn number_of<D: Database>(database: &D, number: u64) -> Result<i64, StoreError>
    ensures { IfOk result (λ taken. taken ≡ pos number) }
{
    match i64::try_from(number) {
        Ok(taken) => Ok(taken),
        Err(_) => Err(database.refuse(Damage::Number)),
    }
}
