ghost use Rattle.std.specs.Prelude.{◌≡◌, ◌≢◌, [], ◌∷◌, IfOk, OnErr};
ghost use Rattle.std.specs.Option.{option_copied};
ghost use Rattle.sw_container_steps.specs.Steps.{acking_entries, closing_entries, created_by, creation_entries, creation_time, emptying_entries};
ghost use Rattle.sw_container_steps.specs.Steps.{entries_for, rows_entries, sync_entries};

use crate::cont_change::ContChange;
use crate::cont_entry::ContEntry;
use crate::merging::merging_entries;
use crate::presence::deletion;
use crate::refusing::creator;
use crate::syncing::SYNC_RANGE;
use std::alloc::Global;
use std::slice;
use sw_hashpath::Place;
use sw_keeper::Tables;
use sw_outside::NoMemory;
use sw_rows::Row;
use sw_timestamp::Timestamp;

/// The entries that a step adds where it isn't refused. Where it adds none no memory is taken.
pub(crate) fn entries_for(
    alloc: Global,
    tables: &Option<Tables>,
    place: &Place,
    change: &ContChange,
) -> Result<Vec<ContEntry>, NoMemory>
    ensures ok { IfOk result (λ entries. entries.items ≡ entries_for tables.now place.now change.now) }
    ensures starved { OnErr result (entries_for tables.now place.now change.now ≢ []) }
{
    match change {
        ContChange::Create { time } => creation_entries(alloc, tables, place, *time),
        ContChange::Remove { time } => one(alloc, ContEntry::Removed(place.copy(alloc)?, *time)),
        ContChange::MergeRow { row } => { rows_entries(alloc, tables, place, slice::from_ref(row)) }
        ContChange::MergeRows { rows } => rows_entries(alloc, tables, place, rows.as_slice()),
        ContChange::SetRanges { ranges } => one(
            alloc,
            ContEntry::Ranged(place.copy(alloc)?, ranges.copy(alloc)?),
        ),
        ContChange::Ack {
            range,
            device,
            rowid,
        } => acking_entries(alloc, tables, place, *range, *device, *rowid),
        ContChange::CloseRange { range, .. } => closing_entries(alloc, tables, place, *range),
        ContChange::EmptyOut => emptying_entries(alloc, tables, place),
        ContChange::SetSync { device, rowid } => sync_entries(
            alloc, tables, place, *device, *rowid,
        ),
    }
}

/// None where the number isn't above the one that is kept.
fn acking_entries(
    alloc: Global,
    tables: &Option<Tables>,
    place: &Place,
    range: u32,
    device: u8,
    rowid: u64,
) -> Result<Vec<ContEntry>, NoMemory>
    ensures ok { IfOk result (λ entries. entries.items ≡ acking_entries tables.now place.now range device rowid) }
    ensures starved { OnErr result (acking_entries tables.now place.now range device rowid ≢ []) }
{
    match tables {
        Some(tables) if tables.points.rises(range, device, rowid) => {
            one(
                alloc,
                ContEntry::Acked(place.copy(alloc)?, range, device, rowid),
            )
        }
        _ => Ok(Vec::new(alloc)),
    }
}

/// None where the range is closed.
fn closing_entries(
    alloc: Global,
    tables: &Option<Tables>,
    place: &Place,
    range: u32,
) -> Result<Vec<ContEntry>, NoMemory>
    ensures ok { IfOk result (λ entries. entries.items ≡ closing_entries tables.now place.now range) }
    ensures starved { OnErr result (closing_entries tables.now place.now range ≢ []) }
{
    match tables {
        Some(tables) if range >= tables.cursor => {
            one(alloc, ContEntry::Closed(place.copy(alloc)?, range))
        }
        _ => Ok(Vec::new(alloc)),
    }
}

/// None where the rows were taken away.
fn emptying_entries(
    alloc: Global,
    tables: &Option<Tables>,
    place: &Place,
) -> Result<Vec<ContEntry>, NoMemory>
    ensures ok { IfOk result (λ entries. entries.items ≡ emptying_entries tables.now place.now) }
    ensures starved { OnErr result (emptying_entries tables.now place.now ≢ []) }
{
    match tables {
        Some(tables) if !tables.emptied => one(alloc, ContEntry::Emptied(place.copy(alloc)?)),
        _ => Ok(Vec::new(alloc)),
    }
}

fn creation_entries(
    alloc: Global,
    tables: &Option<Tables>,
    place: &Place,
    time: Timestamp,
) -> Result<Vec<ContEntry>, NoMemory>
    ensures ok { IfOk result (λ entries. entries.items ≡ creation_entries tables.now place.now time) }
    ensures starved { OnErr result (creation_entries tables.now place.now time ≢ []) }
{
    match tables {
        Some(tables) if tables.put_time >= time => Ok(Vec::new(alloc)),
        _ => one(alloc, ContEntry::Created(place.copy(alloc)?, time)),
    }
}

/// None where the number isn't above the one that is kept.
fn sync_entries(
    alloc: Global,
    tables: &Option<Tables>,
    place: &Place,
    device: u8,
    rowid: u64,
) -> Result<Vec<ContEntry>, NoMemory>
    ensures ok { IfOk result (λ entries. entries.items ≡ sync_entries tables.now place.now device rowid) }
    ensures starved { OnErr result (sync_entries tables.now place.now device rowid ≢ []) }
{
    match tables {
        Some(tables) if tables.syncs.rises(SYNC_RANGE, device, rowid) => {
            one(alloc, ContEntry::Synced(place.copy(alloc)?, device, rowid))
        }
        _ => Ok(Vec::new(alloc)),
    }
}

fn rows_entries(
    alloc: Global,
    tables: &Option<Tables>,
    place: &Place,
    rows: &[Row],
) -> Result<Vec<ContEntry>, NoMemory>
    ensures ok { IfOk result (λ entries. entries.items ≡ rows_entries tables.now place.now rows.now) }
    ensures starved { OnErr result (rows_entries tables.now place.now rows.now ≢ []) }
{
    let entries = created_by(alloc, tables, place, creator(tables, place, rows))?;
    merging_entries(alloc, entries, tables, place, rows)
}

/// The entry by which a row creates its container.
fn created_by(
    alloc: Global,
    tables: &Option<Tables>,
    place: &Place,
    row: Option<&Row>,
) -> Result<Vec<ContEntry>, NoMemory>
    ensures ok { IfOk result (λ entries. entries.items ≡ created_by tables.now place.now (option_copied row.entry)) }
    ensures starved { OnErr result (created_by tables.now place.now (option_copied row.entry) ≢ []) }
{
    match row {
        Some(row) => {
            let time = creation_time(tables, row);
            one(alloc, ContEntry::Created(place.copy(alloc)?, time))
        }
        None => Ok(Vec::new(alloc)),
    }
}

/// The time at which a row creates its container.
fn creation_time(tables: &Option<Tables>, row: &Row) -> Timestamp
    ensures { result ≡ creation_time tables.now row.now }
{
    match deletion(tables) {
        Some(gone) if row.created_at < gone => gone,
        _ => row.created_at,
    }
}

fn one(alloc: Global, entry: ContEntry) -> Result<Vec<ContEntry>, NoMemory>
    ensures { IfOk result (λ entries. entries.items ≡ entry ∷ []) }
{
    let mut entries = Vec::new(alloc);
    entries.push(entry)?;
    Ok(entries)
}
