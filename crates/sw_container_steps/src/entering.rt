ghost use Rattle.std.specs.Prelude.{◌≡◌, ◌+◌, ◌-◌, ◌^◌, ◌≤◌, ◌<◌, ◌++◌, ◌∷◌, [], if◌then◌else◌, find, Some, None, IfOk, OnOk};
ghost use Rattle.sw_container_steps.specs.Batches.{acking_changes, changes_of, closing_changes, cut, emptying_changes, ranging_changes, row_changes};
ghost use Rattle.sw_container_steps.specs.Entries.{closed, emptied, entered, ranged, row_count, top_of};
ghost use Rattle.sw_keeper.specs.declared.batch.Change.TheVariants.{SetSync};
ghost use Rattle.sw_rows.specs.Rows.{find_named, fits, is_named, merged};
ghost use Rattle.sw_sync.specs.Points.{raised, with_point};

use crate::cont_entry::ContEntry;
use crate::syncing::SYNC_RANGE;
use std::alloc::Global;
use sw_keeper::{Change, Tables};
use sw_outside::NoMemory;
use sw_rows::{Row, Rows};
use sw_shard_range::{Ranges, state};
use sw_sync::Points;

/// Enters an entry: gives the tables after it, and adds to the changes those that make it.
pub(crate) fn enter(
    alloc: Global,
    tables: Option<Tables>,
    changes: &mut Vec<Change>,
    entry: &ContEntry,
) -> Result<Option<Tables>, NoMemory>
    requires { top_of tables + row_count entry.now ≤ 2 ^ 64 - 1 }
    ensures tables { IfOk result (λ after. after ≡ entered tables entry.now) }
    ensures changes { IfOk result (λ _. changes.new.items ≡ changes.old.items ++ changes_of tables entry.now) }
{
    match tables {
        Some(mut tables) => {
            enter_more(alloc, &mut tables, changes, entry)?;
            Ok(Some(tables))
        }
        None => enter_first(alloc, changes, entry),
    }
}

/// The same where nothing is held: only a creation makes anything.
fn enter_first(
    alloc: Global,
    changes: &mut Vec<Change>,
    entry: &ContEntry,
) -> Result<Option<Tables>, NoMemory>
    ensures tables { IfOk result (λ after. after ≡ entered None entry.now) }
    ensures changes { IfOk result (λ _. changes.new.items ≡ changes.old.items ++ changes_of None entry.now) }
{
    match entry {
        ContEntry::Created(_, time) => {
            changes.push(Change::Times {
                put_time: *time,
                delete_time: None,
            })?;
            Ok(Some(Tables {
                put_time: *time,
                delete_time: None,
                rows: Rows::empty(alloc),
                ranges: None,
                cursor: 0,
                points: Points::new(alloc),
                syncs: Points::new(alloc),
                emptied: false,
            }))
        }
        ContEntry::Removed(_, _) => Ok(None),
        ContEntry::Merged(_, _) => Ok(None),
        ContEntry::Ranged(_, _) => Ok(None),
        ContEntry::Acked(_, _, _, _) => Ok(None),
        ContEntry::Closed(_, _) => Ok(None),
        ContEntry::Emptied(_) => Ok(None),
        ContEntry::Synced(_, _, _) => Ok(None),
    }
}

/// The same where these tables are held.
fn enter_more(
    alloc: Global,
    tables: &mut Tables,
    changes: &mut Vec<Change>,
    entry: &ContEntry,
) -> Result<(), NoMemory>
    requires { tables.old.rows.top + row_count entry.now ≤ 2 ^ 64 - 1 }
    ensures tables { OnOk result (Some tables.new ≡ entered (Some tables.old) entry.now) }
    ensures changes { OnOk result (changes.new.items ≡ changes.old.items ++ changes_of (Some tables.old) entry.now) }
{
    match entry {
        ContEntry::Created(_, time) => {
            changes.push(Change::Times {
                put_time: *time,
                delete_time: tables.delete_time,
            })?;
            tables.put_time = *time;
            Ok(())
        }
        ContEntry::Removed(_, time) => {
            changes.push(Change::Times {
                put_time: tables.put_time,
                delete_time: Some(*time),
            })?;
            tables.delete_time = Some(*time);
            Ok(())
        }
        ContEntry::Merged(_, row) => enter_row(alloc, &mut tables.rows, changes, row),
        ContEntry::Ranged(_, ranges) => enter_ranges(alloc, tables, changes, ranges),
        ContEntry::Acked(_, range, device, rowid) => {
            enter_point(&mut tables.points, changes, *range, *device, *rowid)
        }
        ContEntry::Closed(_, _) => enter_closed(alloc, tables, changes),
        ContEntry::Emptied(_) => enter_emptied(alloc, tables, changes),
        ContEntry::Synced(_, device, rowid) => {
            enter_sync(&mut tables.syncs, changes, *device, *rowid)
        }
    }
}

/// Sets the ranges where there are none.
fn enter_ranges(
    alloc: Global,
    tables: &mut Tables,
    changes: &mut Vec<Change>,
    ranges: &Ranges,
) -> Result<(), NoMemory>
    ensures tables { OnOk result (tables.new ≡ ranged tables.old tables.old.ranges ranges.now) }
    ensures changes { OnOk result (changes.new.items ≡ changes.old.items ++ ranging_changes tables.old.ranges ranges.now) }
{
    if tables.ranges.is_some() {
        return Ok(());
    }
    let created = ranges.copy(alloc)?.all_in_state(state::CREATED);
    changes.push(Change::SetRanges(created.copy(alloc)?))?;
    changes.push(Change::SetCursor(0))?;
    tables.ranges = Some(created);
    tables.cursor = 0;
    Ok(())
}

/// Raises a point of a range.
fn enter_point(
    points: &mut Points,
    changes: &mut Vec<Change>,
    range: u32,
    device: u8,
    rowid: u64,
) -> Result<(), NoMemory>
    ensures points { OnOk result (points.new ≡ raised points.old range device rowid) }
    ensures changes { OnOk result (changes.new.items ≡ changes.old.items ++ acking_changes points.old range device rowid) }
{
    if points.raise(range, device, rowid)? {
        changes.push(Change::SetPoint {
            range,
            device,
            rowid,
        })?;
    }
    Ok(())
}

/// Closes the first range that is open, where there is one.
fn enter_closed(
    alloc: Global,
    tables: &mut Tables,
    changes: &mut Vec<Change>,
) -> Result<(), NoMemory>
    ensures tables { OnOk result (tables.new ≡ closed tables.old tables.old.ranges) }
    ensures changes { OnOk result (changes.new.items ≡ changes.old.items ++ closing_changes tables.old.ranges tables.old.cursor) }
{
    let cursor = tables.cursor;
    let Some(ranges) = &tables.ranges else {
        return Ok(());
    };
    if cursor >= ranges.len() {
        return Ok(());
    }
    let cleaved = ranges.copy(alloc)?.with_state(state::CLEAVED, cursor);
    changes.push(Change::SetRanges(cleaved.copy(alloc)?))?;
    changes.push(Change::SetCursor(cursor + 1))?;
    tables.ranges = Some(cleaved);
    tables.cursor = cursor + 1;
    Ok(())
}

/// Takes the rows away, where all ranges are closed.
fn enter_emptied(
    alloc: Global,
    tables: &mut Tables,
    changes: &mut Vec<Change>,
) -> Result<(), NoMemory>
    ensures tables { OnOk result (tables.new ≡ emptied tables.old tables.old.ranges) }
    ensures changes { OnOk result (changes.new.items ≡ changes.old.items ++ emptying_changes tables.old.ranges tables.old.cursor) }
{
    let Some(ranges) = &tables.ranges else {
        return Ok(());
    };
    if tables.cursor < ranges.len() {
        return Ok(());
    }
    let active = ranges.copy(alloc)?.all_in_state(state::ACTIVE);
    changes.push(Change::SetRanges(active.copy(alloc)?))?;
    changes.push(Change::Empty)?;
    tables.ranges = Some(active);
    tables.rows = Rows::empty_at(alloc, tables.rows.top());
    tables.emptied = true;
    Ok(())
}

/// Sets a sync point, and adds the change that sets it.
fn enter_sync(
    syncs: &mut Points,
    changes: &mut Vec<Change>,
    device: u8,
    rowid: u64,
) -> Result<(), NoMemory>
    ensures syncs { OnOk result (syncs.new ≡ with_point syncs.old 0 device rowid) }
    ensures changes { OnOk result (changes.new.items ≡ changes.old.items ++ SetSync device rowid ∷ []) }
{
    changes.push(Change::SetSync { device, rowid })?;
    syncs.set(SYNC_RANGE, device, rowid)?;
    Ok(())
}

/// Merges a row, and adds the changes that put it in.
fn enter_row(
    alloc: Global,
    rows: &mut Rows,
    changes: &mut Vec<Change>,
    row: &Row,
) -> Result<(), NoMemory>
    requires { rows.old.top < 2 ^ 64 - 1 }
    ensures rows { OnOk result (rows.new ≡ merged rows.old row.now) }
    ensures changes { OnOk result (changes.new.items ≡ changes.old.items ++ row_changes rows.old row.now) }
{
    if displace(rows, changes, row)? {
        changes.push(Change::PutRow(row.copy(alloc)?, rows.top() + 1))?;
        rows.replace(alloc, row.copy(alloc)?)?;
    }
    Ok(())
}

/// Whether a row is put in. Where one of its name is present, the change is added that cuts that one.
fn displace(rows: &Rows, changes: &mut Vec<Change>, row: &Row) -> Result<bool, NoMemory>
    ensures fits { IfOk result (λ put. put ≡ fits (find_named rows.now.list row.now.name) row.now) }
    ensures changes { IfOk result (λ put. changes.new.items
        ≡ changes.old.items ++ (if put then cut (find (is_named row.now.name) rows.now.list) else [])) }
{
    match rows.find(row.name.as_slice()) {
        Some((_, present)) if present.is_at_least(row) => Ok(false),
        Some((rowid, _)) => {
            changes.push(Change::CutRow(rowid))?;
            Ok(true)
        }
        None => Ok(true),
    }
}
