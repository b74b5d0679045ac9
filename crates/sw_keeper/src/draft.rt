ghost use Rattle.std.specs.Prelude.{◌≡◌, Some, IfOk, OnOk, not, filter, unwrap_or};
ghost use Rattle.sw_keeper.specs.Changes.{CanChange, IsBatch, all_changed, changed};
ghost use Rattle.sw_keeper.specs.Drafts.{drafted, IsDraft};
ghost use Rattle.sw_keeper.specs.declared.tables.Tables.{Tables};
ghost use Rattle.sw_rows.specs.Rows.{is_numbered};
ghost use Rattle.sw_sync.specs.Points.{with_point};

use crate::batch::{Batch, Change};
use crate::kept::Kept;
use std::alloc::Global;
use sw_outside::NoMemory;
use sw_rows::Numbered;
use sw_shard_range::Ranges;
use sw_sync::Points;
use sw_timestamp::Timestamp;

/// Sync points are kept for the whole of a container, and not for a range of its names: by the number of the first range.
const WHOLE: u32 = 0;

/// What a batch makes of tables, taken together: the numbers of the rows that go, the rows that come, the greatest number given
/// out then, and all else that tables have. No change of the batch is made yet.
#[derive(Debug, Drop)]
pub(crate) struct Draft {
    pub(crate) put_time: Timestamp,
    pub(crate) delete_time: Option<Timestamp>,
    /// Whether all rows go that were there before.
    pub(crate) clears: bool,
    pub(crate) numbers: Vec<u64>,
    pub(crate) rows: Vec<Numbered>,
    pub(crate) top: u64,
    /// None where they stay as they are. So it is with the points.
    pub(crate) ranges: Option<Ranges>,
    pub(crate) cursor: u32,
    pub(crate) points: Option<Points>,
    pub(crate) syncs: Option<Points>,
    pub(crate) emptied: bool,
}

/// The draft of a batch.
pub(crate) fn draft_of(alloc: Global, tables: &Kept, batch: &Batch) -> Result<Draft, NoMemory>
    requires { IsBatch (Some tables.now) batch.now }
    ensures is { IfOk result (λ draft. IsDraft tables.now draft) }
    ensures tables { IfOk result (λ draft. Some (drafted tables.now draft) ≡ all_changed (Some tables.now) batch.now) }
{
    let mut draft = begin(alloc, tables);
    for change in batch.as_slice() {
        add(alloc, tables, &mut draft, change)?;
    }
    Ok(draft)
}

/// The draft of no changes.
fn begin(alloc: Global, tables: &Kept) -> Draft
    ensures is { IsDraft tables.now result }
    ensures tables { drafted tables.now result ≡ tables.now }
{
    Draft {
        put_time: tables.put_time(),
        delete_time: tables.delete_time(),
        clears: false,
        numbers: Vec::new(alloc),
        rows: Vec::new(alloc),
        top: tables.top(),
        ranges: None,
        cursor: tables.cursor(),
        points: None,
        syncs: None,
        emptied: tables.emptied(),
    }
}

/// The draft with a change more.
fn add(alloc: Global, tables: &Kept, draft: &mut Draft, change: &Change) -> Result<(), NoMemory>
    requires is { IsDraft tables.now draft.old }
    requires fits { CanChange (Some (drafted tables.now draft.old)) change.now }
    ensures is { IfOk result (λ _. IsDraft tables.now draft.new) }
    ensures tables { IfOk result (λ _. Some (drafted tables.now draft.new) ≡ changed (Some (drafted tables.now draft.old)) change.now) }
{
    match change {
        Change::Times {
            put_time,
            delete_time,
        } => {
            draft.put_time = *put_time;
            draft.delete_time = *delete_time;
        }
        Change::PutRow(row, rowid) => {
            let row = row.copy(alloc)?;
            draft.rows.push(Numbered { rowid: *rowid, row })?;
            draft.top = *rowid;
        }
        Change::CutRow(rowid) if *rowid > tables.top() => cut(&mut draft.rows, *rowid),
        Change::CutRow(rowid) => draft.numbers.push(*rowid)?,
        Change::SetRanges(ranges) => draft.ranges = Some(ranges.copy(alloc)?),
        Change::SetCursor(cursor) => draft.cursor = *cursor,
        Change::SetPoint {
            range,
            device,
            rowid,
        } => set(&mut draft.points, tables.points(), *range, *device, *rowid)?,
        Change::SetSync { device, rowid } => {
            set(&mut draft.syncs, tables.syncs(), WHOLE, *device, *rowid)?
        }
        Change::Empty => {
            draft.clears = true;
            draft.numbers = Vec::new(alloc);
            draft.rows = Vec::new(alloc);
            draft.emptied = true;
        }
    }
    Ok(())
}

/// Sets one point of those that are drafted, or where none are yet of a copy of the present ones.
fn set(
    drafted: &mut Option<Points>,
    present: &Points,
    range: u32,
    device: u8,
    rowid: u64,
) -> Result<(), NoMemory>
    ensures { OnOk result (drafted.new ≡ Some (with_point (unwrap_or drafted.old present.now) range device rowid)) }
{
    let mut points = match drafted {
        Some(points) => points.copy()?,
        None => present.copy()?,
    };
    points.set(range, device, rowid)?;
    *drafted = Some(points);
    Ok(())
}

/// Takes the row of this number away.
fn cut(rows: &mut Vec<Numbered>, rowid: u64)
    ensures { rows.new.items ≡ filter (λ n. not (is_numbered rowid n)) rows.old.items }
{
    rows.retain(|numbered| numbered.rowid != rowid);
}
