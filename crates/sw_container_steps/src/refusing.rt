ghost use Rattle.std.specs.Prelude.{◌≡◌, None, Some, find, not, IfOk, OnErr};
ghost use Rattle.std.specs.Option.{option_copied, option_map};
ghost use Rattle.sw_container_steps.specs.Deciding.{Redirects};
ghost use Rattle.sw_container_steps.specs.Serving.{is_of_range};
ghost use Rattle.sw_container_steps.specs.Steps.{closing_refusal, cont_refusal, creation_refusal, creator, emptying_refusal, first_live, has_point};
ghost use Rattle.sw_container_steps.specs.Steps.{merging_refusal, ranging_refusal, redirection, refusal_over, refusal_with, removal_refusal, sync_refusal};
ghost use Rattle.sw_container_steps.specs.declared.cont_answer.ContAnswer.TheVariants as answers;
ghost use Rattle.sw_hashpath.specs.declared.place.Place.{Place};

use crate::cont_answer::ContAnswer;
use crate::cont_change::ContChange;
use crate::presence::{deletion, is_dotted, is_present};
use crate::serving::{first_served, is_of_range};
use std::alloc::Global;
use std::slice;
use sw_hashpath::Place;
use sw_keeper::Tables;
use sw_outside::NoMemory;
use sw_rows::Row;
use sw_shard_range::Ranges;
use sw_sync::Points;
use sw_timestamp::Timestamp;

/// How what stands refuses the step; none where the step is made.
///
/// [`NoMemory`] comes only where the answer tells a shard.
pub(crate) fn refusal(
    alloc: Global,
    tables: &Option<Tables>,
    place: &Place,
    change: &ContChange,
) -> Result<Option<ContAnswer>, NoMemory>
    ensures ok { IfOk result (λ answer. answer ≡ cont_refusal tables.now place.now change.now) }
    ensures starved { OnErr result (Redirects tables.now place.now change.now) }
{
    match change {
        ContChange::Create { time } => Ok(creation_refusal(tables, *time)),
        ContChange::Remove { time } => Ok(removal_refusal(tables, *time)),
        ContChange::MergeRow { row } => merging_refusal(alloc, tables, place, slice::from_ref(row)),
        ContChange::MergeRows { rows } => merging_refusal(alloc, tables, place, rows.as_slice()),
        ContChange::SetRanges { .. } => Ok(ranging_refusal(tables)),
        ContChange::Ack { .. } => Ok(acking_refusal(tables)),
        ContChange::CloseRange { range, devices } => Ok(closing_refusal(
            tables,
            *range,
            devices.as_slice(),
        )),
        ContChange::EmptyOut => Ok(emptying_refusal(tables)),
        ContChange::SetSync { .. } => Ok(sync_refusal(tables)),
    }
}

fn creation_refusal(tables: &Option<Tables>, time: Timestamp) -> Option<ContAnswer>
    ensures { result ≡ creation_refusal tables.now time }
{
    match deletion(tables) {
        Some(gone) if time < gone => Some(ContAnswer::Stale(gone)),
        _ => None,
    }
}

fn removal_refusal(tables: &Option<Tables>, time: Timestamp) -> Option<ContAnswer>
    ensures { result ≡ removal_refusal tables.now time }
{
    if !is_present(tables) {
        return Some(ContAnswer::Absent);
    }
    match tables {
        Some(tables) => {
            if tables.ranges.is_some() {
                return Some(ContAnswer::HasRanges);
            }
            let count = tables.rows.count();
            if count != 0 {
                Some(ContAnswer::NotEmpty(count))
            } else if tables.put_time < time {
                None
            } else {
                Some(ContAnswer::Stale(tables.put_time))
            }
        }
        None => Some(ContAnswer::Absent),
    }
}

fn merging_refusal(
    alloc: Global,
    tables: &Option<Tables>,
    place: &Place,
    rows: &[Row],
) -> Result<Option<ContAnswer>, NoMemory>
    ensures ok { IfOk result (λ answer. answer ≡ merging_refusal tables.now place.now rows.now) }
    ensures starved { OnErr result ((shard : Place) × (merging_refusal tables.now place.now rows.now ≡ Some (answers.Redirect shard))) }
{
    if is_present(tables) {
        return redirection(alloc, tables, rows);
    }
    if creator(tables, place, rows).is_some() {
        Ok(None)
    } else {
        Ok(Some(ContAnswer::Absent))
    }
}

/// The first of the rows whose name is left to a shard is redirected.
fn redirection(
    alloc: Global,
    tables: &Option<Tables>,
    rows: &[Row],
) -> Result<Option<ContAnswer>, NoMemory>
    ensures ok { IfOk result (λ answer. answer ≡ redirection tables.now rows.now) }
    ensures starved { OnErr result ((shard : Place) × (redirection tables.now rows.now ≡ Some (answers.Redirect shard))) }
{
    match tables {
        Some(tables) => match first_served(tables, rows) {
            Some(shard) => Ok(Some(ContAnswer::Redirect(shard.copy(alloc)?))),
            None => Ok(None),
        },
        None => Ok(None),
    }
}

fn ranging_refusal(tables: &Option<Tables>) -> Option<ContAnswer>
    ensures { result ≡ refusal_over tables.now (λ t. ranging_refusal t.ranges) }
{
    match tables {
        Some(present) if is_present(tables) => match &present.ranges {
            Some(_) => Some(ContAnswer::HasRanges),
            None => None,
        },
        _ => Some(ContAnswer::Absent),
    }
}

fn acking_refusal(tables: &Option<Tables>) -> Option<ContAnswer>
    ensures { result ≡ refusal_over tables.now (λ t. refusal_with t.ranges (λ ranges. None)) }
{
    match tables {
        Some(present) if is_present(tables) => match &present.ranges {
            Some(_) => None,
            None => Some(ContAnswer::NoRanges),
        },
        _ => Some(ContAnswer::Absent),
    }
}

fn closing_refusal(tables: &Option<Tables>, range: u32, devices: &[u8]) -> Option<ContAnswer>
    ensures { result ≡ refusal_over tables.now (λ t. refusal_with t.ranges (λ ranges. closing_refusal t ranges range devices.now)) }
{
    match tables {
        Some(present) if is_present(tables) => match &present.ranges {
            Some(ranges) => closing_refusal_with(present, ranges, range, devices),
            None => Some(ContAnswer::NoRanges),
        },
        _ => Some(ContAnswer::Absent),
    }
}

fn closing_refusal_with(
    tables: &Tables,
    ranges: &Ranges,
    range: u32,
    devices: &[u8],
) -> Option<ContAnswer>
    ensures { result ≡ closing_refusal tables.now ranges.now range devices.now }
{
    if range < tables.cursor {
        return None;
    }
    if range != tables.cursor || range >= ranges.len() {
        return Some(ContAnswer::StillOpen(tables.cursor));
    }
    let greatest = tables.points.greatest(range);
    match not_acked(&tables.points, range, greatest, devices) {
        Some(device) => Some(ContAnswer::NotAcked(device)),
        None => match later_row(tables, ranges, range, greatest) {
            Some(rowid) => Some(ContAnswer::Later(rowid)),
            None => None,
        },
    }
}

/// The first of the devices that has no point of the range, or one below this number.
fn not_acked(points: &Points, range: u32, rowid: u64, devices: &[u8]) -> Option<u8>
    ensures { result ≡ find (λ device. not (has_point points.now range rowid device)) devices.now }
{
    devices
        .iter()
        .find(|device| !has_point(points, range, rowid, **device))
        .copied()
}

fn has_point(points: &Points, range: u32, rowid: u64, device: u8) -> bool
    ensures { result ≡ has_point points.now range rowid device }
{
    match points.get(range, device) {
        Some(kept) => kept >= rowid,
        None => false,
    }
}

/// The least number of a row of the range that is above this one.
fn later_row(tables: &Tables, ranges: &Ranges, range: u32, rowid: u64) -> Option<u64>
    ensures { result ≡ option_map (λ n. n.rowid) (find (is_of_range ranges.now range rowid) tables.now.rows.list) }
{
    for (number, row) in tables.rows.iter() {
        if is_of_range(ranges, range, rowid, number, row) {
            return Some(number);
        }
    }
    None
}

fn emptying_refusal(tables: &Option<Tables>) -> Option<ContAnswer>
    ensures { result ≡ refusal_over tables.now (λ t. refusal_with t.ranges (λ ranges. emptying_refusal t ranges)) }
{
    match tables {
        Some(present) if is_present(tables) => match &present.ranges {
            Some(ranges) if present.cursor < ranges.len() => {
                Some(ContAnswer::StillOpen(present.cursor))
            }
            Some(_) => None,
            None => Some(ContAnswer::NoRanges),
        },
        _ => Some(ContAnswer::Absent),
    }
}

fn sync_refusal(tables: &Option<Tables>) -> Option<ContAnswer>
    ensures { result ≡ sync_refusal tables.now }
{
    if is_present(tables) {
        None
    } else {
        Some(ContAnswer::Absent)
    }
}

/// The row that creates the container, where it is absent.
pub(crate) fn creator<'a>(
    tables: &Option<Tables>,
    place: &Place,
    rows: &'a [Row],
) -> Option<&'a Row>
    ensures { option_copied result ≡ creator tables.now place.now rows.now }
{
    if !is_present(tables) && is_dotted(place) {
        first_live(rows)
    } else {
        None
    }
}

fn first_live(rows: &[Row]) -> Option<&Row>
    ensures { option_copied result ≡ first_live rows.now }
{
    rows.iter().find(|row| !row.deleted)
}
