ghost use Rattle.std.specs.Prelude.{◌≡◌, ◌≤◌, All, None, IfOk, OnOk, OnErr};
ghost use Rattle.sw_keeper.specs.Changes.{begun};
ghost use Rattle.sw_keeper.specs.Drafts.{drafted, spared_of, IsDraft};
ghost use Rattle.sw_rows.specs.Exchanging.{exchanged};
ghost use Rattle.sw_rows.specs.Rows.{IsListed, IsRising};

use crate::draft::Draft;
use crate::tables::{Tables, copy_of};
use std::alloc::Global;
use std::marker::Model;
use sw_outside::NoMemory;
use sw_rows::{Numbered, NumberedRows};
use sw_shard_range::Ranges;
use sw_sync::Points;
use sw_timestamp::Timestamp;

/// Tables as a keeper in memory holds them: it looks for no name, so of the rows it has the numbers alone. Contracts see the
/// tables.
#[derive(Debug, Drop)]
pub(crate) struct Kept {
    put_time: Timestamp,
    delete_time: Option<Timestamp>,
    rows: NumberedRows,
    ranges: Option<Ranges>,
    cursor: u32,
    points: Points,
    syncs: Points,
    emptied: bool,
}

impl Model for Kept {
    ghost use Rattle.sw_keeper.specs.declared.tables.Tables.{Tables};

    ghost Value = { Tables };

    ghost view = { λ k. record {
      put_time = k.put_time;
      delete_time = k.delete_time;
      rows = k.rows;
      ranges = k.ranges;
      cursor = k.cursor;
      points = k.points;
      syncs = k.syncs;
      emptied = k.emptied;
    } };
}

impl Kept {
    /// The earliest time, and no rows. It takes no memory.
    pub(crate) fn begun(alloc: Global) -> Kept
        ensures { result ≡ begun 0 None }
    {
        Kept {
            put_time: Timestamp::from_units(0).unwrap(),
            delete_time: None,
            rows: NumberedRows::empty(alloc),
            ranges: None,
            cursor: 0,
            points: Points::new(alloc),
            syncs: Points::new(alloc),
            emptied: false,
        }
    }

    pub(crate) fn put_time(&self) -> Timestamp
        ensures { result ≡ self.now.put_time }
    {
        self.put_time
    }

    pub(crate) fn delete_time(&self) -> Option<Timestamp>
        ensures { result ≡ self.now.delete_time }
    {
        self.delete_time
    }

    pub(crate) fn cursor(&self) -> u32
        ensures { result ≡ self.now.cursor }
    {
        self.cursor
    }

    pub(crate) fn emptied(&self) -> bool
        ensures { result ≡ self.now.emptied }
    {
        self.emptied
    }

    pub(crate) fn points(&self) -> &Points
        ensures { result.now ≡ self.now.points }
    {
        &self.points
    }

    pub(crate) fn syncs(&self) -> &Points
        ensures { result.now ≡ self.now.syncs }
    {
        &self.syncs
    }

    /// The greatest number given out.
    pub(crate) fn top(&self) -> u64
        ensures top { result ≡ self.now.rows.top }
        ensures rule { IsListed self.now.rows }
    {
        self.rows.top()
    }

    /// The tables, with an index of names, or [`NoMemory`].
    pub(crate) fn tables(&self, alloc: Global) -> Result<Tables, NoMemory>
        ensures { IfOk result (λ tables. tables ≡ self.now) }
    {
        Ok(Tables {
            put_time: self.put_time,
            delete_time: self.delete_time,
            rows: self.rows.indexed(alloc)?,
            ranges: copy_of(alloc, &self.ranges)?,
            cursor: self.cursor,
            points: self.points.copy()?,
            syncs: self.syncs.copy()?,
            emptied: self.emptied,
        })
    }

    /// Makes what is drafted, or nothing where memory runs out.
    pub(crate) fn make(&mut self, alloc: Global, draft: Draft) -> Result<(), NoMemory>
        requires { IsDraft self.old draft }
        ensures ok { OnOk result (self.new ≡ drafted self.old draft) }
        ensures err { OnErr result (self.new ≡ self.old) }
    {
        let Draft {
            put_time,
            delete_time,
            clears,
            numbers,
            rows,
            top,
            ranges,
            cursor,
            points,
            syncs,
            emptied,
        } = draft;
        exchange(alloc, &mut self.rows, clears, &numbers, rows, top)?;
        self.put_time = put_time;
        self.delete_time = delete_time;
        self.cursor = cursor;
        self.emptied = emptied;
        if ranges.is_some() {
            self.ranges = ranges;
        }
        if let Some(points) = points {
            self.points = points;
        }
        if let Some(syncs) = syncs {
            self.syncs = syncs;
        }
        Ok(())
    }
}

/// Takes the rows of these numbers away, or all where it `clears`, and puts others behind what is left; nothing where memory runs out.
fn exchange(
    alloc: Global,
    present: &mut NumberedRows,
    clears: bool,
    numbers: &[u64],
    rows: Vec<Numbered>,
    top: u64,
) -> Result<(), NoMemory>
    requires given { All (λ rowid. rowid ≤ present.old.top) numbers.now }
    requires rising { IsRising present.old.top rows.items }
    requires listed { IsListed (exchanged (spared_of clears present.old) numbers.now rows.items top) }
    ensures rows { OnOk result (present.new ≡ exchanged (spared_of clears present.old) numbers.now rows.items top) }
    ensures err { OnErr result (present.new ≡ present.old) }
{
    if clears {
        let mut left = NumberedRows::empty(alloc);
        left.exchange(alloc, &[], rows, top)?;
        *present = left;
        Ok(())
    } else {
        present.exchange(alloc, numbers, rows, top)
    }
}
