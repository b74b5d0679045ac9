ghost use Rattle.std.specs.Prelude.{◌≡◌, ◌<◌, ◌≤◌, ◌^◌, ◌-◌, ◌++◌, ◌∷◌, [], ◌≢◌, All, length, max, true, IsTrue, IfOk, OnOk, OnErr};
ghost use Rattle.std.specs.Arc.{arc_value};
ghost use Rattle.std.specs.Option.{option_copied, option_map};
ghost use Rattle.sw_rows.specs.Left.{rows_left};
ghost use Rattle.sw_rows.specs.Names.{ListsBetween};
ghost use Rattle.sw_rows.specs.Rows.{can_restore, find_named, fits, merged, no_rows, no_rows_at, number_named, restored, rows_above, with_row};
ghost use Rattle.sw_rows.specs.Rows.{without, IsListed, IsRising};
ghost use Rattle.sw_rows.specs.Sums.{bytes_of, count_of, hash_of};

use crate::index::Index;
use crate::named_rows::NamedRows;
use crate::numbers::Numbers;
use crate::row::Row;
use crate::rows_iter::RowsIter;
use crate::sums::Sums;
use std::alloc::Global;
use std::marker::Model;
use std::sync::Arc;
use sw_outside::NoMemory;

/// The rows of a container, one for each name, and the greatest number (ROWID) given out. Contracts see the rows in the
/// order of their numbers, and that greatest number.
///
/// Numbers begin at 1, rise by one and are used once. The time of a call for one row grows with the logarithm of the number
/// of rows; hash, count and bytes run along, so asking for them costs nothing.
#[derive(Debug, Drop)]
pub struct Rows {
    index: Index,
    top: u64,
    sums: Sums,
}

impl Model for Rows {
    ghost use Rattle.sw_rows.specs.Rows.{Listed, IsListed};
    ghost use Rattle.sw_rows.specs.Running.{AreSums};

    ghost Value = { Listed };

    ghost view = { λ r. record { list = r.index; top = r.top } };

    ghost invariant = { λ r. IsListed (record { list = r.index; top = r.top }) × AreSums r.sums r.index };
}

impl Rows {
    /// No rows, and no number given out. It takes no memory.
    pub fn empty(alloc: Global) -> Rows
        ensures { result ≡ no_rows }
    {
        Rows::empty_at(alloc, 0)
    }

    /// No rows, where `top` is the greatest number given out. It takes no memory.
    pub fn empty_at(alloc: Global, top: u64) -> Rows
        ensures { result ≡ no_rows_at top }
    {
        Rows {
            index: Index::empty(alloc),
            top,
            sums: Sums::NONE,
        }
    }

    /// Puts a row behind all others under a number that was given out before, as one who reads rows from where they are kept
    /// does. It answers false, and changes nothing, where the number is 0, is above the greatest given out or isn't above
    /// that of every row, or where a row has the name.
    ///
    /// After [`NoMemory`], which comes only of a row that can be put behind them, the rows are what they were.
    pub fn restore(&mut self, alloc: Global, rowid: u64, row: Row) -> Result<bool, NoMemory>
        ensures ok { IfOk result (λ restored. restored ≡ can_restore self.old rowid row) }
        ensures rows { IfOk result (λ _. self.new ≡ restored self.old rowid row) }
        ensures err { OnErr result (self.new ≡ self.old) }
        ensures starved { OnErr result (can_restore self.old rowid row ≡ true) }
    {
        if !self.can_restore(rowid, &row) {
            return Ok(false);
        }
        self.put(alloc, rowid, Arc::new(alloc, row)?)?;
        Ok(true)
    }

    fn can_restore(&self, rowid: u64, row: &Row) -> bool
        ensures { result ≡ can_restore self.now rowid row.now }
    {
        rowid > 0
            && rowid <= self.top
            && self.index.is_above(rowid)
            && self.index.get(row.name.as_slice()).is_none()
    }

    /// Puts the row in, under the next number, where the present row of its name doesn't count as much; that one is gone.
    /// It answers whether it did so.
    ///
    /// After [`NoMemory`], which comes only of a row that is to be put in, the rows are what they were.
    pub fn merge(&mut self, alloc: Global, row: Row) -> Result<bool, NoMemory>
        requires { IsTrue (fits (find_named self.old.list row.name) row) → self.old.top < 2 ^ 64 - 1 }
        ensures ok { IfOk result (λ changed. changed ≡ fits (find_named self.old.list row.name) row) }
        ensures rows { IfOk result (λ _. self.new ≡ merged self.old row) }
        ensures err { OnErr result (self.new ≡ self.old) }
        ensures starved { OnErr result (fits (find_named self.old.list row.name) row ≡ true) }
    {
        if !self.takes(&row) {
            return Ok(false);
        }
        self.replace(alloc, row)?;
        Ok(true)
    }

    /// Puts a row that would be put in ([`Rows::takes`]) in place of the one of its name, under the next number.
    ///
    /// After [`NoMemory`] the rows are what they were.
    pub fn replace(&mut self, alloc: Global, row: Row) -> Result<(), NoMemory>
        requires fits { IsTrue (fits (find_named self.old.list row.name) row) }
        requires room { self.old.top < 2 ^ 64 - 1 }
        ensures rows { OnOk result (self.new ≡ with_row self.old row) }
        ensures err { OnErr result (self.new ≡ self.old) }
    {
        self.put(alloc, self.top + 1, Arc::new(alloc, row)?)
    }

    /// Puts the row behind all others under this number, and takes away the one that had its name.
    fn put(&mut self, alloc: Global, rowid: u64, row: Arc<Row, Global>) -> Result<(), NoMemory>
        requires positive { 0 < rowid }
        requires above { All (λ n. n.rowid < rowid) self.old.list }
        ensures list { OnOk result (self.new.list ≡ without (arc_value row).name self.old.list ++ record { rowid = rowid; row = arc_value row } ∷ []) }
        ensures top { OnOk result (self.new.top ≡ max self.old.top rowid) }
        ensures err { OnErr result (self.new ≡ self.old) }
    {
        let _ = self.index.len();
        let with = self.sums.with(&row);
        self.sums = match self.index.put(alloc, rowid, row)? {
            Some(gone) => with.without(&gone),
            None => with,
        };
        self.top = self.top.max(rowid);
        Ok(())
    }

    /// Whether a row would be put in: no row of its name counts as much.
    pub fn takes(&self, row: &Row) -> bool
        ensures { result ≡ fits (find_named self.now.list row.now.name) row.now }
    {
        match self.index.get(row.name.as_slice()) {
            Some(present) => !present.is_at_least(row),
            None => true,
        }
    }

    /// The row of this name, deleted or not.
    pub fn get(&self, name: &[u8]) -> Option<&Row>
        ensures { option_copied result ≡ find_named self.now.list name.now }
    {
        self.index.get(name)
    }

    /// The number (ROWID) of the row of this name.
    pub fn number_of(&self, name: &[u8]) -> Option<u64>
        ensures { result ≡ number_named self.now.list name.now }
    {
        self.index.number_of(name)
    }

    /// The row of this name, deleted or not, with its number (ROWID): one search for both.
    pub fn find(&self, name: &[u8]) -> Option<(u64, &Row)>
        ensures number { option_map (λ f. f.0) result ≡ number_named self.now.list name.now }
        ensures row { option_map (λ f. f.1.now) result ≡ find_named self.now.list name.now }
    {
        self.index.find(name)
    }

    /// All rows with their numbers, in the order of these.
    pub fn iter(&self) -> RowsIter<'_>
        ensures rows { rows_left result ≡ self.now.list }
        ensures rule { IsListed self.now }
    {
        self.index.iter()
    }

    /// The rows whose names lie at or above the one bound and below the other, in byte order of their names, or [`NoMemory`].
    ///
    /// Its time grows with the logarithm of the number of rows, and so does that of the first row that is taken.
    pub fn between(
        &self,
        alloc: Global,
        lower: &[u8],
        upper: &[u8],
    ) -> Result<NamedRows<'_>, NoMemory>
        ensures rows { IfOk result (λ rows. ListsBetween lower.now upper.now self.now.list rows) }
        ensures rule { IsListed self.now }
    {
        self.index.between(alloc, lower, upper)
    }

    /// Copies of the rows above a number (ROWID), in the order of their numbers, or [`NoMemory`], which comes only where there
    /// is such a row.
    ///
    /// Its time grows with the logarithm of the number of rows and with the rows that it gives.
    pub fn above(&self, alloc: Global, rowid: u64) -> Result<Vec<Row>, NoMemory>
        ensures ok { IfOk result (λ rows. rows.items ≡ rows_above rowid self.now.list) }
        ensures starved { OnErr result (rows_above rowid self.now.list ≢ []) }
    {
        self.index.copies_above(alloc, rowid)
    }

    /// The greatest number given out; 0 where there is none.
    pub fn top(&self) -> u64
        ensures { result ≡ self.now.top }
    {
        self.top
    }

    /// The rows' hash: that of each row, live or deleted, is the MD5 of `NAME-TIME` as a big-endian number, and all of them
    /// are put together by XOR. No rows have 0.
    pub fn hash(&self) -> u128
        ensures { result ≡ hash_of self.now.list }
    {
        self.sums.hash
    }

    /// How many rows there are, deleted ones too.
    pub fn len(&self) -> usize
        ensures value { result ≡ length self.now.list }
        ensures small { result < 2 ^ 63 }
    {
        self.index.len()
    }

    /// How many rows are live.
    pub fn count(&self) -> u64
        ensures { result ≡ count_of self.now.list }
    {
        self.sums.count
    }

    /// How many bytes the live objects have together, at most 2^64 - 1.
    pub fn bytes(&self) -> u64
        ensures { result ≡ bytes_of self.now.list }
    {
        self.sums.capped_bytes()
    }

    /// Rows that are equal to these, or [`NoMemory`].
    pub fn copy(&self, alloc: Global) -> Result<Rows, NoMemory>
        ensures { IfOk result (λ copy. copy ≡ self.now) }
    {
        Rows::of(alloc, self.index.numbers(), self.top)
    }

    /// These rows with an index of names, where `top` is the greatest number given out, or [`NoMemory`]. The rows themselves are
    /// shared.
    pub(crate) fn of(alloc: Global, numbers: &Numbers, top: u64) -> Result<Rows, NoMemory>
        requires { IsListed (record { list = numbers.now; top = top }) }
        ensures { IfOk result (λ rows. rows ≡ record { list = numbers.now; top = top }) }
    {
        let mut rows = Rows::empty_at(alloc, top);
        for (rowid, row) in numbers.shared() {
            rows.put(alloc, rowid, Arc::try_clone(row)?)?;
        }
        Ok(rows)
    }
}
