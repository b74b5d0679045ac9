ghost use Rattle.std.specs.Prelude.{◌≡◌, ◌<◌, ◌^◌, ◌++◌, ◌∷◌, [], ◌≢◌, IfOk, OnOk, OnErr, All, false, length, nat_lt};
ghost use Rattle.std.specs.Arc.{arc_value};
ghost use Rattle.std.specs.List.{list_all};
ghost use Rattle.std.specs.Cmp.Lexicographic.{slice_cmp};
ghost use Rattle.std.specs.Option.{option_copied, option_map};
ghost use Rattle.std.specs.Ordering.{is_gt, nat_cmp};
ghost use Rattle.sw_rows.specs.Left.{rows_left};
ghost use Rattle.sw_rows.specs.Names.{ListsBetween};
ghost use Rattle.sw_rows.specs.Rows.{find_named, number_named, rows_above, without, IsNamedOnce, IsRising};

use crate::held::Held;
use crate::named_rows::NamedRows;
use crate::numbers::Numbers;
use crate::row::Row;
use crate::rows_iter::RowsIter;
use std::alloc::Global;
use std::collections::BTreeMap;
use std::marker::Model;
use std::ops::Bound;
use std::sync::Arc;
use sw_outside::NoMemory;

/// Rows in the order of their numbers, found by their names too, of which each has one row. Contracts see the rows in that order.
///
/// A name leads to its row at once: both maps share it. The time of a call grows with the logarithm of the number of rows.
#[derive(Debug, Drop)]
pub(crate) struct Index {
    numbers: Numbers,
    names: BTreeMap<Vec<u8>, Held>,
}

impl Model for Index {
    ghost use Rattle.std.specs.Prelude.{List};
    ghost use Rattle.sw_rows.specs.Index.{AreNames};
    ghost use Rattle.sw_rows.specs.declared.numbered.Numbered.{Numbered};

    ghost Value = { List Numbered };

    ghost view = { λ i. i.numbers };

    ghost invariant = { λ i. AreNames i.numbers i.names.entries };
}

impl Index {
    /// No rows. It takes no memory.
    pub(crate) fn empty(alloc: Global) -> Index
        ensures { result ≡ [] }
    {
        Index {
            numbers: Numbers::empty(alloc),
            names: BTreeMap::new(alloc),
        }
    }

    /// The rows by their numbers alone.
    pub(crate) fn numbers(&self) -> &Numbers
        ensures { result.now ≡ self.now }
    {
        &self.numbers
    }

    /// The number of the row of this name.
    pub(crate) fn number_of(&self, name: &[u8]) -> Option<u64>
        ensures { result ≡ number_named self.now name.now }
    {
        match self.names.get(name) {
            Some(held) => Some(held.rowid),
            None => None,
        }
    }

    /// The row of this name.
    pub(crate) fn get(&self, name: &[u8]) -> Option<&Row>
        ensures { option_copied result ≡ find_named self.now name.now }
    {
        match self.names.get(name) {
            Some(held) => Some(&*held.row),
            None => None,
        }
    }

    /// The row of this name, with its number.
    pub(crate) fn find(&self, name: &[u8]) -> Option<(u64, &Row)>
        ensures number { option_map (λ f. f.0) result ≡ number_named self.now name.now }
        ensures row { option_map (λ f. f.1.now) result ≡ find_named self.now name.now }
    {
        match self.names.get(name) {
            Some(held) => Some((held.rowid, &*held.row)),
            None => None,
        }
    }

    /// How many rows there are.
    pub(crate) fn len(&self) -> usize
        ensures value { result ≡ length self.now }
        ensures small { result < 2 ^ 63 }
    {
        self.numbers.len()
    }

    /// Whether a number is above those of all rows.
    pub(crate) fn is_above(&self, rowid: u64) -> bool
        ensures { result ≡ list_all (λ n. nat_lt n.rowid rowid) self.now }
    {
        self.numbers.is_above(rowid)
    }

    /// All rows with their numbers, in the order of these.
    pub(crate) fn iter(&self) -> RowsIter<'_>
        ensures rows { rows_left result ≡ self.now }
        ensures rising { IsRising 0 self.now }
    {
        self.numbers.iter()
    }

    /// Copies of the rows above a number, in the order of their numbers. Memory is wanted only where there is such a row.
    pub(crate) fn copies_above(&self, alloc: Global, rowid: u64) -> Result<Vec<Row>, NoMemory>
        ensures ok { IfOk result (λ rows. rows.items ≡ rows_above rowid self.now) }
        ensures starved { OnErr result (rows_above rowid self.now ≢ []) }
    {
        self.numbers.copies_above(alloc, rowid)
    }

    /// Puts the row behind all others, and takes away the one that had its name, which is answered.
    ///
    /// After [`NoMemory`] the rows are what they were: a row that was put into the one map is taken out of it where the other
    /// one has no room.
    pub(crate) fn put(
        &mut self,
        alloc: Global,
        rowid: u64,
        row: Arc<Row, Global>,
    ) -> Result<Option<Arc<Row, Global>>, NoMemory>
        requires positive { 0 < rowid }
        requires above { All (λ n. n.rowid < rowid) self.old }
        requires once { IsNamedOnce self.old }
        ensures old { IfOk result (λ old. option_map arc_value old ≡ find_named self.old (arc_value row).name) }
        ensures rows { OnOk result (self.new ≡ without (arc_value row).name self.old ++ record { rowid = rowid; row = arc_value row } ∷ []) }
        ensures err { OnErr result (self.new ≡ self.old) }
    {
        let name = Vec::from_slice(alloc, row.name.as_slice())?;
        let held = Held {
            rowid,
            row: Arc::try_clone(&row)?,
        };
        self.numbers.push(rowid, row)?;
        match self.names.insert(name, held) {
            Ok(Some(old)) => Ok(self.numbers.cut(old.rowid)),
            Ok(None) => Ok(None),
            Err(_) => {
                let _ = self.numbers.cut(rowid);
                Err(NoMemory)
            }
        }
    }

    /// The rows whose names lie at or above the one bound and below the other, in byte order of their names.
    pub(crate) fn between(
        &self,
        alloc: Global,
        lower: &[u8],
        upper: &[u8],
    ) -> Result<NamedRows<'_>, NoMemory>
        ensures { IfOk result (λ rows. ListsBetween lower.now upper.now self.now rows) }
    {
        let start = Vec::from_slice(alloc, lower)?;
        if upper.cmp(lower).is_lt() {
            return Ok(self.part(&start, &start));
        }
        let end = Vec::from_slice(alloc, upper)?;
        Ok(self.part(&start, &end))
    }

    /// The same, where the bounds stand the right way round.
    fn part(&self, start: &Vec<u8>, end: &Vec<u8>) -> NamedRows<'_>
        requires { is_gt (slice_cmp nat_cmp start.now.items end.now.items) ≡ false }
        ensures { ListsBetween start.now.items end.now.items self.now result }
    {
        NamedRows {
            names: self
                .names
                .range((Bound::Included(start), Bound::Excluded(end))),
        }
    }
}
