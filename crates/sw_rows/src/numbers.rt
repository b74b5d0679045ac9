ghost use Rattle.std.specs.Prelude.{◌≡◌, ◌<◌, ◌^◌, ◌++◌, ◌∷◌, [], ◌≢◌, IfOk, OnOk, OnErr, All, length, nat_lt};
ghost use Rattle.std.specs.Arc.{arc_value};
ghost use Rattle.std.specs.List.{list_all};
ghost use Rattle.std.specs.Option.{option_map};
ghost use Rattle.sw_rows.specs.Index.{but, row_numbered};
ghost use Rattle.sw_rows.specs.Left.{rows_left, shared_left};
ghost use Rattle.sw_rows.specs.Rows.{rows_above, IsRising};

use crate::row::Row;
use crate::rows_iter::{RowsIter, SharedRows};
use std::alloc::Global;
use std::collections::BTreeMap;
use std::marker::Model;
use std::ops::Bound;
use std::sync::Arc;
use sw_outside::NoMemory;

/// Rows in the order of their numbers. Contracts see them so.
///
/// Each row lies in memory of its own, so that the map's nodes are small and who finds it otherwise can share it. The time of a
/// call grows with the logarithm of the number of rows.
#[derive(Debug, Drop)]
pub(crate) struct Numbers {
    rows: BTreeMap<u64, Arc<Row, Global>>,
}

impl Model for Numbers {
    ghost use Rattle.std.specs.Prelude.{List};
    ghost use Rattle.sw_rows.specs.Index.{rows_of};
    ghost use Rattle.sw_rows.specs.Rows.{IsRising};
    ghost use Rattle.sw_rows.specs.declared.numbered.Numbered.{Numbered};

    ghost Value = { List Numbered };

    ghost view = { λ n. rows_of n.rows.entries };

    ghost invariant = { λ n. IsRising 0 (rows_of n.rows.entries) };
}

impl Numbers {
    /// No rows. It takes no memory.
    pub(crate) fn empty(alloc: Global) -> Numbers
        ensures { result ≡ [] }
    {
        Numbers {
            rows: BTreeMap::new(alloc),
        }
    }

    /// How many rows there are.
    pub(crate) fn len(&self) -> usize
        ensures value { result ≡ length self.now }
        ensures small { result < 2 ^ 63 }
    {
        self.rows.len()
    }

    /// Whether a number is above those of all rows.
    pub(crate) fn is_above(&self, rowid: u64) -> bool
        ensures { result ≡ list_all (λ n. nat_lt n.rowid rowid) self.now }
    {
        match self.rows.last_key_value() {
            Some((last, _)) => *last < rowid,
            None => true,
        }
    }

    /// All rows with their numbers, in the order of these.
    pub(crate) fn iter(&self) -> RowsIter<'_>
        ensures rows { rows_left result ≡ self.now }
        ensures rising { IsRising 0 self.now }
    {
        RowsIter {
            entries: self.rows.iter(),
        }
    }

    /// The same, as rows that can be shared.
    pub(crate) fn shared(&self) -> SharedRows<'_>
        ensures rows { shared_left result ≡ self.now }
        ensures rising { IsRising 0 self.now }
    {
        SharedRows {
            entries: self.rows.iter(),
        }
    }

    /// Copies of the rows above a number, in the order of their numbers. Memory is wanted only where there is such a row.
    pub(crate) fn copies_above(&self, alloc: Global, rowid: u64) -> Result<Vec<Row>, NoMemory>
        ensures ok { IfOk result (λ rows. rows.items ≡ rows_above rowid self.now) }
        ensures starved { OnErr result (rows_above rowid self.now ≢ []) }
    {
        let mut rows = Vec::new(alloc);
        for (_, row) in self.rows.range((Bound::Excluded(rowid), Bound::Unbounded)) {
            rows.push(row.copy(alloc)?)?;
        }
        Ok(rows)
    }

    /// Puts the row behind all others. After [`NoMemory`] the rows are what they were.
    pub(crate) fn push(&mut self, rowid: u64, row: Arc<Row, Global>) -> Result<(), NoMemory>
        requires positive { 0 < rowid }
        requires above { All (λ n. n.rowid < rowid) self.old }
        ensures rows { OnOk result (self.new ≡ self.old ++ record { rowid = rowid; row = arc_value row } ∷ []) }
        ensures err { OnErr result (self.new ≡ self.old) }
        ensures rising { IsRising 0 self.old }
    {
        let _ = self.rows.insert(rowid, row)?;
        Ok(())
    }

    /// Takes the row of this number away, and answers it. It takes no memory.
    pub(crate) fn cut(&mut self, rowid: u64) -> Option<Arc<Row, Global>>
        ensures gone { option_map arc_value result ≡ row_numbered self.old rowid }
        ensures rows { self.new ≡ but self.old rowid }
        ensures rising { IsRising 0 self.old }
    {
        self.rows.remove(&rowid)
    }
}
