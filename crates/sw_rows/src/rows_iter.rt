use crate::row::Row;
use std::alloc::Global;
use std::collections::btree_map::Iter;
use std::sync::Arc;

/// The rows with their numbers, in the order of these: what [`crate::Rows::iter`] gives.
#[derive(Debug, Drop)]
pub struct RowsIter<'a> {
    pub(crate) entries: Iter<'a, u64, Arc<Row, Global>>,
}

impl<'a> Iterator for RowsIter<'a> {
    ghost use Rattle.std.specs.Iterator.{YieldsFirstBy, item_count};
    ghost use Rattle.sw_rows.specs.Left.{numbered, rows_left};

    type Item = (u64, &'a Row);

    ghost next_gives = { YieldsFirstBy numbered rows_left };

    ghost remaining = { item_count rows_left };

    fn next(&mut self) -> Option<(u64, &'a Row)> {
        match self.entries.next() {
            Some((rowid, row)) => Some((*rowid, &**row)),
            None => None,
        }
    }
}

/// The same, as rows that can be shared.
#[derive(Debug, Drop)]
pub(crate) struct SharedRows<'a> {
    pub(crate) entries: Iter<'a, u64, Arc<Row, Global>>,
}

impl<'a> Iterator for SharedRows<'a> {
    ghost use Rattle.std.specs.Iterator.{YieldsFirstBy, item_count};
    ghost use Rattle.sw_rows.specs.Left.{shared, shared_left};

    type Item = (u64, &'a Arc<Row, Global>);

    ghost next_gives = { YieldsFirstBy shared shared_left };

    ghost remaining = { item_count shared_left };

    fn next(&mut self) -> Option<(u64, &'a Arc<Row, Global>)> {
        match self.entries.next() {
            Some((rowid, row)) => Some((*rowid, row)),
            None => None,
        }
    }
}
