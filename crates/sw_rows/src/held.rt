use crate::row::Row;
use std::alloc::Global;
use std::sync::Arc;

/// A row as it is found by its name: its number, and the row itself, which it shares with the map by number.
#[derive(Debug, Drop)]
pub(crate) struct Held {
    pub(crate) rowid: u64,
    pub(crate) row: Arc<Row, Global>,
}
