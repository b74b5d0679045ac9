use crate::row::Row;

/// A row and its number, the ROWID.
#[derive(Debug, Drop)]
pub struct Numbered {
    pub rowid: u64,
    pub row: Row,
}
