ghost use Rattle.std.specs.Prelude.{IfOk};
ghost use Rattle.std.specs.Str.{IsUtf8};

use std::alloc::Global;
use std::process::Abort;
use std::test::Fail;
use sw_outside::{Bytes, NoMemory};
use sw_rows::{Row, Rows};
use sw_timestamp::Timestamp;

/// The MD5 of the three bytes `abc`.
const ETAG: [u8; 16] = [
    0x90, 0x01, 0x50, 0x98, 0x3c, 0xd2, 0x4f, 0xb0, 0xd6, 0x96, 0x3f, 0x7d, 0x28, 0xe1, 0x7f, 0x72,
];

/// A row of this name at this many units of 10 microseconds.
pub fn row(
    alloc: Global,
    name: &str,
    units: u64,
    size: u64,
    deleted: bool,
) -> Result<Row, NoMemory> {
    Ok(Row {
        name: text(alloc, name)?,
        created_at: Timestamp::from_units(units).unwrap_or(Timestamp::from_units(0).unwrap()),
        size,
        content_type: text(alloc, "text/plain")?,
        etag: ETAG,
        deleted,
    })
}

/// The bytes of a text.
fn text(alloc: Global, text: &str) -> Result<Bytes, NoMemory>
    ensures { IfOk result (λ bytes. ∥ IsUtf8 bytes ∥₁) }
{
    let bytes = Bytes::copy(alloc, text.as_bytes())?;
    Ok(bytes)
}

/// Whether these are the names of the rows, in order.
pub fn are_named(rows: &[Row], names: &[&str]) -> bool {
    rows.len() == names.len()
        && rows
            .iter()
            .zip(names)
            .all(|(row, name)| row.name.as_slice() == name.as_bytes())
}

/// Merges a row, and tells whether it was put in.
pub fn merge(rt: &impl Abort, alloc: Global, rows: &mut Rows, row: Row) -> Result<bool, Fail> {
    assert!(rt; rows.top() < 1000);
    Ok(rows.merge(alloc, row)?)
}
