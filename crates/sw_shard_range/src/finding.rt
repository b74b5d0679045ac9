ghost use Rattle.std.specs.Prelude.{◌≡◌, ◌≤◌, [], ◌∷◌, IfOk, MatchOption};
ghost use Rattle.sw_shard_range.specs.Bounds.{inner_bounds, names_left};

use std::alloc::Global;
use sw_outside::{Bytes, NoMemory};
use sw_rows::{NamedRows, Row, Rows};

/// How many bounds there are at most: they make one range more, and there are fewer than 2^32 of these.
const MOST: usize = 4_294_967_294;

/// The bounds at which the rows are cut into shards of so many live names each, the last shard of no more: each name that is the last of its shard and has
/// a live name behind it. Where there are more than 4,294,967,294 of these, the first of them. Or [`NoMemory`].
///
/// Its time grows with the number of rows.
pub fn find(alloc: Global, rows: &Rows, per_shard: u64) -> Result<Vec<Bytes>, NoMemory>
    requires { 1 ≤ per_shard }
    ensures { IfOk result (λ bounds. bounds.items ≡ inner_bounds per_shard rows.now.list) }
{
    let mut left = rows.between(alloc, b"", b"\xff")?;
    let mut bounds = Vec::new(alloc);
    let mut come = 0;
    let mut next = next_live(&mut left);
    while let Some(row) = next {
        if bounds.len() == MOST {
            return Ok(bounds);
        }
        next = next_live(&mut left);
        come += 1;
        if come == per_shard && next.is_some() {
            bounds.push(Bytes::copy(alloc, row.name.as_slice())?)?;
            come = 0;
        }
    }
    Ok(bounds)
}

/// Takes the next row that isn't deleted, and all before it.
fn next_live<'a>(left: &mut NamedRows<'a>) -> Option<&'a Row>
    ensures { MatchOption result ((names_left left.old ≡ []) × (left.new ≡ [])) (λ row. names_left left.old ≡ row.now.name ∷ names_left left.new) }
{
    while let Some(row) = left.first() {
        if !row.deleted {
            return Some(row);
        }
    }
    None
}
