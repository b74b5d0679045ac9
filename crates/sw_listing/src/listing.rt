ghost use Rattle.std.specs.Prelude.{◌≡◌, IfOk};
ghost use Rattle.sw_listing.specs.Listing.{listing};

use crate::entry::Entries;
use crate::query::Query;
use crate::shown::Shown;
use crate::span::Span;
use crate::walking::{beyond, next_shown};
use std::alloc::Global;
use sw_outside::NoMemory;
use sw_rows::Rows;

/// The entries that answer a query over these rows, or [`NoMemory`].
///
/// It begins at the query's bounds and ends with its limit, and passes over the names that are rolled up to one text at
/// once. So its time grows with the logarithm of the number of rows, with what it answers, and with the deleted rows among
/// the names that it goes over.
pub fn list(alloc: Global, rows: &Rows, query: &Query) -> Result<Entries, NoMemory>
    ensures { IfOk result (λ entries. entries ≡ listing query.now rows.now.list) }
{
    let span = Span::of(alloc, query)?;
    let mut left = rows.between(alloc, span.lower.as_slice(), span.upper.as_slice())?;
    let mut entries = Vec::new(alloc);
    while entries.len() < query.limit as usize {
        let Some(one) = next_shown(query, &mut left) else {
            return Ok(entries.into());
        };
        entries.push(one.copy(alloc)?)?;
        if let Shown::Subdir(rolled) = one {
            left = beyond(alloc, rows, query.reverse, &span, rolled.text)?;
        }
    }
    Ok(entries.into())
}
