ghost use Rattle.std.specs.Prelude.{◌≡◌, [], IfOk, MatchOption};
ghost use Rattle.std.specs.Option.{option_map};
ghost use Rattle.sw_listing.specs.Showing.{shown_entry};
ghost use Rattle.sw_listing.specs.Walking.{AreBeyond, IsNext, Takes};

use crate::query::Query;
use crate::shown::{Shown, show};
use crate::span::{Span, above_all};
use std::alloc::Global;
use sw_outside::NoMemory;
use sw_rows::{NamedRows, Row, Rows};

/// What the next row that is left is listed as, in the direction of the query, after all that aren't listed.
pub(crate) fn next_shown<'a>(query: &Query, left: &mut NamedRows<'a>) -> Option<Shown<'a>>
    ensures { IsNext query.now left.old (option_map shown_entry result) left.new }
{
    while let Some(row) = take(left, query.reverse) {
        if let Some(one) = show(query, row) {
            return Some(one);
        }
    }
    None
}

/// Takes the next row in the direction of a listing.
fn take<'a>(left: &mut NamedRows<'a>, backwards: bool) -> Option<&'a Row>
    ensures { MatchOption result ((left.old ≡ []) × (left.new ≡ [])) (λ row. Takes backwards left.old row.now left.new) }
{
    if backwards { left.last() } else { left.first() }
}

/// The rows behind all whose names are rolled up to this text, in the direction of a listing: one look by name passes over
/// them, however many they are.
pub(crate) fn beyond<'a>(
    alloc: Global,
    rows: &'a Rows,
    backwards: bool,
    span: &Span,
    text: &[u8],
) -> Result<NamedRows<'a>, NoMemory>
    ensures { IfOk result (λ left. AreBeyond backwards span.now.lower.items span.now.upper.items text.now rows.now.list left) }
{
    if backwards {
        rows.between(alloc, span.lower.as_slice(), text)
    } else {
        let above = above_all(alloc, text)?;
        rows.between(alloc, above.as_slice(), span.upper.as_slice())
    }
}
