ghost use Rattle.std.specs.Prelude.{◌≡◌, true, length, IfOk, Some};
ghost use Rattle.sw_listing.specs.Asking.{rolled_text};
ghost use Rattle.sw_listing.specs.Walking.{above_all, IsLower, IsUpper};

use crate::query::Query;
use crate::rolled::rolled_size;
use std::alloc::Global;
use sw_outside::NoMemory;

/// Bounds between which all names lie that a query lists: at or above the one, and below the other.
#[derive(Debug, Drop)]
pub(crate) struct Span {
    pub(crate) lower: Vec<u8>,
    pub(crate) upper: Vec<u8>,
}

impl Span {
    /// The bounds of a query: of its prefix and its markers, whichever are closer.
    pub(crate) fn of(alloc: Global, query: &Query) -> Result<Span, NoMemory>
        ensures lower { IfOk result (λ span. IsLower query.now span.lower.items) }
        ensures upper { IfOk result (λ span. IsUpper query.now span.upper.items) }
    {
        Ok(Span {
            lower: lower_of(alloc, query)?,
            upper: upper_of(alloc, query)?,
        })
    }
}

fn lower_of(alloc: Global, query: &Query) -> Result<Vec<u8>, NoMemory>
    ensures { IfOk result (λ lower. IsLower query.now lower.items) }
{
    let marker = marker_below(alloc, query)?;
    let prefix = query.prefix.as_slice();
    if prefix.cmp(marker.as_slice()).is_lt() {
        Ok(marker)
    } else {
        Ok(Vec::from_slice(alloc, prefix)?)
    }
}

/// The bound that the markers set below the names. Where names are rolled up to the marker, none of them is listed.
fn marker_below(alloc: Global, query: &Query) -> Result<Vec<u8>, NoMemory>
    ensures { IfOk result (λ lower. IsLower query.now lower.items) }
{
    if query.reverse {
        Ok(Vec::from_slice(alloc, query.end_marker.as_slice())?)
    } else if is_rolled_up_to(query) {
        above_all(alloc, query.marker.as_slice())
    } else {
        Ok(Vec::from_slice(alloc, query.marker.as_slice())?)
    }
}

/// Whether the marker is what names are rolled up to.
fn is_rolled_up_to(query: &Query) -> bool
    ensures { result ≡ true → rolled_text query.now.delimiter (length query.now.prefix) query.now.marker ≡ Some query.now.marker }
{
    let marker = query.marker.as_slice();
    let behind = query.prefix.as_slice().len();
    let Some(delimiter) = query.delimiter else {
        return false;
    };
    if marker.len() < behind {
        return false;
    }
    match rolled_size(marker, behind, delimiter) {
        Some(size) => size == marker.len(),
        None => false,
    }
}

fn upper_of(alloc: Global, query: &Query) -> Result<Vec<u8>, NoMemory>
    ensures { IfOk result (λ upper. IsUpper query.now upper.items) }
{
    let marker = if query.reverse {
        query.marker.as_slice()
    } else {
        query.end_marker.as_slice()
    };
    let above = above_all(alloc, query.prefix.as_slice())?;
    if marker.is_empty() || above.as_slice().cmp(marker).is_lt() {
        Ok(above)
    } else {
        Ok(Vec::from_slice(alloc, marker)?)
    }
}

/// A text above all names that begin with this one: names are UTF-8, which has no byte 255.
pub(crate) fn above_all(alloc: Global, text: &[u8]) -> Result<Vec<u8>, NoMemory>
    ensures { IfOk result (λ above. above.items ≡ above_all text.now) }
{
    let mut above = Vec::from_slice(alloc, text)?;
    above.push(255)?;
    Ok(above)
}
