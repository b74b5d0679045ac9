ghost use Rattle.std.specs.Prelude.{◌≡◌, ◌-◌, ◌≤◌, ◌<◌, ◌==◌, ◌∷◌, ◌++◌, [], true, false, IfOk, IfSome, OnErr, OnOk, Some, length, position};
ghost use Rattle.std.specs.Option.{option_copied};
ghost use Rattle.std.specs.Str.{bytes_eq};
ghost use Rattle.sw_listing.specs.Asking.{rolled_text};
ghost use Rattle.sw_shard_listing.specs.Ranges.{after_entries, behind, begun, ends_rolled, has_text, higher, is_this, last_entry, leaves_out, moved};
ghost use Rattle.sw_shard_listing.specs.Ranges.{moved_takes_memory, nearer, next_text};

use std::alloc::Global;
use sw_listing::{Entry, Query};
use sw_outside::{Bytes, NoMemory};

/// The query as it begins: where names are rolled up to the marker, which leaves them out, behind all of these. A query that is
/// moved has another marker, which doesn't leave them out.
///
/// [`NoMemory`] only of a query that has a marker, an end marker or a prefix.
pub fn begun(alloc: Global, query: &Query) -> Result<Query, NoMemory>
    ensures value { IfOk result (λ query_begun. query_begun ≡ begun query.now) }
    ensures starved { OnErr result (has_text query.now ≡ true) }
{
    let marker = if leaves_out(query) {
        with_last(alloc, query.marker.as_slice(), 255)?
    } else {
        copied(alloc, query.marker.as_slice())?
    };
    let end_marker = copied(alloc, query.end_marker.as_slice())?;
    between(alloc, query, marker, end_marker)
}

/// The query, for the names of a range alone: those after `lower`, and up to and with `upper`. An empty text is no bound.
///
/// A bound is written with a byte 0 behind it, since the bound itself may be what names are rolled up to, and as a marker would
/// leave them out.
///
/// [`NoMemory`] only where the query has a marker, an end marker or a prefix, or the range a bound.
pub fn moved(alloc: Global, query: &Query, lower: &[u8], upper: &[u8]) -> Result<Query, NoMemory>
    ensures value { IfOk result (λ query_moved. query_moved ≡ moved query.now lower.now upper.now) }
    ensures starved { OnErr result (moved_takes_memory query.now lower.now upper.now ≡ true) }
{
    let above = next_text(alloc, lower)?;
    let below = next_text(alloc, upper)?;
    let marker = copied(alloc, query.marker.as_slice())?;
    let end_marker = copied(alloc, query.end_marker.as_slice())?;
    if query.reverse {
        between(
            alloc,
            query,
            nearer(marker, below),
            higher(end_marker, above),
        )
    } else {
        between(
            alloc,
            query,
            higher(marker, above),
            nearer(end_marker, below),
        )
    }
}

/// Moves the query on behind entries that were listed, at most as many as it asked for: they count of its limit, and what is
/// rolled up to the last of them isn't asked for again.
///
/// [`NoMemory`] only where the last of them is what names are rolled up to; after it nothing has changed.
pub fn pass(alloc: Global, query: &mut Query, entries: &[Entry]) -> Result<(), NoMemory>
    requires { length entries.now ≤ query.old.limit }
    ensures moved { OnOk result (query.new ≡ after_entries query.old entries.now) }
    ensures starved { OnErr result (ends_rolled entries.now ≡ true) }
    ensures left { OnErr result (query.new ≡ query.old) }
{
    if let Some(Entry::Subdir(text)) = last(entries) {
        query.marker = behind(alloc, query.reverse, text.as_slice())?;
    }
    query.limit = fewer(query.limit, entries.len());
    Ok(())
}

/// The query, with these markers.
fn between(
    alloc: Global,
    query: &Query,
    marker: Bytes,
    end_marker: Bytes,
) -> Result<Query, NoMemory>
    ensures value { IfOk result (λ new. new ≡ record query.now { marker = marker; end_marker = end_marker }) }
    ensures starved { OnErr result ((length query.now.prefix == 0) ≡ false) }
{
    Ok(Query {
        limit: query.limit,
        marker,
        end_marker,
        prefix: copied(alloc, query.prefix.as_slice())?,
        delimiter: query.delimiter,
        reverse: query.reverse,
        json: query.json,
    })
}

/// An equal text. An empty one takes no memory.
fn copied(alloc: Global, text: &[u8]) -> Result<Bytes, NoMemory>
    ensures value { IfOk result (λ copy. copy ≡ text.now) }
    ensures starved { OnErr result ((length text.now == 0) ≡ false) }
{
    if text.is_empty() {
        Ok(Bytes::from(Vec::new(alloc)))
    } else {
        Bytes::copy(alloc, text)
    }
}

/// A text with a byte behind it.
fn with_last(alloc: Global, text: &[u8], byte: u8) -> Result<Bytes, NoMemory>
    ensures { IfOk result (λ longer. longer ≡ text.now ++ byte ∷ []) }
{
    let mut longer = Vec::from_slice(alloc, text)?;
    longer.push(byte)?;
    Ok(longer.into())
}

/// The least text above a bound. No bound stays none, and takes no memory.
fn next_text(alloc: Global, bound: &[u8]) -> Result<Bytes, NoMemory>
    ensures value { IfOk result (λ text. text ≡ next_text bound.now) }
    ensures starved { OnErr result ((length bound.now == 0) ≡ false) }
{
    if bound.is_empty() {
        Ok(Bytes::from(Vec::new(alloc)))
    } else {
        with_last(alloc, bound, 0)
    }
}

/// Behind all names that are rolled up to this text, in the direction of the listing.
fn behind(alloc: Global, backwards: bool, text: &[u8]) -> Result<Bytes, NoMemory>
    ensures { IfOk result (λ marker. marker ≡ behind backwards text.now) }
{
    if backwards {
        Bytes::copy(alloc, text)
    } else {
        with_last(alloc, text, 255)
    }
}

/// Of two bounds that names have to be above, the one that asks for more.
fn higher(one: Bytes, other: Bytes) -> Bytes
    ensures { result ≡ higher one other }
{
    if one.as_slice().cmp(other.as_slice()).is_lt() {
        other
    } else {
        one
    }
}

/// Of two bounds that names have to be below, the one that asks for more.
fn nearer(one: Bytes, other: Bytes) -> Bytes
    ensures { result ≡ nearer one other }
{
    if one.as_slice().is_empty() {
        other
    } else if other.as_slice().is_empty() || one.as_slice().cmp(other.as_slice()).is_lt() {
        one
    } else {
        other
    }
}

/// Whether names are rolled up to the marker itself, and so left out.
fn leaves_out(query: &Query) -> bool
    ensures { result ≡ leaves_out query.now }
{
    match query.delimiter {
        Some(delimiter) => {
            !query.reverse
                && is_rolled(
                    query.marker.as_slice(),
                    query.prefix.as_slice().len(),
                    delimiter,
                )
        }
        None => false,
    }
}

/// Whether the first delimiter behind so many bytes of a text is its last byte.
fn is_rolled(text: &[u8], behind: usize, delimiter: u8) -> bool
    ensures { result ≡ is_this text.now (rolled_text (Some delimiter) behind text.now) }
{
    if behind > text.len() {
        return false;
    }
    match place_of(&text[behind..], delimiter) {
        Some(place) => is_same(text, &text[..behind + place + 1]),
        None => false,
    }
}

/// Where the byte stands first.
fn place_of(bytes: &[u8], byte: u8) -> Option<usize>
    ensures place { result ≡ position (λ b. b == byte) bytes.now }
    ensures there { IfSome result (λ place. place < length bytes.now) }
{
    bytes.iter().position(|other| *other == byte)
}

fn is_same(one: &[u8], other: &[u8]) -> bool
    ensures { result ≡ bytes_eq one.now other.now }
{
    one == other
}

/// The last of some entries.
fn last(entries: &[Entry]) -> Option<&Entry>
    ensures { option_copied result ≡ last_entry entries.now }
{
    entries.last()
}

/// A limit without so many entries.
fn fewer(limit: u32, count: usize) -> u32
    requires { count ≤ limit }
    ensures { result ≡ limit - count }
{
    limit - count as u32
}
