ghost use Rattle.std.specs.Prelude.{◌≡◌, IfOk, true, ◌≤◌, length};
ghost use Rattle.std.specs.Option.{option_map};
ghost use Rattle.std.specs.Str.{IsUtf8};
ghost use Rattle.sw_listing.specs.Asking.{is_asked};
ghost use Rattle.sw_listing.specs.Listing.{shows};
ghost use Rattle.sw_listing.specs.Showing.{shown_entry};

use crate::entry::Entry;
use crate::query::Query;
use crate::rolled::{Rolled, roll_up};
use crate::text::Text;
use std::alloc::Global;
use sw_outside::{Bytes, NoMemory};
use sw_rows::Row;

/// An entry that isn't copied yet.
#[derive(Clone, Copy, Debug)]
pub(crate) enum Shown<'a> {
    Row(&'a Row),
    Subdir(Rolled<'a>),
}

impl<'a> Shown<'a> {
    pub(crate) fn copy(&self, alloc: Global) -> Result<Entry, NoMemory>
        ensures { IfOk result (λ entry. entry ≡ shown_entry self.now) }
    {
        Ok(match self {
            Shown::Row(row) => Entry::Row(row.copy(alloc)?),
            Shown::Subdir(rolled) => Entry::Subdir(Text::new(Bytes::copy(alloc, rolled.text)?)),
        })
    }
}

/// What a row is listed as, where it is.
pub(crate) fn show<'a>(query: &Query, row: &'a Row) -> Option<Shown<'a>>
    ensures { option_map shown_entry result ≡ shows query.now row.now }
{
    if row.deleted || !query.is_asked(row.name.as_slice()) {
        return None;
    }
    match roll_up(
        row.name.as_slice(),
        query.prefix.as_slice().len(),
        query.delimiter,
    ) {
        None => Some(Shown::Row(row)),
        Some(rolled) if rolled.text == query.marker.as_slice() => None,
        Some(rolled) => Some(Shown::Subdir(rolled)),
    }
}
