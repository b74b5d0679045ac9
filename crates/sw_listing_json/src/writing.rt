ghost use Rattle.std.specs.Prelude.{◌≡◌, ◌∷◌, [], IfOk, OnOk};
ghost use Rattle.json.specs.Token.{begin_array};
ghost use Rattle.sw_listing_json.specs.Json.{IsJson};
ghost use Rattle.sw_listing_json.specs.Writing.{AddsEntries};

use crate::values::write_entry;
use json::Writer;
use std::alloc::Global;
use sw_listing::{Entries, Entry};
use sw_outside::{Bytes, NoMemory};

/// The JSON of a listing, or [`NoMemory`].
pub fn to_json(alloc: Global, entries: &Entries) -> Result<Bytes, NoMemory>
    ensures { IfOk result (λ bytes. IsJson entries.now bytes) }
{
    let mut out = Writer::new(Vec::new(alloc));
    out.begin_array()?;
    write_entries(alloc, &mut out, entries.as_slice())?;
    out.end_array()?;
    Ok(out.into_inner().into())
}

/// Writes the objects of all entries.
fn write_entries(alloc: Global, out: &mut Writer, entries: &[Entry]) -> Result<(), NoMemory>
    ensures { OnOk result (AddsEntries entries.now out.old out.new) }
{
    for entry in entries {
        write_entry(alloc, out, entry)?;
    }
    Ok(())
}
