ghost use Rattle.std.specs.Prelude.{◌≡◌, IfOk};
ghost use Rattle.sw_listing.specs.Entries.{lines};

use crate::entry::Entries;
use std::alloc::Global;
use sw_outside::{Bytes, NoMemory};

/// The plain text of a listing: each entry's text and a newline, or [`NoMemory`].
pub fn to_text(alloc: Global, entries: &Entries) -> Result<Bytes, NoMemory>
    ensures { IfOk result (λ bytes. bytes ≡ lines entries.now) }
{
    let mut bytes = Vec::new(alloc);
    for entry in entries.as_slice() {
        bytes.extend_from_slice(entry.text())?;
        bytes.push(b'\n')?;
    }
    Ok(bytes.into())
}
