ghost use Rattle.std.specs.Prelude.{◌≡◌, IfOk};
ghost use Rattle.sw_listing.specs.Entries.{entry_text};

use crate::text::Text;
use std::alloc::Global;
use sw_outside::{NoMemory, Sequence, TryCopy};
use sw_rows::Row;

/// An entry of a listing.
#[derive(Debug, Drop)]
pub enum Entry {
    /// A live object.
    Row(Row),
    /// What the names of one beginning are rolled up to: that beginning, up to and with a delimiter.
    Subdir(Text),
}

impl Entry {
    /// The name of the row, or what names are rolled up to.
    pub fn text(&self) -> &[u8]
        ensures { result.now ≡ entry_text self.now }
    {
        match self {
            Entry::Row(row) => row.name.as_slice(),
            Entry::Subdir(text) => text.as_slice(),
        }
    }

    /// An entry that is equal to this one, or [`NoMemory`].
    pub fn copy(&self, alloc: Global) -> Result<Entry, NoMemory>
        ensures { IfOk result (λ copy. copy ≡ self.now) }
    {
        Ok(match self {
            Entry::Row(row) => Entry::Row(row.copy(alloc)?),
            Entry::Subdir(text) => Entry::Subdir(text.copy(alloc)?),
        })
    }
}

impl TryCopy for Entry {
    fn try_copy(&self, alloc: Global) -> Result<Entry, NoMemory> {
        self.copy(alloc)
    }
}

/// A list of entries.
pub type Entries = Sequence<Entry>;
