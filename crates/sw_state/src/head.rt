ghost use Rattle.std.specs.Prelude.{◌≡◌, IfOk};

use std::alloc::Global;
use sw_outside::{Bytes, NoMemory};

/// A header item: its name and its value.
#[derive(Debug, Drop)]
pub struct Head {
    pub name: Bytes,
    pub value: Bytes,
}

impl Head {
    /// An item that is equal to this one, or [`NoMemory`].
    pub fn copy(&self, alloc: Global) -> Result<Head, NoMemory>
        ensures { IfOk result (λ copy. copy ≡ self.now) }
    {
        Ok(Head {
            name: Bytes::copy(alloc, self.name.as_slice())?,
            value: Bytes::copy(alloc, self.value.as_slice())?,
        })
    }
}
