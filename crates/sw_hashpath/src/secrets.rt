ghost use Rattle.std.specs.Prelude.{◌≡◌, IfOk};

use std::alloc::Global;
use sw_outside::{Bytes, NoMemory};

/// What a cluster puts before and after each path that it hashes, so that nobody outside can choose a name's place.
#[derive(Debug, Drop)]
pub struct Secrets {
    pub prefix: Bytes,
    pub suffix: Bytes,
}

impl Secrets {
    /// Secrets that are equal to these, or [`NoMemory`].
    pub fn copy(&self, alloc: Global) -> Result<Secrets, NoMemory>
        ensures { IfOk result (λ copy. copy ≡ self.now) }
    {
        Ok(Secrets {
            prefix: Bytes::copy(alloc, self.prefix.as_slice())?,
            suffix: Bytes::copy(alloc, self.suffix.as_slice())?,
        })
    }
}
