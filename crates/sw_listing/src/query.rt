ghost use Rattle.std.specs.Prelude.{◌≡◌, ◌<◌, IfOk};
ghost use Rattle.std.specs.Option.{ForSome};

use std::alloc::Global;
use sw_outside::{Bytes, NoMemory};

/// Which entries of a container are asked for, and how they are to be written.
#[derive(Debug, Drop)]
pub struct Query {
    /// At most so many entries.
    pub limit: u32,
    /// Names come after this one, in the direction of the listing. An empty text is no bound.
    pub marker: Bytes,
    /// Names come before this one, in the direction of the listing. An empty text is no bound.
    pub end_marker: Bytes,
    /// Names begin so.
    pub prefix: Bytes,
    /// Names in which this ASCII byte stands behind the prefix are rolled up at its first place there.
    pub delimiter: Option<u8>,
    /// From the last name to the first.
    pub reverse: bool,
    /// As JSON, not as plain text.
    pub json: bool,
    pub ghost is_ascii: { ForSome delimiter (λ d. d < 128) },
}

impl Query {
    /// A query that is equal to this one, or [`NoMemory`].
    pub fn copy(&self, alloc: Global) -> Result<Query, NoMemory>
        ensures { IfOk result (λ copy. copy ≡ self.now) }
    {
        Ok(Query {
            limit: self.limit,
            marker: Bytes::copy(alloc, self.marker.as_slice())?,
            end_marker: Bytes::copy(alloc, self.end_marker.as_slice())?,
            prefix: Bytes::copy(alloc, self.prefix.as_slice())?,
            delimiter: self.delimiter,
            reverse: self.reverse,
            json: self.json,
        })
    }
}
