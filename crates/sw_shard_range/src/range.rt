ghost use Rattle.std.specs.Prelude.{◌≡◌, true, IfOk};
ghost use Rattle.sw_shard_range.specs.Names.{is_above, is_beyond, is_hidden, is_hidden_name};

use std::alloc::Global;
use sw_hashpath::Place;
use sw_outside::{Bytes, NoMemory, TryCopy};

/// The names above `lower`, up to and with `upper`, in byte order, and the shard that has their rows. An empty text is no bound.
#[derive(Debug, Drop)]
pub struct Range {
    /// The bound that the names lie above; it isn't one of them.
    pub lower: Bytes,
    /// The greatest name.
    pub upper: Bytes,
    /// The container that has the rows, in an account that begins with `.`: [`is_hidden`] tells.
    pub shard: Place,
    /// How far the range has come: one of [`crate::state`].
    pub state: u8,
    pub ghost hidden: { is_hidden shard ≡ true },
}

impl Range {
    /// A range that is equal to this one, or [`NoMemory`].
    pub fn copy(&self, alloc: Global) -> Result<Range, NoMemory>
        ensures { IfOk result (λ copy. copy ≡ self.now) }
    {
        Ok(Range {
            lower: Bytes::copy(alloc, self.lower.as_slice())?,
            upper: Bytes::copy(alloc, self.upper.as_slice())?,
            shard: self.shard.copy(alloc)?,
            state: self.state,
        })
    }

    /// Whether the name comes after the upper bound. It takes no memory.
    pub(crate) fn is_below(&self, name: &[u8]) -> bool
        ensures { result ≡ is_beyond self.now.upper name.now }
    {
        !self.upper.as_slice().is_empty() && is_above(name, self.upper.as_slice())
    }
}

impl TryCopy for Range {
    fn try_copy(&self, alloc: Global) -> Result<Range, NoMemory> {
        self.copy(alloc)
    }
}

/// Whether the account of a place begins with `.`, as that of a shard does. It takes no memory.
pub fn is_hidden(place: &Place) -> bool
    ensures { result ≡ is_hidden place.now }
{
    begins_with_dot(place.account.as_slice())
}

fn begins_with_dot(name: &[u8]) -> bool
    ensures { result ≡ is_hidden_name name.now }
{
    match name {
        [first, ..] => *first == b'.',
        [] => false,
    }
}

/// Whether a text comes after another in byte order.
pub(crate) fn is_above(text: &[u8], other: &[u8]) -> bool
    ensures { result ≡ is_above text.now other.now }
{
    other.cmp(text).is_lt()
}
