ghost use Rattle.std.specs.Prelude.{◌≡◌, ◌↔◌, ℕ, ◌<◌, ◌≤◌, ◌^◌, Err, IfOk, None, Some, length, vec_len};
ghost use Rattle.sw_shard_range.specs.Ranges.{first_fault, fits_inside, fits_last, index_in};
ghost use Rattle.sw_shard_range.specs.States.{all_in_state, with_state};

use crate::range::{Range, is_above};
use std::alloc::Global;
use std::marker::Model;
use sw_outside::{NoMemory, Sequence};
use thiserror::Error;

/// The ranges aren't all names, each once. The number is the index of the first range that doesn't fit.
#[derive(Clone, Copy, Debug, PartialEq, Eq, Error)]
#[error("shard range {0} doesn't follow the ranges before it, or ends too early")]
pub struct NotTiled(pub u32);

/// Ranges that together are all names, each once, in byte order. Contracts see the list of them. There are fewer than 2^32.
#[derive(Debug, Drop)]
pub struct Ranges {
    list: Sequence<Range>,
}

impl Model for Ranges {
    ghost use Rattle.std.specs.Prelude.{◌<◌, ◌^◌, List, length};
    ghost use Rattle.sw_shard_range.specs.Laws.{AreTiled};
    ghost use Rattle.sw_shard_range.specs.declared.range.Range.{Range};

    ghost Value = { List Range };

    ghost view = { λ r. r.list };

    ghost invariant = { λ r. AreTiled r.list × (length r.list < 2 ^ 32) };
}

impl Ranges {
    /// These ranges, where the first begins without a bound, each other one at the upper bound of the one before, each but the last ends above its
    /// lower bound, and the last has no upper bound. It takes no memory.
    ///
    /// [`NotTiled`] otherwise, with the index of the first range of which that isn't so, or 0 where there is none.
    pub fn new(list: Vec<Range>) -> Result<Ranges, NotTiled>
        requires { vec_len list < 2 ^ 32 }
        ensures ranges { IfOk result (λ ranges. ranges ≡ list.items) }
        ensures fault { (index : ℕ) → (result ≡ Err (record { 0 = index })) ↔ (first_fault list.items ≡ Some index) }
    {
        match first_fault(&list) {
            Some(index) => Err(NotTiled(index)),
            None => Ok(Ranges { list: list.into() }),
        }
    }

    pub fn as_slice(&self) -> &[Range]
        ensures value { result.now ≡ self.now }
        ensures tiled { first_fault self.now ≡ None }
        ensures small { length self.now < 2 ^ 32 }
    {
        self.list.as_slice()
    }

    /// How many ranges there are, at least one.
    pub fn len(&self) -> u32
        ensures value { result ≡ length self.now }
        ensures some { 0 < result }
    {
        self.as_slice().len() as u32
    }

    /// The index of the range that a name is in. It takes no memory.
    ///
    /// Its time grows with the logarithm of the number of ranges.
    pub fn range_of(&self, name: &[u8]) -> u32
        ensures index { result ≡ index_in self.now name.now }
        ensures bound { result < length self.now }
    {
        place_of(self.as_slice(), name) as u32
    }

    /// The same ranges, each in this state: one of [`crate::state`]. It takes no memory.
    pub fn all_in_state(self, state: u8) -> Ranges
        ensures { result ≡ all_in_state state self }
    {
        let mut list: Vec<Range> = self.list.into();
        put_all_in_state(&mut list, state);
        Ranges { list: list.into() }
    }

    /// The same ranges, of which the one of this index is in this state, where there is one of this index. It takes no memory.
    pub fn with_state(self, state: u8, index: u32) -> Ranges
        ensures { result ≡ with_state state index self }
    {
        let mut list: Vec<Range> = self.list.into();
        put_in_state(&mut list, state, index as usize);
        Ranges { list: list.into() }
    }

    /// Ranges that are equal to these, or [`NoMemory`].
    pub fn copy(&self, alloc: Global) -> Result<Ranges, NoMemory>
        ensures { IfOk result (λ copy. copy ≡ self.now) }
    {
        Ok(Ranges {
            list: self.list.copy(alloc)?,
        })
    }
}

/// Gives the ranges back: no memory is taken.
impl From<Ranges> for Vec<Range> {
    ghost from_gives = { λ ranges list. list.items ≡ ranges };

    fn from(ranges: Ranges) -> Vec<Range> {
        ranges.list.into()
    }
}

fn put_all_in_state(list: &mut Vec<Range>, state: u8)
    ensures { list.new.items ≡ all_in_state state list.old.items }
{
    for index in 0..list.len() {
        list[index].state = state;
    }
}

fn put_in_state(list: &mut Vec<Range>, state: u8, index: usize)
    ensures { list.new.items ≡ with_state state index list.old.items }
{
    if index < list.len() {
        list[index].state = state;
    }
}

/// The index of the first range that doesn't fit.
fn first_fault(list: &[Range]) -> Option<u32>
    requires { length list.now < 2 ^ 32 }
    ensures { result ≡ first_fault list.now }
{
    let Some((last, inner)) = list.split_last() else {
        return Some(0);
    };
    let mut bound: &[u8] = b"";
    let mut index = 0;
    for range in inner {
        if !fits_inside(bound, range) {
            return Some(index);
        }
        bound = range.upper.as_slice();
        index += 1;
    }
    if fits_last(bound, last) {
        None
    } else {
        Some(index)
    }
}

/// Whether a range that others follow can stand behind this bound.
fn fits_inside(bound: &[u8], range: &Range) -> bool
    ensures { result ≡ fits_inside bound.now range.now }
{
    range.lower.as_slice() == bound && is_above(range.upper.as_slice(), range.lower.as_slice())
}

/// Whether the last range can stand behind this bound.
fn fits_last(bound: &[u8], range: &Range) -> bool
    ensures { result ≡ fits_last bound.now range.now }
{
    range.lower.as_slice() == bound && range.upper.as_slice().is_empty()
}

/// How many ranges lie below a name. They come first.
fn place_of(list: &[Range], name: &[u8]) -> usize
    requires { first_fault list.now ≡ None }
    ensures place { result ≡ index_in list.now name.now }
    ensures bound { result < length list.now }
{
    list.partition_point(|range| range.is_below(name))
}
