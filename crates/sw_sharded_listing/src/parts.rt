ghost use Rattle.std.specs.Prelude.{◌≡◌, ◌<◌, ◌⊎◌, [], true, length, slice_get, Some};
ghost use Rattle.sw_pass.specs.Rings.{is_place};
ghost use Rattle.sw_sharded_listing.specs.Parts.{are_places, end_of, own_part, parts_in, shard_part};

use crate::serving::replica_at;
use std::marker::Model;
use sw_hashpath::Place;
use sw_ring::Ring;
use sw_shard_range::Range;

/// A range of names, and the container and the device that list it. An empty text is no bound.
#[derive(Drop)]
pub(crate) struct Part<'a> {
    pub device: u8,
    pub place: &'a Place,
    /// Names come after this one.
    pub lower: &'a [u8],
    /// Names don't come after this one.
    pub upper: &'a [u8],
}

impl<'a> Model for Part<'a> {
    ghost use Rattle.sw_sharded_listing.specs.Parts.{Part};

    ghost Value = { Part };

    ghost view = { λ p. record { device = p.device; place = p.place.now; lower = p.lower.now; upper = p.upper.now } };
}

/// A container that is split, by which its parts are told.
#[derive(Drop)]
pub(crate) struct Split<'a> {
    pub ring: &'a Ring,
    pub device: u8,
    pub place: &'a Place,
    /// Which of the devices of a shard is asked.
    pub replica: u8,
    /// Whether the listing goes from the last name to the first.
    pub backwards: bool,
    /// The ranges whose names are left to shards.
    pub served: &'a [Range],
    /// Whether a name isn't left to a shard.
    pub own: bool,
}

impl<'a> Model for Split<'a> {
    ghost use Rattle.sw_sharded_listing.specs.Parts.{Split};

    ghost Value = { Split };

    ghost view = { λ s. record {
      ring = s.ring.now;
      device = s.device;
      place = s.place.now;
      replica = s.replica;
      backwards = s.backwards;
      served = s.served.now;
      own = s.own;
    } };
}

impl<'a> Split<'a> {
    /// How many parts there are.
    pub fn len(&self) -> usize
        ensures { result ≡ length (parts_in self.now) }
    {
        if self.own {
            self.served.len() + 1
        } else {
            self.served.len()
        }
    }

    /// The part of this index, in the direction of the listing. It takes no memory.
    pub fn part(&self, index: usize) -> Part<'a>
        requires index { index < length (parts_in self.now) }
        requires replica { self.now.replica < self.now.ring.replicas }
        requires placed { are_places self.now.ring.secrets self.now.served ≡ true }
        ensures part { slice_get (parts_in self.now) index ≡ Some result }
        ensures known { (result.device ≡ self.now.device) ⊎ (result.device < length self.now.ring.devices) }
        ensures placed { (result.place ≡ self.now.place) ⊎ (is_place self.now.ring.secrets result.place ≡ true) }
    {
        let index = if self.backwards {
            self.len() - 1 - index
        } else {
            index
        };
        match self.served.get(index) {
            Some(range) => self.shard_part(range),
            None => self.own_part(),
        }
    }

    /// The part that the shard of a range lists.
    fn shard_part(&self, range: &'a Range) -> Part<'a>
        requires { self.now.replica < self.now.ring.replicas }
        ensures part { result ≡ shard_part self.now.ring self.now.replica range.now }
        ensures known { result.device < length self.now.ring.devices }
    {
        Part {
            device: replica_at(self.ring, self.replica, &range.shard),
            place: &range.shard,
            lower: range.lower.as_slice(),
            upper: range.upper.as_slice(),
        }
    }

    /// The part that the container itself lists.
    fn own_part(&self) -> Part<'a>
        ensures { result ≡ own_part self.now.device self.now.place self.now.served }
    {
        Part {
            device: self.device,
            place: self.place,
            lower: end_of(self.served),
            upper: b"",
        }
    }
}

/// Where these ranges end, of which each begins where the one before it ends. None end nowhere.
fn end_of(ranges: &[Range]) -> &[u8]
    ensures { result.now ≡ end_of [] ranges.now }
{
    match ranges.last() {
        Some(range) => range.upper.as_slice(),
        None => b"",
    }
}
