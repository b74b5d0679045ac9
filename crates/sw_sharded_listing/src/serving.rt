//! Ranges whose names are left to shards.

ghost use Rattle.std.specs.Prelude.{◌≡◌, ◌<◌, length, take};
ghost use Rattle.sw_sharded_listing.specs.Parts.{are_places, has_own, replica_at, served_in};

use sw_container_steps::Sharding;
use sw_hashpath::{Place, Secrets, partition};
use sw_pass::is_place;
use sw_ring::{Ring, Which};
use sw_shard_range::Range;

/// The ranges whose names are left to shards.
pub(crate) fn served_of(sharding: &Sharding) -> &[Range]
    ensures { result.now ≡ served_in sharding.now.ranges sharding.now.cursor }
{
    match &sharding.ranges {
        Some(ranges) => first(ranges.as_slice(), sharding.cursor as usize),
        None => &[],
    }
}

/// So many of them, or all where there are fewer.
fn first(ranges: &[Range], count: usize) -> &[Range]
    ensures { result.now ≡ take count ranges.now }
{
    if count < ranges.len() {
        &ranges[..count]
    } else {
        ranges
    }
}

/// Whether a name isn't left to a shard.
pub(crate) fn has_own(sharding: &Sharding) -> bool
    ensures { result ≡ has_own sharding.now.ranges sharding.now.cursor }
{
    match &sharding.ranges {
        Some(ranges) => sharding.cursor < ranges.len(),
        None => true,
    }
}

/// Whether the nodes know the shard of each range.
pub(crate) fn are_places(secrets: &Secrets, ranges: &[Range]) -> bool
    ensures { result ≡ are_places secrets.now ranges.now }
{
    ranges.iter().all(|range| is_place(secrets, &range.shard))
}

/// The device of this number among those that keep a container.
pub(crate) fn replica_at(ring: &Ring, replica: u8, place: &Place) -> u8
    requires { replica < ring.now.replicas }
    ensures value { result ≡ replica_at ring.now replica place.now }
    ensures known { result < length ring.now.devices }
{
    ring.row(Which::Container, partition(&place.hash, ring.power))[replica as usize]
}
