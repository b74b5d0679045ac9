use sw_container_steps::{ContAnswer, ContChange, Info, Parcel, Sharding};
use sw_hashpath::Place;
use sw_history::Seen;
use sw_listing::{Entries, Query};
use sw_timestamp::Timestamp;

/// What a step at a container asked for, and what it was answered. Contracts alone see it: what a trail prints are the entries that a step added.
#[derive(Drop)]
pub enum ContEvent {
    /// A step that may change the container of this place.
    Changed(Seen<Place>, Seen<ContChange>, Seen<ContAnswer>),
    /// A read of its put time and its delete time.
    Timed(Seen<Place>, Seen<Result<Option<(Timestamp, Option<Timestamp>)>, ContAnswer>>),
    /// A read of what is told of it.
    Informed(Seen<Place>, Seen<Result<Info, ContAnswer>>),
    /// A listing by this query.
    Listed(Seen<Place>, Seen<Query>, Seen<Result<Entries, ContAnswer>>),
    /// A read of the rows that the device of this number isn't known to have.
    Parceled(Seen<Place>, u8, Seen<Result<Parcel, ContAnswer>>),
    /// A read of how far it is split into shards.
    Sharded(Seen<Place>, Seen<Result<Sharding, ContAnswer>>),
    /// A read of the rows of the range with this index, above this number.
    Cleft(Seen<Place>, u32, u64, Seen<Result<Parcel, ContAnswer>>),
}
