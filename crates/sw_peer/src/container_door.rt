ghost use Rattle.std.specs.Prelude.{◌≡◌, ◌<◌, true};
ghost use Rattle.sw_container_steps.specs.Reads.{info_of, listing_of, parcel_of, range_parcel_of, sharding_of, times_of};
ghost use Rattle.sw_peer.specs.ContSights.{IsContMade, IsLooked};
ghost use Rattle.sw_peer.specs.Sights.{Calls, Sight};
ghost use Rattle.sw_peer.specs.declared.cont_event.ContEvent.TheVariants.{Cleft, Informed, Listed, Parceled, Sharded, Timed};

use crate::door::Door;
use crate::link::{Link, Lost};
use std::alloc::Global;
use sw_container_steps::{ContAnswer, ContChange, Info, Parcel, Sharding};
use sw_hashpath::Place;
use sw_listing::{Entries, Query};
use sw_timestamp::Timestamp;

/// All container nodes. Each call is one step at the device of this number.
///
/// The device is one of the nodes, and the hash of the place is that of its path under the nodes' secrets. [`Lost`] comes only on
/// [`Link::Sent`], and only where the door's count of faults rose.
pub trait ContainerDoor: Door {
    /// Makes a step that may change the container of the place. The step is lent, so that a message can be sent to several devices, or again.
    fn change_container(
        &mut self,
        alloc: Global,
        link: Link,
        device: u8,
        place: &Place,
        change: &ContChange,
    ) -> Result<ContAnswer, Lost>
        requires device { device < (Self.sight self.old).nodes.devices }
        requires fits { (Self.sight self.old).nodes.fits_place place.now ≡ true }
        ensures made { Calls (IsContMade link device place.now change.now) (Self.sight self.old) link result (Self.sight self.new) }
        ensures asks { (Self.sight self.new).asks ≡ (Self.sight self.old).asks };

    /// Reads the put time and the delete time of the container, also of a deleted one; none where it was never created.
    fn times(
        &mut self,
        alloc: Global,
        link: Link,
        device: u8,
        place: &Place,
    ) -> Result<Result<Option<(Timestamp, Option<Timestamp>)>, ContAnswer>, Lost>
        requires device { device < (Self.sight self.old).nodes.devices }
        requires fits { (Self.sight self.old).nodes.fits_place place.now ≡ true }
        ensures read { Calls (IsLooked link device place.now times_of (λ got. Timed place.now got)) (Self.sight self.old) link result (Self.sight self.new) }
        ensures asks { (Self.sight self.new).asks ≡ (Self.sight self.old).asks };

    /// Reads what is told of the container. [`ContAnswer::Absent`] exactly where there is none.
    fn info(
        &mut self,
        alloc: Global,
        link: Link,
        device: u8,
        place: &Place,
    ) -> Result<Result<Info, ContAnswer>, Lost>
        requires device { device < (Self.sight self.old).nodes.devices }
        requires fits { (Self.sight self.old).nodes.fits_place place.now ≡ true }
        ensures read { Calls (IsLooked link device place.now info_of (λ got. Informed place.now got)) (Self.sight self.old) link result (Self.sight self.new) }
        ensures asks { (Self.sight self.new).asks ≡ (Self.sight self.old).asks };

    /// Reads the listing that answers a query. [`ContAnswer::Absent`] exactly where there is no container.
    fn list(
        &mut self,
        alloc: Global,
        link: Link,
        device: u8,
        place: &Place,
        query: &Query,
    ) -> Result<Result<Entries, ContAnswer>, Lost>
        requires device { device < (Self.sight self.old).nodes.devices }
        requires fits { (Self.sight self.old).nodes.fits_place place.now ≡ true }
        ensures read { Calls (IsLooked link device place.now (listing_of query.now) (λ got. Listed place.now query.now got)) (Self.sight self.old) link result
            (Self.sight self.new) }
        ensures asks { (Self.sight self.new).asks ≡ (Self.sight self.old).asks };

    /// Reads the rows above the sync point that the container keeps for the device `to`, and the greatest number given out. [`ContAnswer::Absent`]
    /// exactly where there is no container.
    fn sync_rows(
        &mut self,
        alloc: Global,
        link: Link,
        device: u8,
        place: &Place,
        to: u8,
    ) -> Result<Result<Parcel, ContAnswer>, Lost>
        requires device { device < (Self.sight self.old).nodes.devices }
        requires fits { (Self.sight self.old).nodes.fits_place place.now ≡ true }
        ensures read { Calls (IsLooked link device place.now (parcel_of to) (λ got. Parceled place.now to got)) (Self.sight self.old) link result
            (Self.sight self.new) }
        ensures asks { (Self.sight self.new).asks ≡ (Self.sight self.old).asks };

    /// Reads how far the container is split into shards. [`ContAnswer::Absent`] exactly where there is none.
    fn sharding(
        &mut self,
        alloc: Global,
        link: Link,
        device: u8,
        place: &Place,
    ) -> Result<Result<Sharding, ContAnswer>, Lost>
        requires device { device < (Self.sight self.old).nodes.devices }
        requires fits { (Self.sight self.old).nodes.fits_place place.now ≡ true }
        ensures read { Calls (IsLooked link device place.now sharding_of (λ got. Sharded place.now got)) (Self.sight self.old) link result
            (Self.sight self.new) }
        ensures asks { (Self.sight self.new).asks ≡ (Self.sight self.old).asks };

    /// Reads the rows of the range with this index that are above a number, and the greatest number given out. [`ContAnswer::Absent`] exactly where there
    /// is no container, and then [`ContAnswer::NoRanges`] exactly where it has no ranges.
    fn rows_above(
        &mut self,
        alloc: Global,
        link: Link,
        device: u8,
        place: &Place,
        range: u32,
        above: u64,
    ) -> Result<Result<Parcel, ContAnswer>, Lost>
        requires device { device < (Self.sight self.old).nodes.devices }
        requires fits { (Self.sight self.old).nodes.fits_place place.now ≡ true }
        ensures read { Calls (IsLooked link device place.now (range_parcel_of range above) (λ got. Cleft place.now range above got)) (Self.sight self.old)
            link result (Self.sight self.new) }
        ensures asks { (Self.sight self.new).asks ≡ (Self.sight self.old).asks };
}
