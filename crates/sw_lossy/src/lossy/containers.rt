ghost use Rattle.std.specs.Prelude.{◌≡◌, ◌<◌, true};
ghost use Rattle.sw_container_steps.specs.Reads.{info_of, listing_of, parcel_of, range_parcel_of, sharding_of, times_of};
ghost use Rattle.sw_peer.specs.ContSights.{IsContMade, IsLooked};
ghost use Rattle.sw_peer.specs.Sights.{Calls};
ghost use Rattle.sw_peer.specs.declared.cont_event.ContEvent.TheVariants.{Cleft, Informed, Listed, Parceled, Sharded, Timed};
ghost use Rattle.sw_lossy.specs.Losses.{Happens, around, fate_of, faults_after, messages_after};

use super::Lossy;
use crate::acts::Fate;
use std::alloc::Global;
use sw_container_steps::{ContAnswer, ContChange, Info, Parcel, Sharding};
use sw_hashpath::Place;
use sw_listing::{Entries, Query};
use sw_peer::{ContainerDoor, FaithfulDoor, Link, Lost};
use sw_timestamp::Timestamp;

impl<D: ContainerDoor + FaithfulDoor + Drop> ContainerDoor for Lossy<D> {
    /// The step is lent, so that one that is to come twice takes no memory for a copy.
    fn change_container(
        &mut self,
        alloc: Global,
        link: Link,
        device: u8,
        place: &Place,
        change: &ContChange,
    ) -> Result<ContAnswer, Lost>
        requires device { device < (D.sight self.old.door).nodes.devices }
        requires fits { (D.sight self.old.door).nodes.fits_place place.now ≡ true }
        ensures made { Calls (IsContMade link device place.now change.now)
            (around (D.sight self.old.door) self.old.acts self.old.messages self.old.faults self.old.asks) link result
            (around (D.sight self.new.door) self.new.acts self.new.messages self.new.faults self.new.asks) }
        ensures asks { self.new.asks ≡ self.old.asks }
        ensures inside { (D.sight self.new.door).asks ≡ (D.sight self.old.door).asks }
        ensures happens { Happens D.sight (IsContMade link device place.now change.now) link (fate_of self.old.acts link self.old.messages) self.old.door result
            self.new.door }
        ensures acts { self.new.acts ≡ self.old.acts }
        ensures messages { self.new.messages ≡ messages_after link self.old.messages }
        ensures faults { self.new.faults ≡ faults_after (fate_of self.old.acts link self.old.messages) self.old.faults }
    {
        match self.next(link) {
            Fate::Goes => self
                .door
                .change_container(alloc, link, device, place, change),
            Fate::IsLost => Err(Lost),
            Fate::LosesReply => {
                let _ = self
                    .door
                    .change_container(alloc, link, device, place, change);
                Err(Lost)
            }
            Fate::ComesTwice => {
                let _ = self
                    .door
                    .change_container(alloc, link, device, place, change);
                self.door
                    .change_container(alloc, link, device, place, change)
            }
        }
    }

    fn times(
        &mut self,
        alloc: Global,
        link: Link,
        device: u8,
        place: &Place,
    ) -> Result<Result<Option<(Timestamp, Option<Timestamp>)>, ContAnswer>, Lost>
        requires device { device < (D.sight self.old.door).nodes.devices }
        requires fits { (D.sight self.old.door).nodes.fits_place place.now ≡ true }
        ensures read { Calls (IsLooked link device place.now times_of (λ got. Timed place.now got))
            (around (D.sight self.old.door) self.old.acts self.old.messages self.old.faults self.old.asks) link result
            (around (D.sight self.new.door) self.new.acts self.new.messages self.new.faults self.new.asks) }
        ensures asks { self.new.asks ≡ self.old.asks }
        ensures inside { (D.sight self.new.door).asks ≡ (D.sight self.old.door).asks }
        ensures happens { Happens D.sight (IsLooked link device place.now times_of (λ got. Timed place.now got)) link
            (fate_of self.old.acts link self.old.messages) self.old.door result self.new.door }
        ensures acts { self.new.acts ≡ self.old.acts }
        ensures messages { self.new.messages ≡ messages_after link self.old.messages }
        ensures faults { self.new.faults ≡ faults_after (fate_of self.old.acts link self.old.messages) self.old.faults }
    {
        match self.next(link) {
            Fate::Goes => self.door.times(alloc, link, device, place),
            Fate::IsLost => Err(Lost),
            Fate::LosesReply => {
                let _ = self.door.times(alloc, link, device, place);
                Err(Lost)
            }
            Fate::ComesTwice => {
                let _ = self.door.times(alloc, link, device, place);
                self.door.times(alloc, link, device, place)
            }
        }
    }

    fn info(
        &mut self,
        alloc: Global,
        link: Link,
        device: u8,
        place: &Place,
    ) -> Result<Result<Info, ContAnswer>, Lost>
        requires device { device < (D.sight self.old.door).nodes.devices }
        requires fits { (D.sight self.old.door).nodes.fits_place place.now ≡ true }
        ensures read { Calls (IsLooked link device place.now info_of (λ got. Informed place.now got))
            (around (D.sight self.old.door) self.old.acts self.old.messages self.old.faults self.old.asks) link result
            (around (D.sight self.new.door) self.new.acts self.new.messages self.new.faults self.new.asks) }
        ensures asks { self.new.asks ≡ self.old.asks }
        ensures inside { (D.sight self.new.door).asks ≡ (D.sight self.old.door).asks }
        ensures happens { Happens D.sight (IsLooked link device place.now info_of (λ got. Informed place.now got)) link
            (fate_of self.old.acts link self.old.messages) self.old.door result self.new.door }
        ensures acts { self.new.acts ≡ self.old.acts }
        ensures messages { self.new.messages ≡ messages_after link self.old.messages }
        ensures faults { self.new.faults ≡ faults_after (fate_of self.old.acts link self.old.messages) self.old.faults }
    {
        match self.next(link) {
            Fate::Goes => self.door.info(alloc, link, device, place),
            Fate::IsLost => Err(Lost),
            Fate::LosesReply => {
                let _ = self.door.info(alloc, link, device, place);
                Err(Lost)
            }
            Fate::ComesTwice => {
                let _ = self.door.info(alloc, link, device, place);
                self.door.info(alloc, link, device, place)
            }
        }
    }

    fn list(
        &mut self,
        alloc: Global,
        link: Link,
        device: u8,
        place: &Place,
        query: &Query,
    ) -> Result<Result<Entries, ContAnswer>, Lost>
        requires device { device < (D.sight self.old.door).nodes.devices }
        requires fits { (D.sight self.old.door).nodes.fits_place place.now ≡ true }
        ensures read { Calls (IsLooked link device place.now (listing_of query.now) (λ got. Listed place.now query.now got))
            (around (D.sight self.old.door) self.old.acts self.old.messages self.old.faults self.old.asks) link result
            (around (D.sight self.new.door) self.new.acts self.new.messages self.new.faults self.new.asks) }
        ensures asks { self.new.asks ≡ self.old.asks }
        ensures inside { (D.sight self.new.door).asks ≡ (D.sight self.old.door).asks }
        ensures happens { Happens D.sight (IsLooked link device place.now (listing_of query.now) (λ got. Listed place.now query.now got)) link
            (fate_of self.old.acts link self.old.messages) self.old.door result self.new.door }
        ensures acts { self.new.acts ≡ self.old.acts }
        ensures messages { self.new.messages ≡ messages_after link self.old.messages }
        ensures faults { self.new.faults ≡ faults_after (fate_of self.old.acts link self.old.messages) self.old.faults }
    {
        match self.next(link) {
            Fate::Goes => self.door.list(alloc, link, device, place, query),
            Fate::IsLost => Err(Lost),
            Fate::LosesReply => {
                let _ = self.door.list(alloc, link, device, place, query);
                Err(Lost)
            }
            Fate::ComesTwice => {
                let _ = self.door.list(alloc, link, device, place, query);
                self.door.list(alloc, link, device, place, query)
            }
        }
    }

    fn sync_rows(
        &mut self,
        alloc: Global,
        link: Link,
        device: u8,
        place: &Place,
        to: u8,
    ) -> Result<Result<Parcel, ContAnswer>, Lost>
        requires device { device < (D.sight self.old.door).nodes.devices }
        requires fits { (D.sight self.old.door).nodes.fits_place place.now ≡ true }
        ensures read { Calls (IsLooked link device place.now (parcel_of to) (λ got. Parceled place.now to got))
            (around (D.sight self.old.door) self.old.acts self.old.messages self.old.faults self.old.asks) link result
            (around (D.sight self.new.door) self.new.acts self.new.messages self.new.faults self.new.asks) }
        ensures asks { self.new.asks ≡ self.old.asks }
        ensures inside { (D.sight self.new.door).asks ≡ (D.sight self.old.door).asks }
        ensures happens { Happens D.sight (IsLooked link device place.now (parcel_of to) (λ got. Parceled place.now to got)) link
            (fate_of self.old.acts link self.old.messages) self.old.door result self.new.door }
        ensures acts { self.new.acts ≡ self.old.acts }
        ensures messages { self.new.messages ≡ messages_after link self.old.messages }
        ensures faults { self.new.faults ≡ faults_after (fate_of self.old.acts link self.old.messages) self.old.faults }
    {
        match self.next(link) {
            Fate::Goes => self.door.sync_rows(alloc, link, device, place, to),
            Fate::IsLost => Err(Lost),
            Fate::LosesReply => {
                let _ = self.door.sync_rows(alloc, link, device, place, to);
                Err(Lost)
            }
            Fate::ComesTwice => {
                let _ = self.door.sync_rows(alloc, link, device, place, to);
                self.door.sync_rows(alloc, link, device, place, to)
            }
        }
    }

    fn sharding(
        &mut self,
        alloc: Global,
        link: Link,
        device: u8,
        place: &Place,
    ) -> Result<Result<Sharding, ContAnswer>, Lost>
        requires device { device < (D.sight self.old.door).nodes.devices }
        requires fits { (D.sight self.old.door).nodes.fits_place place.now ≡ true }
        ensures read { Calls (IsLooked link device place.now sharding_of (λ got. Sharded place.now got))
            (around (D.sight self.old.door) self.old.acts self.old.messages self.old.faults self.old.asks) link result
            (around (D.sight self.new.door) self.new.acts self.new.messages self.new.faults self.new.asks) }
        ensures asks { self.new.asks ≡ self.old.asks }
        ensures inside { (D.sight self.new.door).asks ≡ (D.sight self.old.door).asks }
        ensures happens { Happens D.sight (IsLooked link device place.now sharding_of (λ got. Sharded place.now got)) link
            (fate_of self.old.acts link self.old.messages) self.old.door result self.new.door }
        ensures acts { self.new.acts ≡ self.old.acts }
        ensures messages { self.new.messages ≡ messages_after link self.old.messages }
        ensures faults { self.new.faults ≡ faults_after (fate_of self.old.acts link self.old.messages) self.old.faults }
    {
        match self.next(link) {
            Fate::Goes => self.door.sharding(alloc, link, device, place),
            Fate::IsLost => Err(Lost),
            Fate::LosesReply => {
                let _ = self.door.sharding(alloc, link, device, place);
                Err(Lost)
            }
            Fate::ComesTwice => {
                let _ = self.door.sharding(alloc, link, device, place);
                self.door.sharding(alloc, link, device, place)
            }
        }
    }

    fn rows_above(
        &mut self,
        alloc: Global,
        link: Link,
        device: u8,
        place: &Place,
        range: u32,
        above: u64,
    ) -> Result<Result<Parcel, ContAnswer>, Lost>
        requires device { device < (D.sight self.old.door).nodes.devices }
        requires fits { (D.sight self.old.door).nodes.fits_place place.now ≡ true }
        ensures read { Calls (IsLooked link device place.now (range_parcel_of range above) (λ got. Cleft place.now range above got))
            (around (D.sight self.old.door) self.old.acts self.old.messages self.old.faults self.old.asks) link result
            (around (D.sight self.new.door) self.new.acts self.new.messages self.new.faults self.new.asks) }
        ensures asks { self.new.asks ≡ self.old.asks }
        ensures inside { (D.sight self.new.door).asks ≡ (D.sight self.old.door).asks }
        ensures happens { Happens D.sight (IsLooked link device place.now (range_parcel_of range above) (λ got. Cleft place.now range above got)) link
            (fate_of self.old.acts link self.old.messages) self.old.door result self.new.door }
        ensures acts { self.new.acts ≡ self.old.acts }
        ensures messages { self.new.messages ≡ messages_after link self.old.messages }
        ensures faults { self.new.faults ≡ faults_after (fate_of self.old.acts link self.old.messages) self.old.faults }
    {
        match self.next(link) {
            Fate::Goes => self
                .door
                .rows_above(alloc, link, device, place, range, above),
            Fate::IsLost => Err(Lost),
            Fate::LosesReply => {
                let _ = self
                    .door
                    .rows_above(alloc, link, device, place, range, above);
                Err(Lost)
            }
            Fate::ComesTwice => {
                let _ = self
                    .door
                    .rows_above(alloc, link, device, place, range, above);
                self.door
                    .rows_above(alloc, link, device, place, range, above)
            }
        }
    }
}
