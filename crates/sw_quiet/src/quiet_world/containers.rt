use crate::quiet_world::QuietWorld;
use std::alloc::Global;
use sw_container_steps::{ContAnswer, ContChange, Info, Parcel, Sharding};
use sw_hashpath::Place;
use sw_keeper::Keeper;
use sw_listing::{Entries, Query};
use sw_peer::{ContainerDoor, Link, Lost};
use sw_timestamp::Timestamp;
use sw_volume::Volume;

/// A step at a container is that of the world within.
impl<V: Volume + Drop, K: Keeper + Drop> ContainerDoor for QuietWorld<V, K> {
    fn change_container(
        &mut self,
        alloc: Global,
        link: Link,
        device: u8,
        place: &Place,
        change: &ContChange,
    ) -> Result<ContAnswer, Lost> {
        let answer = self
            .world
            .change_container(alloc, link, device, place, change);
        let _ = self.world.take_trail(alloc);
        answer
    }

    fn times(
        &mut self,
        alloc: Global,
        link: Link,
        device: u8,
        place: &Place,
    ) -> Result<Result<Option<(Timestamp, Option<Timestamp>)>, ContAnswer>, Lost> {
        let got = self.world.times(alloc, link, device, place);
        let _ = self.world.take_trail(alloc);
        got
    }

    fn info(
        &mut self,
        alloc: Global,
        link: Link,
        device: u8,
        place: &Place,
    ) -> Result<Result<Info, ContAnswer>, Lost> {
        let got = self.world.info(alloc, link, device, place);
        let _ = self.world.take_trail(alloc);
        got
    }

    fn list(
        &mut self,
        alloc: Global,
        link: Link,
        device: u8,
        place: &Place,
        query: &Query,
    ) -> Result<Result<Entries, ContAnswer>, Lost> {
        let got = self.world.list(alloc, link, device, place, query);
        let _ = self.world.take_trail(alloc);
        got
    }

    fn sync_rows(
        &mut self,
        alloc: Global,
        link: Link,
        device: u8,
        place: &Place,
        to: u8,
    ) -> Result<Result<Parcel, ContAnswer>, Lost> {
        let got = self.world.sync_rows(alloc, link, device, place, to);
        let _ = self.world.take_trail(alloc);
        got
    }

    fn sharding(
        &mut self,
        alloc: Global,
        link: Link,
        device: u8,
        place: &Place,
    ) -> Result<Result<Sharding, ContAnswer>, Lost> {
        let got = self.world.sharding(alloc, link, device, place);
        let _ = self.world.take_trail(alloc);
        got
    }

    fn rows_above(
        &mut self,
        alloc: Global,
        link: Link,
        device: u8,
        place: &Place,
        range: u32,
        above: u64,
    ) -> Result<Result<Parcel, ContAnswer>, Lost> {
        let got = self
            .world
            .rows_above(alloc, link, device, place, range, above);
        let _ = self.world.take_trail(alloc);
        got
    }
}
