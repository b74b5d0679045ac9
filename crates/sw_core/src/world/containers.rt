use crate::world::World;
use std::alloc::Global;
use sw_container_steps::{ContAnswer, ContChange, Info, Parcel, Sharding};
use sw_hashpath::Place;
use sw_keeper::Keeper;
use sw_listing::{Entries, Query};
use sw_peer::{ContainerDoor, Link, Lost};
use sw_timestamp::Timestamp;
use sw_volume::Volume;

/// A step at a container comes to the lock of its place, and its line is kept, as those of objects are. A step that wants memory for its line, before it
/// is made, is no step and has no line.
impl<V: Volume + Drop, K: Keeper + Drop> ContainerDoor for World<V, K> {
    fn change_container(
        &mut self,
        alloc: Global,
        link: Link,
        device: u8,
        place: &Place,
        change: &ContChange,
    ) -> Result<ContAnswer, Lost> {
        let lock = self.lock(device, &place.hash);
        if self.lines.reserve(1).is_err() {
            self.containers.may_stand(lock);
            return Ok(ContAnswer::NoMemory);
        }
        let (answer, line) = self
            .containers
            .change(alloc, lock, link, device, place, change);
        self.lines.push_reserved(line);
        Ok(answer)
    }

    fn times(
        &mut self,
        alloc: Global,
        link: Link,
        device: u8,
        place: &Place,
    ) -> Result<Result<Option<(Timestamp, Option<Timestamp>)>, ContAnswer>, Lost> {
        let lock = self.lock(device, &place.hash);
        if self.lines.reserve(1).is_err() {
            self.containers.may_stand(lock);
            return Ok(Err(ContAnswer::NoMemory));
        }
        let (got, line) = self.containers.times(alloc, lock, link, device, place);
        self.lines.push_reserved(line);
        Ok(got)
    }

    fn info(
        &mut self,
        alloc: Global,
        link: Link,
        device: u8,
        place: &Place,
    ) -> Result<Result<Info, ContAnswer>, Lost> {
        let lock = self.lock(device, &place.hash);
        if self.lines.reserve(1).is_err() {
            self.containers.may_stand(lock);
            return Ok(Err(ContAnswer::NoMemory));
        }
        let (got, line) = self.containers.info(alloc, lock, link, device, place);
        self.lines.push_reserved(line);
        Ok(got)
    }

    fn list(
        &mut self,
        alloc: Global,
        link: Link,
        device: u8,
        place: &Place,
        query: &Query,
    ) -> Result<Result<Entries, ContAnswer>, Lost> {
        let lock = self.lock(device, &place.hash);
        if self.lines.reserve(1).is_err() {
            self.containers.may_stand(lock);
            return Ok(Err(ContAnswer::NoMemory));
        }
        let (got, line) = self
            .containers
            .list(alloc, lock, link, device, place, query);
        self.lines.push_reserved(line);
        Ok(got)
    }

    fn sync_rows(
        &mut self,
        alloc: Global,
        link: Link,
        device: u8,
        place: &Place,
        to: u8,
    ) -> Result<Result<Parcel, ContAnswer>, Lost> {
        let lock = self.lock(device, &place.hash);
        if self.lines.reserve(1).is_err() {
            self.containers.may_stand(lock);
            return Ok(Err(ContAnswer::NoMemory));
        }
        let (got, line) = self
            .containers
            .sync_rows(alloc, lock, link, device, place, to);
        self.lines.push_reserved(line);
        Ok(got)
    }

    fn sharding(
        &mut self,
        alloc: Global,
        link: Link,
        device: u8,
        place: &Place,
    ) -> Result<Result<Sharding, ContAnswer>, Lost> {
        let lock = self.lock(device, &place.hash);
        if self.lines.reserve(1).is_err() {
            self.containers.may_stand(lock);
            return Ok(Err(ContAnswer::NoMemory));
        }
        let (got, line) = self.containers.sharding(alloc, lock, link, device, place);
        self.lines.push_reserved(line);
        Ok(got)
    }

    fn rows_above(
        &mut self,
        alloc: Global,
        link: Link,
        device: u8,
        place: &Place,
        range: u32,
        above: u64,
    ) -> Result<Result<Parcel, ContAnswer>, Lost> {
        let lock = self.lock(device, &place.hash);
        if self.lines.reserve(1).is_err() {
            self.containers.may_stand(lock);
            return Ok(Err(ContAnswer::NoMemory));
        }
        let (got, line) = self
            .containers
            .rows_above(alloc, lock, link, device, place, range, above);
        self.lines.push_reserved(line);
        Ok(got)
    }
}
