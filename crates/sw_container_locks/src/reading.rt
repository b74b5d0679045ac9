ghost use Rattle.sw_container_locks.specs.Making.{IsReadAt};
ghost use Rattle.sw_container_locks.specs.Slots.{IsOpen};
ghost use Rattle.sw_container_steps.specs.Reads.{info_of, listing_of, parcel_of, range_parcel_of, sharding_of, times_of};
ghost use Rattle.sw_peer.specs.declared.cont_event.ContEvent.TheVariants.{Cleft, Informed, Listed, Parceled, Sharded, Timed};

use crate::cont_locks::ContLocks;
use crate::cont_slot::ContSlot;
use crate::making::{info_in, list_in, rows_above_in, sharding_in, sync_rows_in, times_in};
use std::alloc::Global;
use sw_container_steps::{ContAnswer, Info, Parcel, Sharding};
use sw_hashpath::Place;
use sw_keeper::Keeper;
use sw_listing::{Entries, Query};
use sw_peer::{KeptLine, Link};
use sw_timestamp::Timestamp;

/// Reads at one lock, which is open, each with its line. No tables change.
impl<K: Keeper + Drop> ContLocks<K> {
    /// Reads the put time and the delete time of the container, also of a deleted one; none where it was never created.
    pub fn times(
        &mut self,
        alloc: Global,
        lock: usize,
        link: Link,
        device: u8,
        place: &Place,
    ) -> (
        Result<Option<(Timestamp, Option<Timestamp>)>, ContAnswer>,
        KeptLine,
    )
        requires is_open { IsOpen self.old lock }
        ensures { IsReadAt K.tells K.holds K.faults K.calls lock link device place.now times_of (λ got. Timed place.now got) self.old result.0
            self.new result.1 }
    {
        let ContSlot::Open(dir) = &mut self.slots[lock] else {
            unreachable!()
        };
        times_in(alloc, dir, link, device, place)
    }

    /// Reads what is told of the container. [`ContAnswer::Absent`] exactly where there is none.
    pub fn info(
        &mut self,
        alloc: Global,
        lock: usize,
        link: Link,
        device: u8,
        place: &Place,
    ) -> (Result<Info, ContAnswer>, KeptLine)
        requires is_open { IsOpen self.old lock }
        ensures { IsReadAt K.tells K.holds K.faults K.calls lock link device place.now info_of (λ got. Informed place.now got) self.old result.0
            self.new result.1 }
    {
        let ContSlot::Open(dir) = &mut self.slots[lock] else {
            unreachable!()
        };
        info_in(alloc, dir, link, device, place)
    }

    /// Reads the listing that answers a query. [`ContAnswer::Absent`] exactly where there is no container.
    pub fn list(
        &mut self,
        alloc: Global,
        lock: usize,
        link: Link,
        device: u8,
        place: &Place,
        query: &Query,
    ) -> (Result<Entries, ContAnswer>, KeptLine)
        requires is_open { IsOpen self.old lock }
        ensures { IsReadAt K.tells K.holds K.faults K.calls lock link device place.now (listing_of query.now) (λ got. Listed place.now query.now got) self.old
            result.0 self.new result.1 }
    {
        let ContSlot::Open(dir) = &mut self.slots[lock] else {
            unreachable!()
        };
        list_in(alloc, dir, link, device, place, query)
    }

    /// Reads the rows above the sync point that the container keeps for the device `to`, and the greatest number given out. [`ContAnswer::Absent`]
    /// exactly where there is no container.
    pub fn sync_rows(
        &mut self,
        alloc: Global,
        lock: usize,
        link: Link,
        device: u8,
        place: &Place,
        to: u8,
    ) -> (Result<Parcel, ContAnswer>, KeptLine)
        requires is_open { IsOpen self.old lock }
        ensures { IsReadAt K.tells K.holds K.faults K.calls lock link device place.now (parcel_of to) (λ got. Parceled place.now to got) self.old result.0
            self.new result.1 }
    {
        let ContSlot::Open(dir) = &mut self.slots[lock] else {
            unreachable!()
        };
        sync_rows_in(alloc, dir, link, device, place, to)
    }

    /// Reads how far the container is split into shards. [`ContAnswer::Absent`] exactly where there is none.
    pub fn sharding(
        &mut self,
        alloc: Global,
        lock: usize,
        link: Link,
        device: u8,
        place: &Place,
    ) -> (Result<Sharding, ContAnswer>, KeptLine)
        requires is_open { IsOpen self.old lock }
        ensures { IsReadAt K.tells K.holds K.faults K.calls lock link device place.now sharding_of (λ got. Sharded place.now got) self.old result.0
            self.new result.1 }
    {
        let ContSlot::Open(dir) = &mut self.slots[lock] else {
            unreachable!()
        };
        sharding_in(alloc, dir, link, device, place)
    }

    /// Reads the rows of the range with this index that are above a number, and the greatest number given out. [`ContAnswer::Absent`] exactly where there
    /// is no container, and then [`ContAnswer::NoRanges`] exactly where it has no ranges.
    pub fn rows_above(
        &mut self,
        alloc: Global,
        lock: usize,
        link: Link,
        device: u8,
        place: &Place,
        range: u32,
        above: u64,
    ) -> (Result<Parcel, ContAnswer>, KeptLine)
        requires is_open { IsOpen self.old lock }
        ensures { IsReadAt K.tells K.holds K.faults K.calls lock link device place.now (range_parcel_of range above) (λ got. Cleft place.now range above got)
            self.old result.0 self.new result.1 }
    {
        let ContSlot::Open(dir) = &mut self.slots[lock] else {
            unreachable!()
        };
        rows_above_in(alloc, dir, link, device, place, range, above)
    }
}
