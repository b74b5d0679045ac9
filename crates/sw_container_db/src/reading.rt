ghost use Rattle.std.specs.Prelude.{◌≡◌, ◌++◌, ◌∷◌, [], true, List, Option};
ghost use Rattle.sw_container_db.specs.Calling.{OfNone, ReadCalled, ReadWants};
ghost use Rattle.sw_container_db.specs.LoadedList.{IsLast};
ghost use Rattle.sw_container_db.specs.Stepping.{IsReadStep};
ghost use Rattle.sw_container_steps.specs.Reads.{info_of, listing_of, parcel_of, range_parcel_of, sharding_of, times_of};
ghost use Rattle.sw_container_steps.specs.Reads.{HasClosed, HasRangeRows, HasRowsFor, HasSharding};
ghost use Rattle.sw_container_steps.specs.Presence.{is_present};
ghost use Rattle.sw_container_db.specs.declared.loaded_list.Loaded.{Loaded};
ghost use Rattle.sw_hashpath.specs.declared.place.Place.{Place};
ghost use Rattle.sw_keeper.specs.declared.tables.Tables.{Tables};

use crate::cont_dir::ContDir;
use std::alloc::Global;
use sw_container_steps::{
    ContAnswer, Info, Parcel, Sharding, info_of, list, rows_above, sharding_of, sync_rows, times_of,
};
use sw_hashpath::Place;
use sw_keeper::{Keeper, Tables};
use sw_listing::{Entries, Query};
use sw_outside::NoMemory;
use sw_timestamp::Timestamp;

/// Reads of one container. Each settles the doubt where there is one, loads the container's tables where they aren't loaded, and
/// answers from these. No tables change. Once they were read, only a listing takes memory, rows that there are to be sent, ranges, and what is told of a
/// container some of whose ranges are closed.
impl<K: Keeper + Drop> ContDir<K> {
    /// The put time and the delete time of the container, also of a deleted one; none where it was never created.
    pub fn times(
        &mut self,
        alloc: Global,
        place: &Place,
    ) -> Result<Option<(Timestamp, Option<Timestamp>)>, ContAnswer>
        ensures read { IsReadStep K.tells K.holds K.faults self.old place.now times_of result self.new }
        ensures called { ReadCalled K.tells K.holds K.faults K.calls self.old place.now result self.new }
        ensures wanted { ReadWants K.tells K.holds K.faults K.calls OfNone self.old place.now result self.new }
    {
        self.ready(alloc, place)?;
        Ok(times_of(self.tables()))
    }

    /// What is told of the container. [`ContAnswer::Absent`] exactly where there is none.
    pub fn info(&mut self, alloc: Global, place: &Place) -> Result<Info, ContAnswer>
        ensures read { IsReadStep K.tells K.holds K.faults self.old place.now info_of result self.new }
        ensures called { ReadCalled K.tells K.holds K.faults K.calls self.old place.now result self.new }
        ensures wanted { ReadWants K.tells K.holds K.faults K.calls HasClosed self.old place.now result self.new }
    {
        self.ready(alloc, place)?;
        match info_of(alloc, self.tables(), self.front()) {
            Ok(answer) => answer,
            Err(NoMemory) => Err(ContAnswer::NoMemory),
        }
    }

    /// The listing that answers a query. [`ContAnswer::Absent`] exactly where there is no container.
    pub fn list(
        &mut self,
        alloc: Global,
        place: &Place,
        query: &Query,
    ) -> Result<Entries, ContAnswer>
        ensures read { IsReadStep K.tells K.holds K.faults self.old place.now (listing_of query.now) result self.new }
        ensures called { ReadCalled K.tells K.holds K.faults K.calls self.old place.now result self.new }
        ensures wanted { ReadWants K.tells K.holds K.faults K.calls (λ (read : Option Tables). is_present read ≡ true) self.old place.now result self.new }
    {
        self.ready(alloc, place)?;
        match list(alloc, self.tables(), query) {
            Ok(answer) => answer,
            Err(NoMemory) => Err(ContAnswer::NoMemory),
        }
    }

    /// The rows above the sync point that is kept for a device. [`ContAnswer::Absent`] exactly where there is no container.
    pub fn sync_rows(
        &mut self,
        alloc: Global,
        place: &Place,
        device: u8,
    ) -> Result<Parcel, ContAnswer>
        ensures read { IsReadStep K.tells K.holds K.faults self.old place.now (parcel_of device) result self.new }
        ensures called { ReadCalled K.tells K.holds K.faults K.calls self.old place.now result self.new }
        ensures wanted { ReadWants K.tells K.holds K.faults K.calls (HasRowsFor device) self.old place.now result self.new }
    {
        self.ready(alloc, place)?;
        match sync_rows(alloc, self.tables(), device) {
            Ok(answer) => answer,
            Err(NoMemory) => Err(ContAnswer::NoMemory),
        }
    }

    /// How far the container is split into shards. [`ContAnswer::Absent`] exactly where there is no container.
    pub fn sharding(&mut self, alloc: Global, place: &Place) -> Result<Sharding, ContAnswer>
        ensures read { IsReadStep K.tells K.holds K.faults self.old place.now sharding_of result self.new }
        ensures called { ReadCalled K.tells K.holds K.faults K.calls self.old place.now result self.new }
        ensures wanted { ReadWants K.tells K.holds K.faults K.calls HasSharding self.old place.now result self.new }
    {
        self.ready(alloc, place)?;
        match sharding_of(alloc, self.tables()) {
            Ok(answer) => answer,
            Err(NoMemory) => Err(ContAnswer::NoMemory),
        }
    }

    /// The rows of a range above a number. [`ContAnswer::Absent`] exactly where there is no container, then [`ContAnswer::NoRanges`] exactly where it
    /// has no ranges.
    pub fn rows_above(
        &mut self,
        alloc: Global,
        place: &Place,
        range: u32,
        point: u64,
    ) -> Result<Parcel, ContAnswer>
        ensures read { IsReadStep K.tells K.holds K.faults self.old place.now (range_parcel_of range point) result self.new }
        ensures called { ReadCalled K.tells K.holds K.faults K.calls self.old place.now result self.new }
        ensures wanted { ReadWants K.tells K.holds K.faults K.calls (HasRangeRows range point) self.old place.now result self.new }
    {
        self.ready(alloc, place)?;
        match rows_above(alloc, self.tables(), range, point) {
            Ok(answer) => answer,
            Err(NoMemory) => Err(ContAnswer::NoMemory),
        }
    }

    /// The tables that were used last, those of the place.
    fn tables(&self) -> &Option<Tables>
        requires { (place : Place) × IsLast place self.now.loaded }
        ensures { (others : List Loaded) → (l : Loaded) → self.now.loaded ≡ others ++ l ∷ [] → result.now ≡ l.tables }
    {
        self.loaded.last()
    }
}
