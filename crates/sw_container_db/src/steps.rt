ghost use Rattle.sw_container_db.specs.Calling.{Called, StepWants};
ghost use Rattle.sw_container_db.specs.Stepping.{IsStep};
ghost use Rattle.sw_container_steps.specs.declared.cont_change.ContChange.TheVariants as changes;

use crate::cont_dir::ContDir;
use std::alloc::Global;
use sw_container_steps::{ContAnswer, ContChange, DeviceList, RowList};
use sw_hashpath::Place;
use sw_keeper::Keeper;
use sw_rows::Row;
use sw_shard_range::Ranges;
use sw_timestamp::Timestamp;

/// The changing steps, each by its own name: [`ContDir::change`] says what they have in common.
impl<K: Keeper + Drop> ContDir<K> {
    /// Creates the container: [`ContAnswer::New`] where it was absent, [`ContAnswer::There`] where it was there; its put time becomes the later.
    /// [`ContAnswer::Stale`] exactly where it is deleted and the time is earlier than that of its deletion, which it tells.
    pub fn create(&mut self, alloc: Global, place: &Place, time: Timestamp) -> ContAnswer
        ensures made { IsStep K.tells K.holds K.faults self.old place.now (changes.Create time) result self.new }
        ensures called { Called K.tells K.holds K.faults K.calls self.old place.now (changes.Create time) result self.new }
        ensures wanted { StepWants K.tells K.holds K.faults K.calls self.old place.now (changes.Create time) result self.new }
    {
        self.change(alloc, place, &ContChange::Create { time })
    }

    /// Deletes the container. Its rows stay. [`ContAnswer::Absent`] exactly where it is absent; then [`ContAnswer::HasRanges`] exactly where it has
    /// shard ranges; then [`ContAnswer::NotEmpty`] exactly where it has
    /// live rows, with their number; then [`ContAnswer::Stale`] exactly where the time isn't later than the put time, which it tells.
    pub fn remove(&mut self, alloc: Global, place: &Place, time: Timestamp) -> ContAnswer
        ensures made { IsStep K.tells K.holds K.faults self.old place.now (changes.Remove time) result self.new }
        ensures called { Called K.tells K.holds K.faults K.calls self.old place.now (changes.Remove time) result self.new }
        ensures wanted { StepWants K.tells K.holds K.faults K.calls self.old place.now (changes.Remove time) result self.new }
    {
        self.change(alloc, place, &ContChange::Remove { time })
    }

    /// Puts the row in where the present one of its name doesn't count as much. A live row creates an absent container whose account begins with
    /// `.`; else [`ContAnswer::Absent`] exactly where the container is absent, and [`ContAnswer::Redirect`] exactly where the row's name is left to a
    /// shard, which it tells.
    pub fn merge_row(&mut self, alloc: Global, place: &Place, row: Row) -> ContAnswer
        ensures made { IsStep K.tells K.holds K.faults self.old place.now (changes.MergeRow row) result self.new }
        ensures called { Called K.tells K.holds K.faults K.calls self.old place.now (changes.MergeRow row) result self.new }
        ensures wanted { StepWants K.tells K.holds K.faults K.calls self.old place.now (changes.MergeRow row) result self.new }
    {
        self.change(alloc, place, &ContChange::MergeRow { row })
    }

    /// The same of all these rows, in their order and in one batch. The first live one creates the container where that is absent. None is put in
    /// where the name of one is left to a shard: [`ContAnswer::Redirect`] tells that of the first.
    pub fn merge_rows(&mut self, alloc: Global, place: &Place, rows: RowList) -> ContAnswer
        ensures made { IsStep K.tells K.holds K.faults self.old place.now (changes.MergeRows rows) result self.new }
        ensures called { Called K.tells K.holds K.faults K.calls self.old place.now (changes.MergeRows rows) result self.new }
        ensures wanted { StepWants K.tells K.holds K.faults K.calls self.old place.now (changes.MergeRows rows) result self.new }
    {
        self.change(alloc, place, &ContChange::MergeRows { rows })
    }

    /// Sets the shard ranges, each created, and none of them closed. [`ContAnswer::Absent`] exactly where the container is absent, then
    /// [`ContAnswer::HasRanges`] exactly where it has ranges.
    pub fn set_ranges(&mut self, alloc: Global, place: &Place, ranges: Ranges) -> ContAnswer
        ensures made { IsStep K.tells K.holds K.faults self.old place.now (changes.SetRanges ranges) result self.new }
        ensures called { Called K.tells K.holds K.faults K.calls self.old place.now (changes.SetRanges ranges) result self.new }
        ensures wanted { StepWants K.tells K.holds K.faults K.calls self.old place.now (changes.SetRanges ranges) result self.new }
    {
        self.change(alloc, place, &ContChange::SetRanges { ranges })
    }

    /// Keeps that a device of the range's shard has all rows of the range up to a number, where that is above the number that is kept.
    /// [`ContAnswer::Absent`] exactly where the container is absent, then [`ContAnswer::NoRanges`] exactly where it has no ranges.
    pub fn ack(
        &mut self,
        alloc: Global,
        place: &Place,
        range: u32,
        device: u8,
        rowid: u64,
    ) -> ContAnswer
        ensures made { IsStep K.tells K.holds K.faults self.old place.now (changes.Ack range device rowid) result self.new }
        ensures called { Called K.tells K.holds K.faults K.calls self.old place.now (changes.Ack range device rowid) result self.new }
        ensures wanted { StepWants K.tells K.holds K.faults K.calls self.old place.now (changes.Ack range device rowid) result self.new }
    {
        self.change(
            alloc,
            place,
            &ContChange::Ack {
                range,
                device,
                rowid,
            },
        )
    }

    /// Closes the first range that is open, whose shard has these devices: from then on its names are left to the shard. A range that is closed stays
    /// so. In order: [`ContAnswer::Absent`]; [`ContAnswer::NoRanges`]; [`ContAnswer::StillOpen`] exactly where the range isn't the first open one;
    /// [`ContAnswer::NotAcked`] with the first of the devices that has no point of the range, or one below the greatest that is kept of it;
    /// [`ContAnswer::Later`] with the least number of a row of the range that is above that point.
    pub fn close_range(
        &mut self,
        alloc: Global,
        place: &Place,
        range: u32,
        devices: DeviceList,
    ) -> ContAnswer
        ensures made { IsStep K.tells K.holds K.faults self.old place.now (changes.CloseRange range devices) result self.new }
        ensures called { Called K.tells K.holds K.faults K.calls self.old place.now (changes.CloseRange range devices) result self.new }
        ensures wanted { StepWants K.tells K.holds K.faults K.calls self.old place.now (changes.CloseRange range devices) result self.new }
    {
        self.change(alloc, place, &ContChange::CloseRange { range, devices })
    }

    /// Takes the rows away, once each range is closed. In order: [`ContAnswer::Absent`]; [`ContAnswer::NoRanges`]; [`ContAnswer::StillOpen`] with the
    /// first open range.
    pub fn empty_out(&mut self, alloc: Global, place: &Place) -> ContAnswer
        ensures made { IsStep K.tells K.holds K.faults self.old place.now changes.EmptyOut result self.new }
        ensures called { Called K.tells K.holds K.faults K.calls self.old place.now changes.EmptyOut result self.new }
        ensures wanted { StepWants K.tells K.holds K.faults K.calls self.old place.now changes.EmptyOut result self.new }
    {
        self.change(alloc, place, &ContChange::EmptyOut)
    }

    /// Keeps that a device has all rows up to a number, where that is above the number that is kept. [`ContAnswer::Absent`] exactly where the
    /// container is absent.
    pub fn set_sync(&mut self, alloc: Global, place: &Place, device: u8, rowid: u64) -> ContAnswer
        ensures made { IsStep K.tells K.holds K.faults self.old place.now (changes.SetSync device rowid) result self.new }
        ensures called { Called K.tells K.holds K.faults K.calls self.old place.now (changes.SetSync device rowid) result self.new }
        ensures wanted { StepWants K.tells K.holds K.faults K.calls self.old place.now (changes.SetSync device rowid) result self.new }
    {
        self.change(alloc, place, &ContChange::SetSync { device, rowid })
    }
}
