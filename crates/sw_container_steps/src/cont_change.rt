use sw_outside::Sequence;
use sw_rows::Row;
use sw_shard_range::Ranges;
use sw_timestamp::Timestamp;

/// Rows in order.
pub type RowList = Sequence<Row>;

/// Devices by their numbers, in order.
pub type DeviceList = Sequence<u8>;

/// A step that may change a container.
#[derive(Debug, Drop)]
pub enum ContChange {
    /// Creates the container.
    Create { time: Timestamp },
    /// Deletes the container. Its rows stay.
    Remove { time: Timestamp },
    /// Puts the row in where the present one of its name doesn't count as much.
    MergeRow { row: Row },
    /// The same of all these rows, one after the other, in one batch.
    MergeRows { rows: RowList },
    /// Sets the shard ranges, where the container has none. Each shard was created.
    SetRanges { ranges: Ranges },
    /// Keeps that this device of the range's shard has all rows of the range up to this number, where that is above the number that is kept.
    Ack { range: u32, device: u8, rowid: u64 },
    /// Closes the first range that is open: its names are left to its shard, whose devices these are.
    CloseRange { range: u32, devices: DeviceList },
    /// Takes the rows away, where each range is closed.
    EmptyOut,
    /// Keeps that the device has all rows up to this number, where that is above the number that is kept.
    SetSync { device: u8, rowid: u64 },
}
