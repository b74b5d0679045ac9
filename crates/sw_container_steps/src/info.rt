use sw_timestamp::Timestamp;

/// How far a container is split into shards.
#[derive(Clone, Copy, Debug, PartialEq, Eq)]
pub enum SplitState {
    /// It has no shard ranges.
    Unsharded,
    /// It has ranges, and its rows weren't taken away yet.
    Sharding,
    /// Its rows were taken away: its shards have them.
    Sharded,
}

/// What is told of a container that is there.
#[derive(Clone, Copy, Debug, PartialEq, Eq)]
pub struct Info {
    pub put_time: Timestamp,
    /// How many rows are live.
    pub count: u64,
    /// How many bytes the live objects have together, at most 2^64 - 1.
    pub bytes: u64,
    /// The hash of all rows, deleted ones too.
    pub hash: u128,
    pub split: SplitState,
    /// How many entries the container's journal has.
    pub front: u64,
}
