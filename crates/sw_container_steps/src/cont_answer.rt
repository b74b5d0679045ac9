use sw_hashpath::Place;
use sw_timestamp::Timestamp;

/// What a step at a container is answered.
#[derive(Debug, Drop)]
pub enum ContAnswer {
    /// The container was absent and is there now. The number is the front: how many entries its journal then has.
    New(u64),
    /// The container was there. The number is the front.
    There(u64),
    /// The step was made, or had nothing to change. The number is the front.
    Done(u64),
    /// There is no such container.
    Absent,
    /// What stands isn't earlier than the step: this is its put time, or the time of its deletion.
    Stale(Timestamp),
    /// So many live rows are there.
    NotEmpty(u64),
    /// The container has shard ranges.
    HasRanges,
    /// It has none.
    NoRanges,
    /// The name's range is closed: rows of it go to this shard.
    Redirect(Place),
    /// The ranges from this one on aren't closed.
    StillOpen(u32),
    /// A row of the range has this number (ROWID), which is above each point of the range: it came later.
    Later(u64),
    /// This device of the shard has no point of the range, or not the greatest.
    NotAcked(u8),
    /// The journal has no room for what the step would enter, or the container no numbers for its rows.
    JournalFull,
    /// The keeper failed.
    Failed,
    /// Memory ran out.
    NoMemory,
}
