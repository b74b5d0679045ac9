use sw_container_steps::ContChange;
use sw_listing::Query;

/// What a request asks for at its container.
#[derive(Debug, Drop)]
pub(crate) enum Verdict {
    /// Nothing: it is refused with this status.
    Refused(u16),
    /// The container is to be changed so.
    Change(ContChange),
    /// It is to be told of, with the counts of its shards: each is asked at the replica of this number.
    Info { replica: u8 },
    /// It is to be told of and listed.
    List { query: Query, replica: u8 },
}
