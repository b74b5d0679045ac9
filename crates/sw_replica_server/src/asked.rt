use crate::suffix_list::SuffixList;

/// What a request for replicas asks for. A device is its place in the ring's list of devices.
#[derive(Debug, Drop)]
pub enum ReplicaAsked {
    /// Nothing: it is refused with this status.
    Refused(u16),
    /// What is compared of each suffix of this partition.
    Hashes {
        device: u8,
        part: u32,
    },
    /// The files of these suffixes of this partition.
    Files {
        device: u8,
        part: u32,
        suffixes: SuffixList,
    },
}
