use sw_diskfile::FileName;
use sw_history::Seen;
use sw_object_steps::{DirFault, Stored};
use sw_pending::Filed;
use sw_rows::Row;
use sw_suffix::{DirLine, SuffixHash};

/// A read of what stands under several hashes, or of a file, and what it was answered. Contracts alone see the answers.
#[derive(Drop)]
pub enum PartRead {
    /// Of this partition, what is compared of each suffix that has a file.
    Hashes(u32, Seen<Result<Vec<SuffixHash>, DirFault>>),
    /// Of this partition and suffix, the files that count of each hash.
    Files(u32, u16, Seen<Result<Vec<DirLine>, DirFault>>),
    /// Of this partition, a file of this hash.
    Write(u32, [u8; 16], FileName, Seen<Result<Option<Stored>, DirFault>>),
    /// Of this stripe, all records that are filed.
    Records(u8, Seen<Result<Vec<Filed>, DirFault>>),
    /// Of the name of this record, the row that tells what stands there.
    Base(Seen<Filed>, Seen<Result<Option<Row>, DirFault>>),
}
