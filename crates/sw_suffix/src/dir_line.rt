use sw_diskfile::Picked;

/// What counts in the directory of a hash.
#[derive(Clone, Copy, Debug, PartialEq, Eq)]
pub struct DirLine {
    /// The hash whose directory it is.
    pub hash: [u8; 16],
    /// What is picked of the files of the directory.
    pub picked: Picked,
}
