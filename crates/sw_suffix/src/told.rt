/// What a node tells of a suffix.
#[derive(Clone, Copy, Debug, PartialEq, Eq)]
pub struct SuffixHash {
    /// The last three hexadecimal digits of the hashes, as a number below 4,096.
    pub suffix: u16,
    /// The MD5 of the text of the suffix, as [`suffix_hash`](crate::suffix_hash) gives it.
    pub md5: [u8; 16],
}
