ghost use Rattle.std.specs.Prelude.{◌≡◌, ◌+◌, ◌-◌, ◌<◌, ◌≤◌, ◌^◌, bit_xor, min};
ghost use Rattle.sw_rows.specs.Sums.{live_count, live_size, row_hash};

use crate::hash::row_hash;
use crate::row::Row;

/// Count, bytes and hash of rows, as they run while rows come and go. The bytes are the whole sum, which passes 64 bits.
#[derive(Clone, Copy, Debug)]
pub(crate) struct Sums {
    pub(crate) count: u64,
    pub(crate) bytes: u128,
    pub(crate) hash: u128,
}

impl Sums {
    /// The sums of no rows.
    pub(crate) const NONE: Sums = Sums {
        count: 0,
        bytes: 0,
        hash: 0,
    };

    /// The sums with a row more.
    pub(crate) fn with(self, row: &Row) -> Sums
        requires count { self.count < 2 ^ 63 }
        requires bytes { self.bytes < 2 ^ 127 }
        ensures count { result.count ≡ self.count + live_count row.now }
        ensures bytes { result.bytes ≡ self.bytes + live_size row.now }
        ensures hash { result.hash ≡ bit_xor self.hash (row_hash row.now) }
        ensures small { live_size row.now < 2 ^ 64 }
    {
        Sums {
            count: self.count + live_count(row),
            bytes: self.bytes + u128::from(live_size(row)),
            hash: self.hash ^ row_hash(row),
        }
    }

    /// The sums without a row that is in them.
    pub(crate) fn without(self, row: &Row) -> Sums
        requires count { live_count row.now ≤ self.count }
        requires bytes { live_size row.now ≤ self.bytes }
        ensures count { result.count ≡ self.count - live_count row.now }
        ensures bytes { result.bytes ≡ self.bytes - live_size row.now }
        ensures hash { result.hash ≡ bit_xor self.hash (row_hash row.now) }
    {
        let gone = row_hash(row);
        Sums {
            count: self.count - live_count(row),
            bytes: self.bytes - u128::from(live_size(row)),
            hash: self.hash ^ gone,
        }
    }

    /// The bytes, at most 2^64 - 1.
    pub(crate) fn capped_bytes(self) -> u64
        ensures { result ≡ min self.bytes (2 ^ 64 - 1) }
    {
        self.bytes.min(u128::from(u64::MAX)) as u64
    }
}

/// 1 where a row is live, else 0.
fn live_count(row: &Row) -> u64
    ensures { result ≡ live_count row.now }
{
    if row.deleted { 0 } else { 1 }
}

/// How many bytes of a live object a row tells of.
fn live_size(row: &Row) -> u64
    ensures { result ≡ live_size row.now }
{
    if row.deleted { 0 } else { row.size }
}
