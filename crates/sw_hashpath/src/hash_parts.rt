ghost use Rattle.std.specs.Prelude.{◌≡◌, ◌^◌, ◌<◌, ◌≤◌};
ghost use Rattle.sw_hashpath.specs.HashParts.{partition_of, stripe_of, suffix_of};

/// The partition that a name with this hash belongs to, in a ring of 2 to the `power` partitions.
pub fn partition(hash: &[u8; 16], power: u8) -> u32
    requires least { 1 ≤ power }
    requires greatest { power ≤ 32 }
    ensures value { result ≡ partition_of hash.now power }
    ensures below { result < 2 ^ power }
{
    u32::from_be_bytes([hash[0], hash[1], hash[2], hash[3]]) >> (32 - power)
}

/// The suffix directory that a name with this hash belongs to: the last three hexadecimal digits of the hash.
pub fn suffix(hash: &[u8; 16]) -> u16
    ensures value { result ≡ suffix_of hash.now }
    ensures below { result < 4096 }
{
    u16::from_be_bytes([hash[14], hash[15]]) & 0x0fff
}

/// The stripe, one of 2 to the `lock_bits` locks of a device, that a name with this hash belongs to.
pub fn stripe(hash: &[u8; 16], lock_bits: u8) -> u8
    requires { lock_bits ≤ 4 }
    ensures value { result ≡ stripe_of hash.now lock_bits }
    ensures below { result < 2 ^ lock_bits }
{
    (u16::from(hash[0]) >> (8 - lock_bits)) as u8
}
