ghost use Rattle.std.specs.Prelude.{◌≡◌, ℕ, ◌<◌, ◌^◌, decimal};
ghost use Rattle.std.specs.Str.{bytes_eq};
ghost use Rattle.sw_object_server.specs.Places.{IsPartition};

use itoa::Buffer;
use std::str;
use sw_ring::Ring;

/// The partition that a text names: its decimal number, without leading zeros, below 2 to the part power.
pub fn partition_named(ring: &Ring, text: &[u8]) -> Option<u32>
    ensures named { IsPartition ring.now text.now result }
{
    let part = number_of(text)?;
    if part < 1 << ring.power && has_number(text, part) {
        Some(part)
    } else {
        None
    }
}

/// The number whose decimal form the text is. It reads other forms as well, as one with a plus sign.
fn number_of(text: &[u8]) -> Option<u32>
    ensures { (n : ℕ) → n < 2 ^ 32 → text.now ≡ decimal n → result ≡ Some n }
{
    let Ok(text) = str::from_utf8(text) else {
        return None;
    };
    match text.parse() {
        Ok(number) => Some(number),
        Err(_) => None,
    }
}

/// Whether the text is the decimal form of the number.
pub fn has_number(text: &[u8], number: u32) -> bool
    ensures { result ≡ bytes_eq text.now (decimal number) }
{
    let mut buffer = Buffer::new();
    text == buffer.format(number).as_bytes()
}
