ghost use Rattle.std.specs.Prelude.{◌≡◌, ◌≢◌, ℕ, ◌≤◌, MatchOption};
ghost use Rattle.sw_expiry.specs.TenDigits.{ten_digits};

use itoa::Buffer;
use sw_timestamp::Timestamp;

/// Units of 10 microseconds in a second.
const UNITS_PER_SECOND: u64 = 100_000;

/// The ten digits of a time in seconds.
pub(crate) fn ten_digits(seconds: u64) -> [u8; 10]
    requires { seconds ≤ 9999999999 }
    ensures { result ≡ ten_digits seconds }
{
    let mut text = [b'0'; 10];
    let mut buffer = Buffer::new();
    let digits = buffer.format(seconds).as_bytes();
    text[10 - digits.len()..].copy_from_slice(digits);
    text
}

/// The time in seconds whose ten digits these are. The text of a time may have fewer digits, and decimals, so what is read is written once more.
pub(crate) fn read_ten_digits(text: &[u8]) -> Option<u64>
    ensures { MatchOption result ((n : ℕ) → n ≤ 9999999999 → text.now ≢ ten_digits n) (λ n. (n ≤ 9999999999) × (text.now ≡ ten_digits n)) }
{
    let Ok(time) = Timestamp::parse(text) else {
        return None;
    };
    let seconds = time.units() / UNITS_PER_SECOND;
    if text == ten_digits(seconds).as_slice() {
        Some(seconds)
    } else {
        None
    }
}
