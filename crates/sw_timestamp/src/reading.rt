ghost use Rattle.std.specs.Prelude.{◌≡◌, ◌≢◌, ◌≤◌, ◌↔◌, ℕ, List, length, IsTrue, IfOk, IsErr, IfSome, IsNone};
ghost use Rattle.std.specs.List.{prefix_len};
ghost use Rattle.std.specs.Char.{is_ascii_digit};
ghost use Rattle.std.specs.Str.Parse.{AllDigits, IsNumeral, digits_value};
ghost use Rattle.sw_timestamp.specs.TimeText.{IsTimeText, units_of_digits, with_point};

use crate::timestamp::Timestamp;
use thiserror::Error;

/// The text is no time.
#[derive(Clone, Copy, Debug, PartialEq, Eq, Error)]
#[error("not a timestamp")]
pub struct NotTimestamp;

impl Timestamp {
    /// Reads 1 to 10 digits of seconds and, after a point, 1 to 5 decimals. Decimals that are missing on the right are
    /// zeros. Every other text is [`NotTimestamp`].
    pub fn parse(text: &[u8]) -> Result<Timestamp, NotTimestamp>
        ensures reads { IfOk result (λ t. IsTimeText text.now t) }
        ensures refuses { IsErr result → (t : ℕ) → ¬ IsTimeText text.now t }
    {
        let (seconds, rest) = text.split_at(digits_at_front(text));
        let Some(decimals) = decimals_after_point(rest) else {
            return Err(NotTimestamp);
        };
        if !has_digits(seconds, 1, 10) {
            return Err(NotTimestamp);
        }
        if !has_digits(decimals, 0, 5) {
            return Err(NotTimestamp);
        }
        Ok(Timestamp::of(seconds, decimals))
    }

    /// The time of these digits.
    fn of(seconds: &[u8], decimals: &[u8]) -> Timestamp
        requires are_seconds { IsNumeral 10 seconds.now }
        requires seconds_fit { length seconds.now ≤ 10 }
        requires are_decimals { AllDigits 10 decimals.now }
        requires decimals_fit { length decimals.now ≤ 5 }
        ensures { result ≡ units_of_digits seconds.now decimals.now }
    {
        let missing = 5 - decimals.len() as u32;
        let units = number(seconds) * 100_000 + number(decimals) * 10u64.pow(missing);
        Timestamp { units }
    }
}

/// How many digits the text begins with.
fn digits_at_front(text: &[u8]) -> usize
    ensures count { result ≡ prefix_len is_ascii_digit text.now }
    ensures bound { result ≤ length text.now }
{
    text.iter().take_while(|byte| byte.is_ascii_digit()).count()
}

/// Whether the text has digits only, `least` to `most` of them.
fn has_digits(text: &[u8], least: usize, most: usize) -> bool
    ensures { IsTrue result ↔ (AllDigits 10 text.now × (least ≤ length text.now) × (length text.now ≤ most)) }
{
    least <= text.len() && text.len() <= most && all_digits(text)
}

fn all_digits(text: &[u8]) -> bool
    ensures { IsTrue result ↔ AllDigits 10 text.now }
{
    digits_at_front(text) == text.len()
}

/// What follows the point, where the text is empty or a point with something after it.
fn decimals_after_point(text: &[u8]) -> Option<&[u8]>
    ensures some { IfSome result (λ decimals. text.now ≡ with_point decimals.now) }
    ensures none { IsNone result → (decimals : List ℕ) → text.now ≢ with_point decimals }
{
    match text {
        [] => Some(text),
        [b'.', decimals @ ..] if !decimals.is_empty() => Some(decimals),
        _ => None,
    }
}

/// The number that the digits write.
fn number(digits: &[u8]) -> u64
    requires are_digits { AllDigits 10 digits.now }
    requires fit { length digits.now ≤ 10 }
    ensures { result ≡ digits_value 10 digits.now }
{
    let mut number = 0;
    for digit in digits {
        number = number * 10 + u64::from(*digit - b'0');
    }
    number
}
