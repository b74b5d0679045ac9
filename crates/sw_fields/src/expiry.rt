ghost use Rattle.std.specs.Prelude.{◌≡◌, ◌≤◌, ◌-◌, ◌^◌, true, min, nat_le, IfOk, IfSome};
ghost use Rattle.std.specs.Result.{result_ok};
ghost use Rattle.std.specs.List.{list_all};
ghost use Rattle.std.specs.Char.{is_ascii_digit};
ghost use Rattle.sw_state.specs.DeleteTimes.{is_delete_time};
ghost use Rattle.sw_fields.specs.Expiry.{checked_second as checked_second_at, expiry_of as expiry_of_fields, is_expired as is_expired_at};
ghost use Rattle.sw_fields.specs.Expiry.{is_second as is_second_text, may_expire as may_expire_at, path_size as path_size_of, second_of as second_of_text};

use crate::limits::MAX_EXPIRING_NAME;
use sw_hashpath::Name;
use sw_message::FieldList;
use sw_state::Heads;
use sw_timestamp::Timestamp;
use thiserror::Error;

/// Units of 10 microseconds in a second.
pub const UNITS_PER_SECOND: u64 = 100_000;

/// A second has at most so many digits.
const MAX_DIGITS: usize = 10;

/// What a request says of its object's expiry is refused.
#[derive(Clone, Copy, Debug, PartialEq, Eq, Error)]
#[error("not a second at which the object may expire")]
pub struct BadExpiry;

/// The second, since the epoch, at which a write of this time lets the name expire, where it does.
///
/// The error comes exactly where X-Delete-At is given and isn't 1 to 10 digits, or isn't later than the time of the write, or the
/// expirer's queue couldn't name the object.
pub fn expiry_of(time: Timestamp, name: &Name, fields: &FieldList) -> Result<Option<u64>, BadExpiry>
    ensures value { result_ok result ≡ expiry_of_fields time name.now fields.now }
    ensures in_range { IfOk result (λ second. is_delete_time second ≡ true) }
{
    match fields.value_of(b"x-delete-at") {
        Some(text) => checked_second(time, name, second_of(text)),
        None => Ok(None),
    }
}

fn checked_second(
    time: Timestamp,
    name: &Name,
    second: Option<u64>,
) -> Result<Option<u64>, BadExpiry>
    requires { IfSome second (λ second. second ≤ 9999999999) }
    ensures value { result_ok result ≡ checked_second_at time name.now second }
    ensures in_range { IfOk result (λ second. is_delete_time second ≡ true) }
{
    match second {
        Some(second) if may_expire(time, name, second) => Ok(Some(second)),
        _ => Err(BadExpiry),
    }
}

/// Whether an object that is written at this time may expire at this second.
fn may_expire(time: Timestamp, name: &Name, second: u64) -> bool
    requires { second ≤ 9999999999 }
    ensures { result ≡ may_expire_at time name.now second }
{
    time.units() < second * UNITS_PER_SECOND && has_short_path(name)
}

/// Whether an entry of the expirer's queue can name the object.
fn has_short_path(name: &Name) -> bool
    ensures { result ≡ nat_le (path_size_of name.now) 2035 }
{
    path_size(name) <= MAX_EXPIRING_NAME
}

/// How many bytes the names of an object's path have, or the greatest number where they are more.
fn path_size(name: &Name) -> usize
    ensures { result ≡ min (path_size_of name.now) (2 ^ 64 - 1) }
{
    let place = name.account.as_slice().len() + name.container.as_slice().len();
    place.saturating_add(name.object.as_slice().len())
}

/// The second that a text is: 1 to 10 digits. `None` where it is none.
pub fn second_of(text: &[u8]) -> Option<u64>
    ensures value { result ≡ second_of_text text.now }
    ensures bound { IfSome result (λ second. second ≤ 9999999999) }
{
    if !is_second(text) {
        return None;
    }
    match Timestamp::parse(text) {
        Ok(time) => Some(time.units() / UNITS_PER_SECOND),
        Err(_) => None,
    }
}

fn is_second(text: &[u8]) -> bool
    ensures { result ≡ is_second_text text.now }
{
    !text.is_empty() && text.len() <= MAX_DIGITS && are_digits(text)
}

fn are_digits(text: &[u8]) -> bool
    ensures { result ≡ list_all is_ascii_digit text.now }
{
    text.iter().all(|byte| byte.is_ascii_digit())
}

/// Whether an object with these heads has expired at this second, since the epoch.
pub fn is_expired(heads: &Heads, moment: u64) -> bool
    ensures { result ≡ is_expired_at heads.now moment }
{
    match heads.delete_at {
        Some(second) => second <= moment,
        None => false,
    }
}
