ghost use Rattle.sw_listing_json.specs.Dates.{IsListedTime};

use arrayvec::ArrayString;
use jiff::Timestamp as Instant;
use jiff::fmt::temporal::DateTimePrinter;
use jiff::tz::Offset;
use sw_timestamp::Timestamp;

/// The date and the time of day in UTC, with six decimals: `1970-01-01T00:00:05.000000`. It takes no memory.
pub fn listed_time(time: Timestamp) -> ArrayString<32>
    ensures { IsListedTime time result.bytes }
{
    let instant = Instant::from_microsecond(time.units() as i64 * 10).unwrap();
    DateTimePrinter::new()
        .precision(Some(6))
        .datetime_text(Offset::UTC.to_datetime(instant).to_plain())
}
