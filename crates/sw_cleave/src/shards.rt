ghost use Rattle.std.specs.Prelude.{◌≡◌};
ghost use Rattle.sw_cleave.specs.Shards.{least_point};

use sw_sync::Points;

/// The least number that is kept for a range and one of these devices; 0 where one of them has none.
pub(crate) fn least_point(points: &Points, range: u32, devices: &[u8]) -> u64
    ensures { result ≡ least_point points.now range devices.now }
{
    let mut least = u64::MAX;
    for device in devices {
        least = least.min(points.get(range, *device).unwrap_or(0));
    }
    least
}
