ghost use Rattle.std.specs.Prelude.{◌≡◌, ◌/◌, ◌^◌, ◌<◌, None};
ghost use Rattle.std.specs.Option.{option_map_or};
ghost use Rattle.std.specs.Time.{system_time_nanos};
ghost use Rattle.sw_outside.specs.Readings.{Ticks};

use crate::clock::Clock;
use std::rt::Clock as HostTime;
use std::time::{SystemTime, UNIX_EPOCH};

/// The host's clock. It tells no readings. A moment before 1970, or one that the host doesn't give, is 0.
#[derive(Drop)]
pub struct HostClock<'a, R: HostTime> {
    rt: &'a R,
}

impl<'a, R: HostTime> HostClock<'a, R> {
    pub fn new(rt: &'a R) -> HostClock<'a, R> {
        HostClock { rt }
    }
}

impl<R: HostTime> Clock for HostClock<'_, R> {
    ghost readings = { λ _. None };

    fn now(&mut self) -> u64
        ensures ticks { Ticks None None result }
        ensures range { result < 2 ^ 63 }
    {
        whole_seconds(SystemTime::now(self.rt).ok())
    }
}

/// The whole seconds from 1970 to this moment: what is left of the last second is dropped. A moment that isn't known, or
/// one before 1970, is 0.
fn whole_seconds(moment: Option<SystemTime>) -> u64
    ensures { result ≡ option_map_or (λ t. system_time_nanos t / 1_000_000_000) moment 0 }
{
    match moment.map(|moment| moment.duration_since(UNIX_EPOCH)) {
        Some(Ok(since)) => since.as_secs(),
        _ => 0,
    }
}
