ghost use Rattle.std.specs.Prelude.{◌≡◌, Some};
ghost use Rattle.sw_outside.specs.Readings.{first_reading, later_readings};

use crate::clock::Clock;
use std::marker::Model;

/// A clock in memory, which tells its readings. Contracts see the list of those to come.
#[derive(Debug, Drop)]
pub struct MemClock {
    readings: Vec<u64>,
    at: usize,
}

impl Model for MemClock {
    ghost use Rattle.std.specs.Prelude.{ℕ, List, ◌≤◌, drop, vec_len};

    ghost Value = { List ℕ };

    ghost view = { λ c. drop c.at c.readings.items };

    ghost invariant = { λ c. c.at ≤ vec_len c.readings };
}

impl MemClock {
    /// A clock with these readings, in whole seconds since 1970. The last one repeats; a clock without any shows 0.
    pub fn new(readings: Vec<u64>) -> MemClock
        ensures { result ≡ readings.items }
    {
        MemClock { readings, at: 0 }
    }
}

impl Clock for MemClock {
    ghost readings = { λ c. Some c };

    fn now(&mut self) -> u64 {
        let Some(reading) = self.readings.get(self.at).copied() else {
            return 0;
        };
        if self.at + 1 < self.readings.len() {
            self.at += 1;
        }
        reading
    }
}
