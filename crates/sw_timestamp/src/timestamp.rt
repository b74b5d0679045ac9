ghost use Rattle.std.specs.Prelude.{◌≡◌, ◌≤◌, nat_le, if◌then◌else◌};

use std::marker::Model;

/// The greatest time, in 10-microsecond units: 9999999999.99999 seconds.
pub const GREATEST: u64 = 999_999_999_999_999;

/// The time of a write, in whole units of 10 microseconds since the epoch. Times are ordered as their numbers.
#[derive(Clone, Copy, Debug, PartialEq, Eq, PartialOrd, Ord)]
pub struct Timestamp {
    pub(crate) units: u64,
}

impl Model for Timestamp {
    ghost use Rattle.std.specs.Prelude.{ℕ, ◌≤◌};

    ghost Value = { ℕ };

    ghost view = { λ t. t.units };

    ghost inverse = { λ n. record { units = n } };

    ghost invariant = { λ t. t.units ≤ 999999999999999 };
}

impl Timestamp {
    /// The time of this number of units, or `None` exactly above [`GREATEST`], which is 999,999,999,999,999.
    pub fn from_units(units: u64) -> Option<Timestamp>
        ensures { result ≡ (if nat_le units 999999999999999 then Some units else None) }
    {
        if units <= GREATEST {
            Some(Timestamp { units })
        } else {
            None
        }
    }

    /// The number of 10-microsecond units.
    pub fn units(&self) -> u64
        ensures same { result ≡ self.now }
        ensures bound { result ≤ 999999999999999 }
    {
        self.units
    }
}
