ghost use Rattle.std.specs.Prelude.{ℕ, List, Option};
ghost use Rattle.sw_outside.specs.Readings.{Ticks};

/// Where the moment comes from, in whole seconds since 1970. It can't fail.
pub trait Clock {
    /// The readings to come, where the clock tells them. The last one stays.
    ghost readings: { Self → Option (List ℕ) };

    /// The present moment, in whole seconds since 1970.
    fn now(&mut self) -> u64
        ensures { Ticks (readings self.old) (readings self.new) result };
}
