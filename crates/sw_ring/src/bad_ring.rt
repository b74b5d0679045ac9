ghost use Rattle.std.specs.Prelude.{◌≡◌};
ghost use Rattle.sw_ring.specs.BadRings.{bad_ring_number};
ghost use Rattle.sw_ring.specs.declared.bad_ring.RingError.{RingError};

use sw_outside::NoMemory;
use thiserror::Error;

/// What is wrong with the text of a ring. The first that holds, in this order, is reported.
#[derive(Clone, Copy, Debug, PartialEq, Eq, Error)]
pub enum BadRing {
    /// It is no JSON text, or one that nests deeper than 127 levels.
    #[error("the ring is no JSON text")]
    NotJson,
    /// It is no object with exactly the eight keys, or a value is of another kind or out of its grammar: a device's name
    /// has 1 to 32 small letters and digits, there are at most 4 lock bits and at most as many as bits of the partition,
    /// there is a replica, and each row has as many devices as there are replicas.
    #[error("the ring has not the shape of a ring")]
    BadShape,
    /// The part power is 0 or over 16.
    #[error("the part power of the ring is not 1 to 16")]
    BadPower,
    /// Two devices have one name.
    #[error("two devices of the ring have one name")]
    SameName,
    /// A row names a device that isn't in the list of devices.
    #[error("a row of the ring has an unknown device")]
    UnknownDevice,
    /// A table hasn't 2 to the part power rows.
    #[error("a table of the ring has not a row for each partition")]
    RowCount,
    /// A row names a device twice.
    #[error("a row of the ring has a device twice")]
    SameDevice,
    /// There are over 8 devices, or over 3 replicas.
    #[error("the ring has over 8 devices or over 3 replicas")]
    TooLarge,
}

impl BadRing {
    /// The number that is printed for this cause: 1 to 8, in the order above.
    pub fn number(&self) -> u8
        ensures { result ≡ bad_ring_number self.now }
    {
        match self {
            BadRing::NotJson => 1,
            BadRing::BadShape => 2,
            BadRing::BadPower => 3,
            BadRing::SameName => 4,
            BadRing::UnknownDevice => 5,
            BadRing::RowCount => 6,
            BadRing::SameDevice => 7,
            BadRing::TooLarge => 8,
        }
    }
}

/// Why a ring wasn't read.
#[derive(Clone, Copy, Debug, PartialEq, Eq, Error)]
pub enum RingError {
    /// Something is wrong with its text.
    #[error("{0}")]
    Bad(BadRing),
    /// Memory ran out.
    #[error("out of memory")]
    NoMemory,
}

impl From<BadRing> for RingError {
    ghost from_gives = { λ bad error. error ≡ RingError.Bad bad };

    fn from(bad: BadRing) -> RingError {
        RingError::Bad(bad)
    }
}

impl From<NoMemory> for RingError {
    ghost from_gives = { λ _ error. error ≡ RingError.NoMemory };

    fn from(_error: NoMemory) -> RingError {
        RingError::NoMemory
    }
}
