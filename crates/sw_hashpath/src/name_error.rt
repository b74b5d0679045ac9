ghost use Rattle.std.specs.Prelude.{◌≡◌};
ghost use Rattle.sw_hashpath.specs.declared.name_error.NameError.{NameError};

use crate::bad_name::BadName;
use sw_outside::NoMemory;
use thiserror::Error;

/// Why a name wasn't made.
#[derive(Clone, Copy, Debug, PartialEq, Eq, Error)]
pub enum NameError {
    /// Something is wrong with the names.
    #[error("{0}")]
    Bad(BadName),
    /// Memory ran out over good names.
    #[error("out of memory")]
    NoMemory,
}

impl From<BadName> for NameError {
    ghost from_gives = { λ bad error. error ≡ NameError.Bad bad };

    fn from(bad: BadName) -> NameError {
        NameError::Bad(bad)
    }
}

impl From<NoMemory> for NameError {
    ghost from_gives = { λ _ error. error ≡ NameError.NoMemory };

    fn from(_error: NoMemory) -> NameError {
        NameError::NoMemory
    }
}
