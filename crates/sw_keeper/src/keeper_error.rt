ghost use Rattle.std.specs.Prelude.{◌≡◌};
ghost use Rattle.sw_keeper.specs.declared.keeper_error.KeeperError.TheVariants as error;

use std::alloc::{AllocError, AllocFailed};
use sw_outside::NoMemory;
use thiserror::Error;

/// Why a call on a keeper gave no answer.
#[derive(Clone, Copy, Debug, PartialEq, Eq, Error)]
pub enum KeeperError {
    /// The keeper failed in this call. Its count of faults has risen by one.
    #[error("a call on the keeper failed")]
    Failed,
    /// Memory ran out. The tables are what they were.
    #[error("out of memory")]
    NoMemory,
}

impl From<NoMemory> for KeeperError {
    ghost from_gives = { λ _ e. e ≡ error.NoMemory };

    fn from(_error: NoMemory) -> KeeperError {
        KeeperError::NoMemory
    }
}

impl From<sw_outside::Failed> for KeeperError {
    ghost from_gives = { λ _ e. e ≡ error.Failed };

    fn from(_error: sw_outside::Failed) -> KeeperError {
        KeeperError::Failed
    }
}

impl From<AllocError> for KeeperError {
    ghost from_gives = { λ _ e. e ≡ error.NoMemory };

    fn from(_error: AllocError) -> KeeperError {
        KeeperError::NoMemory
    }
}

impl<T: Drop> From<AllocFailed<T>> for KeeperError {
    ghost from_gives = { λ _ e. e ≡ error.NoMemory };

    fn from(_error: AllocFailed<T>) -> KeeperError {
        KeeperError::NoMemory
    }
}
