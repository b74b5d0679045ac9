ghost use Rattle.std.specs.Prelude.{◌≡◌};
ghost use Rattle.sw_outside.specs.declared.store_error.StoreError.{StoreError};

use crate::errors::{Failed, NoMemory};
use thiserror::Error;

/// Why something of the host wasn't opened or read.
#[derive(Clone, Copy, Debug, PartialEq, Eq, Error)]
pub enum StoreError {
    /// The call failed, and the count of faults has risen.
    #[error("a call on the outside failed")]
    Failed,
    #[error("out of memory")]
    NoMemory,
}

impl From<Failed> for StoreError {
    ghost from_gives = { λ _ error. error ≡ StoreError.Failed };

    fn from(_error: Failed) -> StoreError {
        StoreError::Failed
    }
}

impl From<NoMemory> for StoreError {
    ghost from_gives = { λ _ error. error ≡ StoreError.NoMemory };

    fn from(_error: NoMemory) -> StoreError {
        StoreError::NoMemory
    }
}
