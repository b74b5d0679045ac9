ghost use Rattle.std.specs.Prelude.{◌≡◌};
ghost use Rattle.sw_pending_dir.specs.Readings.{fault_of_decoding, fault_of_volume};
ghost use Rattle.sw_pending_dir.specs.declared.fault.ReadFault.TheVariants as faults;

use std::alloc::AllocFailed;
use sw_hashpath::{BadFile, DecodeError};
use sw_outside::NoMemory;
use sw_volume::VolumeError;
use thiserror::Error;

/// Why the file of a record can't be read.
#[derive(Clone, Copy, Debug, PartialEq, Eq, Error)]
pub enum ReadFault {
    /// The bytes are no record, or one of another key, which is told as [`BadFile::Field`].
    #[error("{0}")]
    Damaged(BadFile),
    /// The volume failed in this call. Its count of faults has risen by one.
    #[error("a call on the volume failed")]
    Failed,
    /// Memory ran out.
    #[error("out of memory")]
    NoMemory,
}

impl From<VolumeError> for ReadFault {
    ghost from_gives = { λ error fault. fault ≡ fault_of_volume error };

    fn from(error: VolumeError) -> ReadFault {
        match error {
            VolumeError::Failed => ReadFault::Failed,
            VolumeError::NoMemory => ReadFault::NoMemory,
        }
    }
}

impl From<DecodeError> for ReadFault {
    ghost from_gives = { λ error fault. fault ≡ fault_of_decoding error };

    fn from(error: DecodeError) -> ReadFault {
        match error {
            DecodeError::Bad(bad) => ReadFault::Damaged(bad),
            DecodeError::NoMemory => ReadFault::NoMemory,
        }
    }
}

impl From<NoMemory> for ReadFault {
    ghost from_gives = { λ error fault. fault ≡ faults.NoMemory };

    fn from(_error: NoMemory) -> ReadFault {
        ReadFault::NoMemory
    }
}

impl<T: Drop> From<AllocFailed<T>> for ReadFault {
    ghost from_gives = { λ error fault. fault ≡ faults.NoMemory };

    fn from(_error: AllocFailed<T>) -> ReadFault {
        ReadFault::NoMemory
    }
}
