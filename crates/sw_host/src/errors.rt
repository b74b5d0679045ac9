ghost use Rattle.std.specs.Prelude.{◌≡◌, ◌≢◌};
ghost use Rattle.std.specs.IoError.{error_kind};
ghost use Rattle.sw_outside.specs.declared.store_error.StoreError.{StoreError as StoreErrorSeen};

use std::io;
use std::io::ErrorKind;
use sw_outside::StoreError;

/// What an error of the host is to stores: want of memory is no failure of theirs, and each other one is.
pub fn store_error(error: io::Error) -> StoreError
    ensures memory { result ≡ StoreErrorSeen.NoMemory → error_kind error ≡ ErrorKind.OutOfMemory }
    ensures failed { result ≡ StoreErrorSeen.Failed → error_kind error ≢ ErrorKind.OutOfMemory }
{
    if error.kind() == ErrorKind::OutOfMemory {
        StoreError::NoMemory
    } else {
        StoreError::Failed
    }
}
